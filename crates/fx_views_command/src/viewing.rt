//! A whole run with views, from what they begin with on.
ghost use Rattle.std.specs.Prelude.{◌≡◌, ◌++◌, ◌<◌, IfOk, length};
ghost use Rattle.fx_base.specs.Limits.{shell_limit};
ghost use Rattle.fx_spec.specs.Bases.{base_tree};
ghost use Rattle.fx_spec.specs.Plans.{script_of};
ghost use Rattle.fx_report.specs.Entries as whole;
ghost use Rattle.fx_report.specs.Views as lines;
ghost use Rattle.fx_inputs.specs.Views.{IsBeside};
ghost use Rattle.fx_views_command.specs.Answers.{last_of_views, IsViewsRunFrom};

use fx_base::NoMemory;
use fx_board::Board;
use fx_inputs::Bases;
use fx_outside::Gate;
use fx_report::{Retries, Viewed, report, views_text};
use fx_shared::Versioned;
use fx_store::LongText;
use fx_views::run_views;
use std::alloc::Global;
use std::mem;
use std::sync::Wait;
use std::thread::Threads;

/// A whole run with views: its log and its output.
pub(crate) struct Answer {
    pub log: Versioned,
    pub output: LongText,
}

impl Answer {
    /// Leaves the log where it is.
    pub(crate) fn leave(self) {
        let Answer { log, output: _ } = self;
        mem::forget(log);
    }
}

/// What is printed: the report of the run, and then the views.
fn printed(
    alloc: Global,
    board: &Board,
    retries: &Retries,
    viewed: &Viewed,
) -> Result<LongText, NoMemory>
    ensures { IfOk result (λ text. text
        ≡ whole.report board.now.base board.now.order retries.now ++ lines.views_text viewed.now) }
{
    let report = report(alloc, board, retries)?;
    let views = views_text(alloc, viewed)?;
    let mut bytes = report.into_vec();
    bytes.extend_from_slice(views.as_slice())?;
    Ok(LongText::from_vec(bytes))
}

/// Runs the scripts on the loaded filestore, each on a thread of its own, and the views on one more.
pub(crate) fn run_bases<R: Threads + Wait + Sync, G: Gate + Sync>(
    rt: &R,
    alloc: Global,
    bases: Bases,
    gate: &G,
) -> Result<Answer, NoMemory>
    requires few { length bases.scripts.value.plan < shell_limit }
    requires beside { IsBeside (base_tree bases.scripts.value) (base_tree bases.views.value) }
    ensures { IfOk result (λ a. IsViewsRunFrom (base_tree bases.scripts.value)
        (script_of bases.views.value.plan 0) (last_of_views a) a.output) }
{
    let Bases { scripts, views } = bases;
    let (log, retries, viewed) = run_views(rt, alloc, scripts, views, gate)?;
    let output = printed(alloc, log.board(), &retries, &viewed);
    mem::forget(retries);
    mem::forget(viewed);
    match output {
        Ok(output) => Ok(Answer { log, output }),
        Err(fault) => {
            log.let_go();
            Err(fault)
        }
    }
}
