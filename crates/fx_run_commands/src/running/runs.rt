//! Whole runs from a base on.
ghost use Rattle.std.specs.Prelude.{◌≡◌, ◌++◌, ◌<◌, All, IfOk, length};
ghost use Rattle.fx_spec.specs.Bases.{base_tree};
ghost use Rattle.fx_report.specs.Entries as whole;
ghost use Rattle.fx_words.specs.Job.{Plain, Scheduled, Watched};
ghost use Rattle.fx_words.specs.JobOf.{asked, IsJob};
ghost use Rattle.fx_run_commands.specs.Runs.Answers.{last_of, IsRunFrom};
ghost use Rattle.fx_inputs.specs.Inputs.{HasEachScript};

use fx_base::NoMemory;
use fx_board::{Board, Event, Retries};
use fx_outside::Gate;
use fx_report::{add_event_line, add_report, report};
use fx_sched::{Taker, World, play};
use fx_spec::Base;
use fx_store::LongText;
use fx_watch::run_watched;
use fx_words::{RunJob, RunMode};
use fx_workers::run_all;
use std::alloc::Global;
use std::mem;
use std::sync::{Arc, Wait};
use std::thread::Threads;

/// A whole run: its log and its output.
pub(crate) struct Answer {
    pub board: Board,
    pub output: LongText,
}

impl Answer {
    /// Leaves the log where it is.
    pub(crate) fn leave(self) {
        let Answer { board, output: _ } = self;
        mem::forget(board);
    }
}

/// Runs each script on a thread of its own.
pub(crate) fn run_base<R: Threads + Wait + Sync, G: Gate + Sync>(
    rt: &R,
    alloc: Global,
    base: Arc<Base>,
    gate: &G,
) -> Result<Answer, NoMemory>
    ensures { IfOk result (λ a. IsRunFrom (base_tree base.value) Plain (last_of a) a.output) }
{
    let (board, retries) = run_all(rt, alloc, base, gate)?;
    let output = report(alloc, &board, &retries);
    mem::forget(retries);
    match output {
        Ok(output) => Ok(Answer { board, output }),
        Err(fault) => {
            board.let_go();
            Err(fault)
        }
    }
}

/// The lines of the events of a run, each of which is let go once it has its line.
#[derive(Drop)]
struct Lines {
    text: Vec<u8>,
}

impl Taker for Lines {
    ghost use Rattle.std.specs.Prelude.{⊤};
    ghost use Rattle.fx_report.specs.Events.{lines};

    type Stop = NoMemory;

    ghost took = { λ taker events running. taker.text.items ≡ lines events };

    ghost refused = { λ taker stop events event running. ⊤ };

    fn take(&mut self, _alloc: Global, _world: &World, event: Event) -> Result<(), NoMemory> {
        add_event_line(&mut self.text, &event)
    }
}

/// What is printed of a run by a schedule: the lines of its events, and then its report.
fn traced_output(lines: Lines, board: &Board, retries: &Retries) -> Result<LongText, NoMemory>
    ensures { IfOk result (λ text. text
        ≡ lines.text.items ++ whole.report board.now.base board.now.order retries.now) }
{
    let mut out = lines.text;
    add_report(&mut out, board, retries)?;
    Ok(LongText::from_vec(out))
}

/// Runs all scripts on one thread, by a schedule of shells.
fn run_by(alloc: Global, base: Arc<Base>, schedule: &[u32]) -> Result<Answer, NoMemory>
    requires { All (λ k. k < length base.value.plan) schedule.now }
    ensures { IfOk result (λ a.
        IsRunFrom (base_tree base.value) (Scheduled schedule.now) (last_of a) a.output) }
{
    let mut lines = Lines {
        text: Vec::new(alloc),
    };
    let Ok((board, retries)) = play(alloc, base, schedule, &mut lines) else {
        return Err(NoMemory);
    };
    let output = traced_output(lines, &board, &retries);
    mem::forget(retries);
    match output {
        Ok(output) => Ok(Answer { board, output }),
        Err(fault) => {
            board.let_go();
            Err(fault)
        }
    }
}

/// Runs all scripts on one thread, by a schedule of shells, and watches whether the tree has a value.
fn run_watching(alloc: Global, base: Arc<Base>, schedule: &[u32]) -> Result<Answer, NoMemory>
    requires { All (λ k. k < length base.value.plan) schedule.now }
    ensures { IfOk result (λ a.
        IsRunFrom (base_tree base.value) (Watched schedule.now) (last_of a) a.output) }
{
    let (board, output) = run_watched(alloc, base, schedule)?;
    Ok(Answer { board, output })
}

/// Runs all scripts on one thread, by the job's schedule, watched or not.
pub(crate) fn trace_base(alloc: Global, job: &RunJob, base: Arc<Base>) -> Result<Answer, NoMemory>
    requires job { IsJob job.now }
    requires scheduled { (asked job.now).mode ≡ Plain → ⊥ }
    requires count { HasEachScript (asked job.now).inputs (base_tree base.value) }
    ensures { IfOk result (λ a.
        IsRunFrom (base_tree base.value) (asked job.now).mode (last_of a) a.output) }
{
    let schedule = match job.shells(alloc) {
        Ok(schedule) => schedule,
        Err(fault) => {
            Base::let_go(base);
            return Err(fault);
        }
    };
    match job.mode {
        RunMode::Plain => unreachable!(),
        RunMode::Scheduled(_) => run_by(alloc, base, &schedule),
        RunMode::Watched(_) => run_watching(alloc, base, &schedule),
    }
}
