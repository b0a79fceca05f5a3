//! A whole watched run.
ghost use Rattle.std.specs.Prelude.{◌≡◌, ◌<◌, ◌++◌, [], All, IfOk, length};
ghost use Rattle.fx_report.specs.Entries.{report};
ghost use Rattle.std.specs.FinMap.{get};
ghost use Rattle.fx_spec.specs.Bases.{base_tree};
ghost use Rattle.fx_watch.specs.WatchView.{AnswersFor};
ghost use Rattle.fx_sched.specs.World.{began};
ghost use Rattle.fx_watch.specs.Outcome.{IsWatched};
ghost use Rattle.fx_watch.specs.Watching.{HasWatched};

use crate::based::Based;
use crate::lines::add_valid;
use crate::watch::Watch;
use crate::watching::Watching;
use fx_base::{NoMemory, Steps};
use fx_board::{Board, Retries};
use fx_report::add_report;
use fx_sched::play;
use fx_spec::Base;
use fx_store::LongText;
use std::alloc::Global;
use std::marker::{Brand, PhantomData};
use std::sync::Arc;
use std::sync::ledger::{Blank, Ledger};

/// A watch that was told the loaded filestore. The evaluations of its walk are counted.
fn watch_by<L: Ledger>(alloc: Global, base: Arc<Base>, blank: Blank) -> Result<Watch, NoMemory>
    requires name { blank.name ≡ L.name }
    requires parts { blank.parts ≡ L.parts }
    requires some { 0 < L.parts }
    ensures root { IfOk result (λ watch. watch.root ≡ base.value.description) }
    ensures told { IfOk result (λ watch. AnswersFor watch (get base.value.loaded.nodes)) }
{
    Watch::new(alloc, base, Steps::<L>::open(blank)).1
}

/// The start of a watched run: the loaded filestore was told, and its line is printed.
fn begin<B: Based>(alloc: Global, base: &Arc<Base>) -> Result<Watching<B>, NoMemory>
    requires { base_tree base.now.value ≡ B.base }
    ensures { IfOk result (λ w. HasWatched B.base w.watch w.output.items [] (began B.base)) }
{
    let base = Arc::try_clone(base)?;
    let watch = watch_by::<Brand>(alloc, base, Blank::new(1))?;
    let mut output = Vec::new(alloc);
    match add_valid(&mut output, watch.valid()) {
        Ok(()) => Ok(Watching {
            watch,
            output,
            of: PhantomData,
        }),
        Err(fault) => {
            watch.let_go();
            Err(fault)
        }
    }
}

/// A watched run of the base that `B` names.
fn run_by<B: Based>(
    alloc: Global,
    base: Arc<Base>,
    schedule: &[u32],
) -> Result<(Board, LongText), NoMemory>
    requires base { base_tree base.value ≡ B.base }
    requires shells { All (λ k. k < length base.value.plan) schedule.now }
    ensures { IfOk result (λ run. IsWatched B.base schedule.now run.0 run.1) }
{
    let mut watching = match begin::<B>(alloc, &base) {
        Ok(watching) => watching,
        Err(fault) => {
            Base::let_go(base);
            return Err(fault);
        }
    };
    let ended = play(alloc, base, schedule, &mut watching);
    let Watching { watch, output, .. } = watching;
    watch.let_go();
    match ended {
        Ok((board, retries)) => match with_report(output, &board, &retries) {
            Ok(output) => Ok((board, output)),
            Err(fault) => {
                board.let_go();
                Err(fault)
            }
        },
        Err(_) => Err(NoMemory),
    }
}

/// Lines, and behind them the report of a log.
fn with_report(mut lines: Vec<u8>, board: &Board, retries: &Retries) -> Result<LongText, NoMemory>
    ensures { IfOk result (λ output. output
        ≡ lines.items ++ report board.now.base board.now.order retries.now) }
{
    add_report(&mut lines, board, retries)?;
    Ok(LongText::from_vec(lines))
}

/// Steps the shells of the schedule in order, and then all shells in rounds from 0 on, until none has a transaction left,
/// and watches whether the description has a value after each entry. It answers the log, and what is printed. Each number of
/// the schedule needs to be below the number of scripts.
pub fn run_watched(
    alloc: Global,
    base: Arc<Base>,
    schedule: &[u32],
) -> Result<(Board, LongText), NoMemory>
    requires { All (λ k. k < length base.value.plan) schedule.now }
    ensures { IfOk result (λ run. IsWatched (base_tree base.value) schedule.now run.0 run.1) }
{
    run_by::<Brand>(alloc, base, schedule)
}
