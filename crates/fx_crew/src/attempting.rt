//! Attempts at the transactions of a script, one after another.
ghost use Rattle.std.specs.Prelude.{◌≡◌, ◌<◌, ◌^◌, ◌+◌, Some, IfOk};
ghost use Rattle.fx_spec.specs.Bases.{base_tree};
ghost use Rattle.fx_spec.specs.Plans.{count_of};
ghost use Rattle.fx_machine.specs.Explained.{IsExplained};
ghost use Rattle.fx_shared.specs.Passes.{HasBase, HasLegal, AreTrueInLog};
ghost use Rattle.fx_crew.specs.Working.{HasTried, ComesTo, IsWorker, HasGone, HasWorkedOff};

use crate::worker::Worker;
use fx_base::NoMemory;
use fx_board::let_go;
use fx_machine::{Attempt, Retry};
use fx_run::run;
use fx_shared::{Desk, DeskReader, Settle};
use fx_spec::Base;
use fx_store::Path;
use fx_view::Stop;
use std::alloc::Global;
use std::sync::Arc;

/// What an attempt comes to: it is an entry, or an entry stands in its way, which has changed this path.
#[derive(Drop)]
pub(crate) enum Outcome {
    Settled,
    Conflict(u64, Path),
}

/// Runs a transaction over looks of the pass, as an attempt.
fn attempt<D: Desk>(
    alloc: Global,
    base: &Arc<Base>,
    desk: D,
    shell: u32,
    txn: u32,
) -> Result<(D, Attempt), NoMemory>
    requires planned { txn < count_of (base_tree base.now.value).plan shell }
    ensures table { IfOk result (λ r. D.table r.0 ≡ D.table desk) }
    ensures tried { IfOk result (λ r.
        HasTried (base_tree base.now.value) shell txn (D.view desk) (D.view r.0) r.1) }
{
    let mut live = DeskReader::over(alloc, desk, txn);
    let ended = run(alloc, base, shell, txn, &mut live);
    let desk = live.into_desk();
    match ended {
        Ok(attempt) => Ok((desk, attempt)),
        Err(Stop::Needs(_)) => unreachable!(),
        Err(Stop::NoMemory) => Err(NoMemory),
    }
}

/// Settles an attempt. What a conflict hands back is dropped once the turn is over.
fn settle<D: Desk>(alloc: Global, desk: &mut D, attempt: Attempt) -> Result<Outcome, NoMemory>
    requires whose { (D.view desk.old).number ≡ Some attempt.shell }
    requires next { attempt.txn ≡ (D.view desk.old).mine }
    requires explained { HasBase (D.view desk.old) (λ base. IsExplained base attempt) }
    requires reads { AreTrueInLog (D.view desk.old) attempt.reads }
    ensures table { D.table desk.new ≡ D.table desk.old }
    ensures legal { HasLegal (D.view desk.new) }
    ensures outcome { IfOk result (ComesTo (D.view desk.old) (D.view desk.new) attempt) }
{
    match desk.settle(alloc, attempt) {
        Ok(_) => Ok(Outcome::Settled),
        Err(
            Settle::Conflict {
                entry,
                path,
                attempt,
            },
        ) => {
            let_go(attempt);
            Ok(Outcome::Conflict(entry, path))
        }
        Err(Settle::NoMemory(refused)) => {
            let_go(refused);
            Err(NoMemory)
        }
    }
}

/// One attempt at the next transaction: it is settled, or noted as one that starts again.
fn advance<D: Desk>(
    alloc: Global,
    base: &Arc<Base>,
    shell: u32,
    worker: Worker<D>,
) -> Result<Worker<D>, NoMemory>
    requires worker { IsWorker D.view (base_tree base.now.value) shell worker }
    requires left { worker.next < count_of (base_tree base.now.value).plan shell }
    requires room { worker.next + 1 < 2 ^ 32 }
    ensures table { IfOk result (λ new. D.table new.desk ≡ D.table worker.desk) }
    ensures gone { IfOk result (HasGone D.view (base_tree base.now.value) shell worker) }
{
    let Worker {
        desk,
        next,
        mut retries,
    } = worker;
    let (mut desk, attempt) = attempt(alloc, base, desk, shell, next)?;
    match settle(alloc, &mut desk, attempt)? {
        Outcome::Settled => Ok(Worker {
            desk,
            next: next + 1,
            retries,
        }),
        Outcome::Conflict(entry, path) => {
            let retry = Retry {
                shell,
                txn: next,
                entry,
                path,
            };
            retries.push(retry)?;
            Ok(Worker {
                desk,
                next,
                retries,
            })
        }
    }
}

/// Settles the transactions of the script of the desk's shell, one after another.
pub fn work<D: Desk>(alloc: Global, base: &Arc<Base>, desk: D) -> Result<Worker<D>, NoMemory>
    requires based { (D.view desk).base ≡ Some (base_tree base.now.value) }
    requires none { (D.view desk).mine ≡ 0 }
    ensures table { IfOk result (λ worker. D.table worker.desk ≡ D.table desk) }
    ensures done { IfOk result
        (HasWorkedOff D.view (base_tree base.now.value) (D.view desk).number) }
{
    let shell = desk.shell();
    let count = base.plan.count(shell);
    let mut worker = Worker {
        desk,
        next: 0,
        retries: Vec::new(alloc),
    };
    while worker.next < count {
        worker = advance(alloc, base, shell, worker)?;
    }
    Ok(worker)
}
