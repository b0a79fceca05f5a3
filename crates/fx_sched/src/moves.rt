//! One step of one shell over a log.
ghost use Rattle.std.specs.Prelude.{◌≡◌, ◌<◌, ◌≤◌, ◌+◌, ◌^◌, ◌++◌, ◌∷◌, [], true, IfOk, OnErr, OnOk, IsSome, length};
ghost use Rattle.fx_spec.specs.Plans.{txn_of};
ghost use Rattle.fx_sched.specs.Shells.{IsShell, HasReadyPlan, HasLooksOf};
ghost use Rattle.fx_sched.specs.Moves.{Moved, retry_of};

use crate::shell::{Plan, Shell};
use fx_base::NoMemory;
use fx_board::{Board, Event, Present, Settle};
use fx_machine::{Attempt, Retries, Retry};
use fx_store::Path;
use fx_view::{Reads, Stop};
use std::alloc::Global;
use std::mem;

/// The shell's next transaction looks at one more path, or it settles, or it starts again. It goes by the shell's plan, which is
/// made anew where what it reads next is not what stands there now. A refusal leaves the log and the looks.
pub(crate) fn advance(
    alloc: Global,
    board: &mut Board,
    number: u32,
    shell: &mut Shell,
) -> Result<Event, NoMemory>
    requires shell { IsShell board.old number shell.old }
    requires left { IsSome (txn_of board.old.base.plan (number, shell.old.next)) }
    requires room { shell.old.next + 1 < 2 ^ 32 }
    ensures shell { IsShell board.new number shell.new }
    ensures ok { IfOk result (λ event. Moved board.old board.new number shell.old event shell.new) }
    ensures log { OnErr result (board.new ≡ board.old) }
    ensures looks { OnErr result (HasLooksOf shell.old shell.new) }
{
    make_ready(alloc, board, number, shell)?;
    if shell.looked < shell.reads.len() {
        look(alloc, board, number, shell)
    } else {
        settle(alloc, board, number, shell)
    }
}

/// Sees to it that the shell has a plan, and that what this reads next stands there now.
fn make_ready(alloc: Global, board: &Board, number: u32, shell: &mut Shell) -> Result<(), NoMemory>
    requires shell { IsShell board.now number shell.old }
    requires left { IsSome (txn_of board.now.base.plan (number, shell.old.next)) }
    ensures shell { IsShell board.now number shell.new }
    ensures looks { HasLooksOf shell.old shell.new }
    ensures ready { OnOk result (HasReadyPlan board.now shell.new) }
{
    if is_ready(board, number, shell) {
        return Ok(());
    }
    plan(alloc, board, number, shell)
}

/// Whether the shell has a plan, and what it reads next has not been changed since it was made.
fn is_ready(board: &Board, number: u32, shell: &Shell) -> bool
    requires { IsShell board.now number shell.now }
    ensures { result ≡ true → HasReadyPlan board.now shell.now }
{
    let Some(plan) = &shell.plan else {
        return false;
    };
    let Some((path, _)) = shell.reads.at(shell.looked) else {
        return true;
    };
    match board.last_change(path) {
        None => true,
        Some(entry) => entry < plan.made,
    }
}

/// Runs the shell's next transaction over its looks and what stands in the log, and keeps what it comes to.
fn plan(alloc: Global, board: &Board, number: u32, shell: &mut Shell) -> Result<(), NoMemory>
    requires shell { IsShell board.now number shell.old }
    requires left { IsSome (txn_of board.now.base.plan (number, shell.old.next)) }
    ensures shell { IsShell board.now number shell.new }
    ensures looks { HasLooksOf shell.old shell.new }
    ensures ready { OnOk result (HasReadyPlan board.now shell.new) }
{
    let mut reads = mem::replace(&mut shell.reads, Reads::new(alloc));
    reads.truncate(shell.looked);
    shell.plan = None;
    let mut present = Present::new(board, reads);
    match fx_run::run(alloc, board.shared_base(), number, shell.next, &mut present) {
        Ok(attempt) => {
            let Attempt {
                reads,
                changes,
                outputs,
                end,
                ..
            } = attempt;
            let _reads = reads.len();
            shell.reads = reads;
            shell.plan = Some(Plan {
                made: board.len(),
                changes,
                outputs,
                end,
            });
            Ok(())
        }
        Err(Stop::Needs(_)) => unreachable!(),
        Err(Stop::NoMemory) => {
            shell.reads = present.into_reads();
            Err(NoMemory)
        }
    }
}

/// Looks at the path that the plan reads next.
fn look(alloc: Global, board: &Board, number: u32, shell: &mut Shell) -> Result<Event, NoMemory>
    requires shell { IsShell board.now number shell.old }
    requires ready { HasReadyPlan board.now shell.old }
    requires more { shell.old.looked < length shell.old.reads }
    ensures shell { IsShell board.now number shell.new }
    ensures ok { IfOk result (λ event. Moved board.now board.now number shell.old event shell.new) }
    ensures err { OnErr result (shell.new ≡ shell.old) }
{
    let Some((path, _)) = shell.reads.at(shell.looked) else {
        unreachable!()
    };
    let path = path.copy(alloc)?;
    let _reads = shell.reads.len();
    let position = board.len();
    shell.reads.place(shell.looked, position);
    shell.looked += 1;
    Ok(Event::Look {
        shell: number,
        path,
        position,
    })
}

/// Settles what the transaction comes to by the plan, whose reads are all looks.
fn settle(
    alloc: Global,
    board: &mut Board,
    number: u32,
    shell: &mut Shell,
) -> Result<Event, NoMemory>
    requires shell { IsShell board.old number shell.old }
    requires ready { HasReadyPlan board.old shell.old }
    requires all { length shell.old.reads ≤ shell.old.looked }
    requires room { shell.old.next + 1 < 2 ^ 32 }
    ensures shell { IsShell board.new number shell.new }
    ensures ok { IfOk result (λ event. Moved board.old board.new number shell.old event shell.new) }
    ensures log { OnErr result (board.new ≡ board.old) }
    ensures looks { OnErr result (HasLooksOf shell.old shell.new) }
{
    let Some(plan) = mem::replace(&mut shell.plan, None) else {
        unreachable!()
    };
    let attempt = Attempt {
        shell: number,
        txn: shell.next,
        reads: mem::replace(&mut shell.reads, Reads::new(alloc)),
        changes: plan.changes,
        outputs: plan.outputs,
        end: plan.end,
    };
    match board.settle(alloc, attempt) {
        Ok(entry) => {
            shell.looked = 0;
            shell.next += 1;
            Ok(Event::Settled {
                shell: number,
                entry,
            })
        }
        Err(
            Settle::Conflict {
                entry,
                path,
                attempt,
            },
        ) => match note(alloc, &mut shell.retries, number, shell.next, entry, &path) {
            Ok(()) => {
                drop(attempt);
                shell.looked = 0;
                Ok(Event::Conflict {
                    shell: number,
                    entry,
                    path,
                })
            }
            Err(NoMemory) => {
                shell.reads = attempt.reads;
                Err(NoMemory)
            }
        },
        Err(Settle::NoMemory(attempt)) => {
            shell.reads = attempt.reads;
            Err(NoMemory)
        }
    }
}

/// Adds a retry to those of its shell.
fn note(
    alloc: Global,
    retries: &mut Retries,
    shell: u32,
    txn: u32,
    entry: u64,
    path: &Path,
) -> Result<(), NoMemory>
    ensures ok { OnOk result
        (retries.new ≡ retries.old ++ retry_of shell txn entry path.now ∷ []) }
    ensures err { OnErr result (retries.new ≡ retries.old) }
{
    let path = path.copy(alloc)?;
    retries.push(Retry {
        shell,
        txn,
        entry,
        path,
    })?;
    Ok(())
}
