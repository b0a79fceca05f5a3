//! The loop over an order.
ghost use Rattle.std.specs.Prelude.{◌≡◌, ◌<◌, ◌^◌, IfOk, OnOk, length};
ghost use Rattle.fx_spec.specs.Bases.{base_tree};
ghost use Rattle.fx_spec.specs.Order.{IsLegal, state};
ghost use Rattle.fx_spec.specs.Plans.{count_of};
ghost use Rattle.fx_machine.specs.Explained.{IsExplained};
ghost use Rattle.fx_machine.specs.Machine.{next_number};
ghost use Rattle.fx_board.specs.Board.{IsLog, settled, started};
ghost use Rattle.fx_audit.specs.Present.{AreNow};
ghost use Rattle.fx_audit.specs.Orders.{pair_turns, logged};

use fx_base::{Listed, NoMemory};
use fx_board::{Attempt, Board, Pair, Present, Settle};
use fx_run::run;
use fx_spec::Base;
use fx_store::Filestore;
use fx_view::{Reads, Stop};
use std::alloc::Global;
use std::sync::Arc;

/// Transactions, in the order in which they were committed.
pub type Pairs = Listed<Pair>;

/// A transaction of the plan, run whole on the filestore after all entries, as an attempt.
fn attempt(
    alloc: Global,
    base: &Arc<Base>,
    board: &Board,
    shell: u32,
    txn: u32,
) -> Result<Attempt, NoMemory>
    requires { txn < count_of (base_tree base.now.value).plan shell }
    ensures shell { IfOk result (λ a. a.shell ≡ shell) }
    ensures txn { IfOk result (λ a. a.txn ≡ txn) }
    ensures explained { IfOk result (IsExplained (base_tree base.now.value)) }
    ensures reads { IfOk result (λ a. AreNow board.now a.reads) }
{
    let reads = Reads::new(alloc);
    let mut reader = Present::new(board, reads);
    let ended = run(alloc, base, shell, txn, &mut reader);
    reader.into_reads().let_go();
    match ended {
        Ok(attempt) => Ok(attempt),
        Err(Stop::Needs(_)) => unreachable!(),
        Err(Stop::NoMemory) => Err(NoMemory),
    }
}

/// Settles an attempt that has read what stands after all entries, and so is in no entry's way.
fn settle(alloc: Global, board: &mut Board, attempt: Attempt) -> Result<(), NoMemory>
    requires explained { IsExplained board.old.base attempt }
    requires next { attempt.txn ≡ next_number board.old.order attempt.shell }
    requires reads { AreNow board.old attempt.reads }
    ensures { OnOk result (board.new ≡ settled board.old attempt.shell attempt.txn) }
{
    match board.settle(alloc, attempt) {
        Ok(_) => Ok(()),
        Err(Settle::Conflict { .. }) => unreachable!(),
        Err(Settle::NoMemory(_)) => Err(NoMemory),
    }
}

/// Runs a shell's next transaction whole, as the next entry.
pub fn enter(
    alloc: Global,
    base: &Arc<Base>,
    board: &mut Board,
    shell: u32,
    txn: u32,
) -> Result<(), NoMemory>
    requires base { base_tree base.now.value ≡ board.old.base }
    requires next { txn ≡ next_number board.old.order shell }
    requires planned { txn < count_of board.old.base.plan shell }
    ensures { OnOk result (board.new ≡ settled board.old shell txn) }
{
    let attempt = attempt(alloc, base, board, shell, txn)?;
    settle(alloc, board, attempt)
}

/// Enters the transactions of an order in a log that has no entries.
fn enter_all(
    alloc: Global,
    base: &Arc<Base>,
    board: &mut Board,
    order: &Pairs,
) -> Result<(), NoMemory>
    requires begun { board.old ≡ started (base_tree base.now.value) }
    requires legal { IsLegal (base_tree base.now.value) (pair_turns order.now) }
    ensures { OnOk result (board.new ≡ logged (base_tree base.now.value) (pair_turns order.now)) }
{
    for pair in order.as_slice() {
        enter(alloc, base, board, pair.shell, pair.txn)?;
    }
    Ok(())
}

/// The log of an order: its transactions run whole, one after another, on the loaded filestore.
fn log_of(alloc: Global, base: &Arc<Base>, order: &Pairs) -> Result<Board, NoMemory>
    requires { IsLegal (base_tree base.now.value) (pair_turns order.now) }
    ensures { IfOk result (λ board. board ≡ logged (base_tree base.now.value) (pair_turns order.now)) }
{
    let mut board = Board::new(alloc, Arc::try_clone(base)?)?;
    match enter_all(alloc, base, &mut board, order) {
        Ok(()) => Ok(board),
        Err(fault) => {
            board.let_go();
            Err(fault)
        }
    }
}

/// The filestore that the transactions of an order leave, which needs to be legal.
pub fn replay(alloc: Global, base: &Arc<Base>, order: &Pairs) -> Result<Filestore, NoMemory>
    requires { IsLegal (base_tree base.now.value) (pair_turns order.now) }
    ensures { IfOk result (λ store. store.nodes
        ≡ state (base_tree base.now.value) (pair_turns order.now) (length (pair_turns order.now))) }
{
    let board = log_of(alloc, base, order)?;
    let store = board.store().copy(alloc);
    board.let_go();
    store
}
