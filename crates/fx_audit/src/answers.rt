//! The answers that a report tells, compared with those of its transactions.
ghost use Rattle.std.specs.Prelude.{◌≡◌, ◌<◌, ◌↔◌, IsTrue, IfOk, OnOk, MatchOption, length, slice_get, Some, None};
ghost use Rattle.fx_spec.specs.Bases.{base_tree};
ghost use Rattle.fx_spec.specs.Order.{IsLegal};
ghost use Rattle.fx_spec.specs.Plans.{count_of};
ghost use Rattle.fx_machine.specs.Machine.{next_number};
ghost use Rattle.fx_report.specs.Entries.{entry};
ghost use Rattle.fx_board.specs.Board.{settled, started};
ghost use Rattle.fx_audit.specs.Orders.{logged};
ghost use Rattle.fx_audit.specs.Verdicts.{turn_told, order_told, AllAnswered, IsFirstUnanswered};

use crate::replaying::enter;
use crate::same::is_same_end;
use crate::same_values::are_same_outputs;
use fx_base::NoMemory;
use fx_board::Board;
use fx_report::{PrintedEntries, PrintedEntry};
use fx_spec::Base;
use std::alloc::Global;
use std::sync::Arc;

/// Whether the log's entry of this number has the outputs and the end that are told.
fn tells(board: &Board, i: u64, told: &PrintedEntry) -> bool
    requires { slice_get board.now.order i ≡ Some (turn_told told.now) }
    ensures { IsTrue result
        ↔ (told.now ≡ entry board.now.base board.now.order i (turn_told told.now)) }
{
    match board.entry(i) {
        Some(entry) => {
            are_same_outputs(&entry.outputs, &told.outputs) && is_same_end(&entry.end, &told.end)
        }
        None => unreachable!(),
    }
}

/// Runs the next entry's transaction, and says whether it has the outputs and the end that are told.
fn is_answered(
    alloc: Global,
    base: &Arc<Base>,
    board: &mut Board,
    told: &PrintedEntry,
) -> Result<bool, NoMemory>
    requires base { base_tree base.now.value ≡ board.old.base }
    requires next { told.now.txn ≡ next_number board.old.order told.now.shell }
    requires planned { told.now.txn < count_of board.old.base.plan told.now.shell }
    ensures log { OnOk result (board.new ≡ settled board.old told.now.shell told.now.txn) }
    ensures answer { IfOk result (λ same. IsTrue same
        ↔ (told.now ≡ entry board.old.base board.old.order (length board.old.order)
        (turn_told told.now))) }
{
    let i = board.len();
    enter(alloc, base, board, told.shell, told.txn)?;
    Ok(tells(board, i, told))
}

/// The first entry that tells another answer than its transaction has; where there is none, the log has all entries.
pub(crate) fn first_unanswered(
    alloc: Global,
    base: &Arc<Base>,
    board: &mut Board,
    entries: &PrintedEntries,
) -> Result<Option<u64>, NoMemory>
    requires legal { IsLegal (base_tree base.now.value) (order_told entries.now) }
    requires begun { board.old ≡ started (base_tree base.now.value) }
    ensures log { IfOk result (λ found. found ≡ None
        → board.new ≡ logged (base_tree base.now.value) (order_told entries.now)) }
    ensures all { IfOk result (λ found. MatchOption found
        (AllAnswered (base_tree base.now.value) entries.now)
        (IsFirstUnanswered (base_tree base.now.value) entries.now)) }
{
    for (i, told) in entries.as_slice().iter().enumerate() {
        if !is_answered(alloc, base, board, told)? {
            return Ok(Some(i as u64));
        }
    }
    Ok(None)
}
