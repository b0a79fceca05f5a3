//! Whether the retries that a report tells can have been.
ghost use Rattle.std.specs.Prelude.{◌≡◌, ◌↔◌, IsTrue, MatchOption, map};
ghost use Rattle.fx_spec.specs.Order.{IsRetry, Precedes, RetriesOk};
ghost use Rattle.fx_machine.specs.Tried.{retry_tree};
ghost use Rattle.fx_audit.specs.Places.{ArePlaces};
ghost use Rattle.fx_audit.specs.Retries.{IsCause, IsNextRetry, MayFollow, last_tree};
ghost use Rattle.fx_audit.specs.Verdicts.{IsFirstUntrue};

use crate::places::{Places, place};
use fx_board::Board;
use fx_machine::{Retries, Retry};

/// Whether the retry's entry is another shell's and changes its path.
fn is_cause(board: &Board, retry: &Retry) -> bool
    ensures { IsTrue result ↔ IsCause board.now.base board.now.order (retry_tree retry.now) }
{
    match board.entry(retry.entry) {
        Some(entry) => entry.shell != retry.shell && entry.changed.has(&retry.path),
        None => false,
    }
}

/// Whether the retry can have been: its entry stands before its transaction, is another shell's and changes its path.
fn is_retry(board: &Board, table: &[Places], retry: &Retry) -> bool
    requires { ArePlaces board.now.base board.now.order table.now }
    ensures { IsTrue result ↔ IsRetry board.now.base board.now.order (retry_tree retry.now) }
{
    match place(table, retry.shell, retry.txn) {
        Some(place) => retry.entry < place && is_cause(board, retry),
        None => false,
    }
}

/// Whether a retry stands before another one, whatever is between them.
fn precedes(before: &Retry, after: &Retry) -> bool
    ensures { IsTrue result ↔ Precedes (retry_tree before.now) (retry_tree after.now) }
{
    if before.shell == after.shell {
        before.txn <= after.txn && before.entry < after.entry
    } else {
        before.shell < after.shell
    }
}

/// Whether a retry may stand behind the last one.
fn may_follow(last: Option<&Retry>, retry: &Retry) -> bool
    ensures { IsTrue result ↔ MayFollow (last_tree last.entry) (retry_tree retry.now) }
{
    match last {
        Some(last) => precedes(last, retry),
        None => true,
    }
}

/// Whether a retry can have been, and may stand behind the last one.
fn is_next_retry(board: &Board, table: &[Places], last: Option<&Retry>, retry: &Retry) -> bool
    requires { ArePlaces board.now.base board.now.order table.now }
    ensures { IsTrue result
        ↔ IsNextRetry board.now.base board.now.order (last_tree last.entry) (retry_tree retry.now) }
{
    may_follow(last, retry) && is_retry(board, table, retry)
}

/// The first retry with which the retries can't have been.
pub(crate) fn first_untrue(board: &Board, table: &[Places], retries: &Retries) -> Option<u64>
    requires { ArePlaces board.now.base board.now.order table.now }
    ensures { MatchOption result
        (RetriesOk board.now.base board.now.order (map retry_tree retries.now))
        (IsFirstUntrue board.now.base board.now.order retries.now) }
{
    let mut last = None;
    for (m, retry) in retries.as_slice().iter().enumerate() {
        if !is_next_retry(board, table, last, retry) {
            return Some(m as u64);
        }
        last = Some(retry);
    }
    None
}
