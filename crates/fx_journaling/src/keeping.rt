//! What an event adds to the journal.
ghost use Rattle.std.specs.Prelude.{◌≡◌, ◌≤◌, ◌↔◌, Some, None, IfSome, OnErr, length, option_map, slice_get};
ghost use Rattle.fx_board.specs.Board.{IsLog};
ghost use Rattle.fx_durable.specs.Journal.{turn_of};
ghost use Rattle.fx_journaling.specs.Keeping.{HoldsEntry, LosesEntry, AddsEntry, HoldsEvent, LosesEvent};
ghost use Rattle.fx_journaling.specs.Kept.{RestsWhileGood};
ghost use Rattle.fx_journaling.specs.Taken.{IsSettledEvent};

use fx_base::TXN_LIMIT;
use fx_board::{Board, Event, Pair};
use fx_durable::{Disk, DiskFailed, Journal};
use fx_sched::World;

/// Adds a pair to the journal. Nothing is added after an append that failed, nor to a full journal.
fn append<D: Disk>(journal: &mut Journal, disk: &mut D, pair: Pair) -> Result<(), DiskFailed>
    requires { RestsWhileGood journal.old (D.view disk.old) }
    ensures rests { RestsWhileGood journal.new (D.view disk.new) }
    ensures held { HoldsEntry (turn_of pair)
        journal.old journal.new (D.view disk.old) (D.view disk.new) result }
    ensures lost { LosesEntry (turn_of pair)
        journal.old (D.view disk.old) (D.view disk.new) result }
{
    if !journal.good() || journal.len() >= TXN_LIMIT {
        return Err(DiskFailed);
    }
    journal.append(disk, pair.shell, pair.txn)
}

/// The pair of an entry of the log.
fn pair_at(board: &Board, entry: u64) -> Option<Pair>
    ensures none { (result ≡ None) ↔ (length board.now.order ≤ entry) }
    ensures pair { IfSome result (λ pair. slice_get board.now.order entry ≡ Some (turn_of pair)) }
    ensures log { IsLog board.now }
{
    let _entries = board.len();
    match board.entry(entry) {
        Some(kept) => Some(Pair {
            shell: kept.shell,
            txn: kept.txn,
        }),
        None => None,
    }
}

/// The pair of an event's entry, if an attempt was settled.
fn settled_pair(world: &World, event: &Event) -> Option<Pair>
    ensures adds { AddsEntry event.now world.now (option_map turn_of result) }
    ensures settled { IfSome result (λ _. IsSettledEvent event.now) }
{
    match event {
        Event::Settled { shell: _, entry } => pair_at(world.board(), *entry),
        Event::Look {
            shell: _,
            path: _,
            position: _,
        } => None,
        Event::Conflict {
            shell: _,
            entry: _,
            path: _,
        } => None,
    }
}

/// Adds the pair of an attempt that was settled to the journal; another event adds nothing.
pub(crate) fn keep<D: Disk>(
    journal: &mut Journal,
    disk: &mut D,
    world: &World,
    event: &Event,
) -> Result<(), DiskFailed>
    requires { RestsWhileGood journal.old (D.view disk.old) }
    ensures rests { RestsWhileGood journal.new (D.view disk.new) }
    ensures held { HoldsEvent event.now world.now
        journal.old journal.new (D.view disk.old) (D.view disk.new) result }
    ensures lost { LosesEvent event.now world.now
        journal.old (D.view disk.old) (D.view disk.new) result }
    ensures settled { OnErr result (IsSettledEvent event.now) }
{
    match settled_pair(world, event) {
        None => Ok(()),
        Some(pair) => append(journal, disk, pair),
    }
}
