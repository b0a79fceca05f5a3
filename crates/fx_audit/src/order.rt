//! Whether the order that a report tells is legal, and complete.
ghost use Rattle.std.specs.Prelude.{◌≡◌, [], List, IfOk, MatchOption, length};
ghost use Rattle.fx_spec.specs.Bases.{base_tree};
ghost use Rattle.fx_spec.specs.Order.{IsComplete};
ghost use Rattle.fx_spec.specs.Plans.{Turn};
ghost use Rattle.fx_audit.specs.Legal.{IsFirstIllegal};
ghost use Rattle.fx_audit.specs.Places.{AddsNext, ArePlaces};
ghost use Rattle.fx_audit.specs.Verdicts.{turn_told, order_told, IsFirstMissing};

use crate::places::{Places, add, count};
use fx_base::NoMemory;
use fx_board::Pair;
use fx_report::{PrintedEntries, PrintedEntry};
use fx_spec::Base;

/// Adds an entry to the table, if its transaction is its shell's next one and stands in the script.
fn add_next(
    base: &Base,
    table: &mut [Places],
    place: u64,
    told: &PrintedEntry,
) -> Result<bool, NoMemory>
    requires { length table.old ≡ length (base_tree base.now).plan }
    ensures { IfOk result (λ is_next. (o : List Turn)
        → ArePlaces (base_tree base.now) o table.old → place ≡ length o
        → AddsNext (base_tree base.now) o (turn_told told.now) table.new is_next) }
{
    if u64::from(told.txn) != count(table, told.shell) {
        return Ok(false);
    }
    if told.txn >= base.plan.count(told.shell) {
        return Ok(false);
    }
    add(table, told.shell, place)?;
    Ok(true)
}

/// The first entry with which the order is not legal; where there is none, the table has the places of all entries.
pub(crate) fn first_illegal(
    base: &Base,
    entries: &PrintedEntries,
    table: &mut [Places],
) -> Result<Option<u64>, NoMemory>
    requires { ArePlaces (base_tree base.now) [] table.old }
    ensures { IfOk result (λ found. MatchOption found
        (ArePlaces (base_tree base.now) (order_told entries.now) table.new)
        (IsFirstIllegal (base_tree base.now) (order_told entries.now))) }
{
    for (i, told) in entries.as_slice().iter().enumerate() {
        if !add_next(base, table, i as u64, told)? {
            return Ok(Some(i as u64));
        }
    }
    Ok(None)
}

/// The first transaction that is in no entry, of the least shell that lacks one; none where the order is complete.
pub(crate) fn first_missing(base: &Base, table: &[Places]) -> Option<Pair>
    ensures { (o : List Turn) → ArePlaces (base_tree base.now) o table.now
        → MatchOption result (IsComplete (base_tree base.now) o)
        (λ pair. IsFirstMissing (base_tree base.now) o pair.shell pair.txn) }
{
    for shell in 0..base.plan.len() {
        let next = count(table, shell);
        if next < u64::from(base.plan.count(shell)) {
            return Some(Pair {
                shell,
                txn: next as u32,
            });
        }
    }
    None
}
