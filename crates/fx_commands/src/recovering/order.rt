//! Whether the order that a journal spells is legal.
ghost use Rattle.std.specs.Prelude.{◌≡◌, List, IfOk, MatchOption, replicate};
ghost use Rattle.fx_spec.specs.Bases.{base_tree};
ghost use Rattle.fx_spec.specs.Order.{IsLegal};
ghost use Rattle.fx_spec.specs.Plans.{Turn};
ghost use Rattle.fx_durable.specs.Journal.{turn_of, turns_of};
ghost use Rattle.fx_audit.specs.Legal.{IsFirstIllegal};
ghost use Rattle.fx_commands.specs.Recoveries.Orders.{CountsNext, AreCounts};

use fx_base::NoMemory;
use fx_durable::Pairs;
use fx_machine::Pair;
use fx_spec::Base;
use std::alloc::Global;

/// For each shell the number of its transactions so far: none.
fn no_counts(alloc: Global, shells: u32) -> Result<Vec<u32>, NoMemory>
    ensures { IfOk result (λ counts. counts.items ≡ replicate shells 0) }
{
    let counts = vec![in alloc; 0u32; shells as usize]?;
    Ok(counts)
}

/// Counts a transaction, if it is its shell's next one and stands in the script.
fn add_next(base: &Base, counts: &mut [u32], pair: &Pair) -> bool
    ensures { (o : List Turn) → AreCounts (base_tree base.now) o counts.old
        → CountsNext (base_tree base.now) o (turn_of pair.now) counts.new result }
{
    let shell = pair.shell as usize;
    if shell >= counts.len() {
        return false;
    }
    let next = counts[shell];
    if pair.txn != next {
        return false;
    }
    if next >= base.plan.count(pair.shell) {
        return false;
    }
    counts[shell] = next + 1;
    true
}

/// The first transaction with which the order is not legal; none where it is.
pub(crate) fn first_illegal(
    alloc: Global,
    base: &Base,
    order: &Pairs,
) -> Result<Option<u64>, NoMemory>
    ensures { IfOk result (λ found. MatchOption found
        (IsLegal (base_tree base.now) (turns_of order.now))
        (IsFirstIllegal (base_tree base.now) (turns_of order.now))) }
{
    let mut counts = no_counts(alloc, base.plan.len())?;
    for (i, pair) in order.as_slice().iter().enumerate() {
        if !add_next(base, &mut counts, pair) {
            return Ok(Some(i as u64));
        }
    }
    Ok(None)
}
