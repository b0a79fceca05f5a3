//! The verdict on a report.
ghost use Rattle.std.specs.Prelude.{◌≡◌, ◌↔◌, IfOk, List};
ghost use Rattle.fx_spec.specs.Bases.{base_tree};
ghost use Rattle.fx_board.specs.Board.{started};
ghost use Rattle.fx_report.specs.declared.printed.PrintedEntry.{PrintedEntry};
ghost use Rattle.fx_audit.specs.declared.verdict.Verdict.TheVariants as verdict;
ghost use Rattle.fx_audit.specs.Audits.{IsVerdictOn, IsTrueReport};
ghost use Rattle.fx_audit.specs.Places.{ArePlaces};
ghost use Rattle.fx_audit.specs.Verdicts.{order_told, AllAnswered, IsVerdict};

use crate::answers::first_unanswered;
use crate::order::{first_illegal, first_missing};
use crate::places::{Places, no_places};
use crate::retries::first_untrue;
use crate::verdict::Verdict;
use fx_base::NoMemory;
use fx_board::Board;
use fx_machine::Retries;
use fx_read_report::{ReportFault, read_report};
use fx_report::PrintedEntries;
use fx_spec::Base;
use std::alloc::Global;
use std::sync::Arc;

/// The verdict on a report whose entries are the log's, and tell its answers.
fn verdict_behind(board: &Board, table: &[Places], retries: &Retries) -> Verdict
    requires { ArePlaces board.now.base board.now.order table.now }
    ensures { (entries : List PrintedEntry) → order_told entries ≡ board.now.order
        → AllAnswered board.now.base entries
        → IsVerdict board.now.base entries retries.now result }
{
    match first_missing(board.base(), table) {
        Some(pair) => Verdict::Missing {
            shell: pair.shell,
            txn: pair.txn,
        },
        None => match first_untrue(board, table, retries) {
            Some(m) => Verdict::Retry(m),
            None => Verdict::Yes,
        },
    }
}

/// The verdict on what a report tells.
fn verdict_on(
    alloc: Global,
    base: &Arc<Base>,
    entries: &PrintedEntries,
    retries: &Retries,
) -> Result<Verdict, NoMemory>
    ensures { IfOk result (IsVerdict (base_tree base.now.value) entries.now retries.now) }
{
    let mut table = no_places(alloc, base.plan.len())?;
    if let Some(i) = first_illegal(base, entries, &mut table)? {
        return Ok(Verdict::Order(i));
    }
    let mut board = Board::new(alloc, Arc::try_clone(base)?)?;
    let verdict = verdict_over(alloc, base, &mut board, &table, entries, retries);
    board.let_go();
    verdict
}

/// The verdict on entries in a legal order, over a log that has none yet.
fn verdict_over(
    alloc: Global,
    base: &Arc<Base>,
    board: &mut Board,
    table: &[Places],
    entries: &PrintedEntries,
    retries: &Retries,
) -> Result<Verdict, NoMemory>
    requires begun { board.old ≡ started (base_tree base.now.value) }
    requires places { ArePlaces (base_tree base.now.value) (order_told entries.now) table.now }
    ensures { IfOk result (IsVerdict (base_tree base.now.value) entries.now retries.now) }
{
    match first_unanswered(alloc, base, board, entries)? {
        Some(i) => Ok(Verdict::Answer(i)),
        None => Ok(verdict_behind(board, table, retries)),
    }
}

/// The verdict on bytes as a report of a run of this base: the first of their faults.
fn verdict_of(alloc: Global, base: &Arc<Base>, bytes: &[u8]) -> Result<Verdict, NoMemory>
    ensures { IfOk result (IsVerdictOn (base_tree base.now.value) bytes.now) }
{
    match read_report(alloc, bytes) {
        Ok(printed) => {
            let verdict = verdict_on(alloc, base, &printed.entries, &printed.retries);
            printed.let_go();
            verdict
        }
        Err(ReportFault::BadLine(number)) => Ok(Verdict::BadLine(number)),
        Err(ReportFault::NoMemory) => Err(NoMemory),
    }
}

/// The verdict on bytes as a report of a run of this base: the first of their faults. They have none exactly where they are
/// the report of a complete order and of retries that this order can have had.
pub fn audit(alloc: Global, base: Arc<Base>, bytes: &[u8]) -> Result<Verdict, NoMemory>
    ensures verdict { IfOk result (IsVerdictOn (base_tree base.value) bytes.now) }
    ensures exact { IfOk result (λ v. (v ≡ verdict.Yes)
        ↔ IsTrueReport (base_tree base.value) bytes.now) }
{
    let verdict = verdict_of(alloc, &base, bytes);
    Base::let_go(base);
    verdict
}
