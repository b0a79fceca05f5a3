//! The reader of a report.
ghost use Rattle.std.specs.Prelude.{IfOk, IfErr};
ghost use Rattle.fx_read_report.specs.Form.{IsReportOf, ReportCause};
ghost use Rattle.fx_read_report.specs.Feeds.{FindsFeed};
ghost use Rattle.fx_read_report.specs.Stages.{TakesText, state_of};

use crate::lines::read_line;
use crate::reading::Reading;
use fx_base::NoMemory;
use fx_machine::Retries;
use fx_report::PrintedEntries;
use std::alloc::Global;

/// What a report tells: its entries, and its retries.
#[derive(Drop)]
pub struct Printed {
    pub entries: PrintedEntries,
    pub retries: Retries,
}

impl Printed {
    /// Lets go of what a report tells.
    pub fn let_go(self) {}
}

/// Why bytes were not read as a report.
#[derive(Clone, Copy, Debug, PartialEq, Eq)]
pub enum ReportFault {
    /// They are no report: the number of the first line that goes wrong, counted from 1.
    BadLine(u64),
    NoMemory,
}

impl From<NoMemory> for ReportFault {
    ghost use Rattle.std.specs.Prelude.{◌≡◌};
    ghost use Rattle.fx_read_report.specs.declared.report.ReportFault.TheVariants.{NoMemory};

    ghost from_gives = { λ _ fault. fault ≡ NoMemory };

    fn from(_: NoMemory) -> ReportFault {
        ReportFault::NoMemory
    }
}

/// The place of the first line feed.
#[tactic(auto, using(crate::proofs::Printing::none_yet, crate::proofs::Printing::none_more, crate::proofs::Printing::feed_at, crate::proofs::Printing::none_at_all))]
fn feed_in(bytes: &[u8]) -> Option<usize>
    ensures { FindsFeed bytes.now result }
{
    for i in 0..bytes.len() {
        if bytes[i] == b'\n' {
            return Some(i);
        }
    }
    None
}

/// Takes the line that the bytes are, if they are one that may follow. They lack the line feed.
fn take_text(
    alloc: Global,
    text: &[u8],
    out: &mut Vec<u8>,
    reading: &mut Reading,
) -> Result<bool, NoMemory>
    ensures { IfOk result (TakesText (state_of reading.old) text.now (state_of reading.new)) }
{
    match read_line(alloc, text, out)? {
        Some(line) => reading.take(alloc, line),
        None => Ok(false),
    }
}

/// Reads a report. Bytes have its form where they are the report of some entries and retries whose numbers fit their
/// types, whose paths are paths, and whose values are those that [`read_value`](crate::values::read_value) reads; these
/// lists are given. Otherwise the fault has the number of the first line such that the lines up to it begin no report,
/// where a line that lacks its line feed begins none, and one line more than there are counts where a report goes on.
pub fn read_report(alloc: Global, bytes: &[u8]) -> Result<Printed, ReportFault>
    ensures read { IfOk result (λ printed. IsReportOf bytes.now printed.entries printed.retries) }
    ensures cause { IfErr result (ReportCause bytes.now) }
{
    let mut reading = Reading::new(alloc);
    let mut out = Vec::new(alloc);
    let mut rest = bytes;
    let mut number = 1;
    'reading: while let Some(end) = feed_in(rest) {
        if !take_text(alloc, &rest[..end], &mut out, &mut reading)? {
            return Err(ReportFault::BadLine(number));
        }
        rest = &rest[end + 1..];
        number += 1;
    }
    if !rest.is_empty() {
        return Err(ReportFault::BadLine(number));
    }
    if !reading.is_ended() {
        return Err(ReportFault::BadLine(number));
    }
    let (entries, retries) = reading.into_lists(alloc)?;
    Ok(Printed { entries, retries })
}
