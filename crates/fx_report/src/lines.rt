ghost use Rattle.std.specs.Prelude.{◌≡◌, ◌≤◌, ◌++◌, OnOk, IfOk, IfSome, codes, drop, length};
ghost use Rattle.std.specs.List.{flat_map};
ghost use Rattle.fx_expr.specs.Faults.{fault_text};
ghost use Rattle.fx_expr.specs.Views.{tree_of};
ghost use Rattle.fx_report.specs.Entries as whole;
ghost use Rattle.fx_report.specs.Events as told;
ghost use Rattle.fx_report.specs.Report as report;
ghost use Rattle.fx_report.specs.declared.pieces.TheConstants.{PIECE};

use crate::pieces::{PIECE, write_bytes, write_field, write_path};
use crate::printed::{PrintedEntries, PrintedEntry};
use crate::quotes::{add_number, add_quoted_path};
use crate::values::add_value;
use fx_base::{NoMemory, add_bytes};
use fx_board::{Board, Entry, Event, Retries, Retry};
use fx_expr::{ExprFault, Value, Values};
use fx_spec::{End, Refusal};
use fx_store::{LongText, Path};
use std::alloc::Global;

/// Adds the words and the number after them.
#[tactic(auto, unfolding(crate::specs::Report::field))]
pub fn add_field(out: &mut Vec<u8>, words: &[u8], number: u64) -> Result<(), NoMemory>
    ensures { OnOk result (out.new.items ≡ out.old.items ++ report.field words.now number) }
{
    add_bytes(out, words)?;
    add_number(out, number)
}

/// Adds a line of words and a number.
pub(crate) fn add_count_line(out: &mut Vec<u8>, words: &[u8], count: u64) -> Result<(), NoMemory>
    ensures { OnOk result
        (out.new.items ≡ out.old.items ++ report.line (report.field words.now count)) }
{
    add_field(out, words, count)?;
    add_bytes(out, b"\n")
}

fn add_fault(out: &mut Vec<u8>, fault: &ExprFault) -> Result<(), NoMemory>
    ensures { OnOk result (out.new.items ≡ out.old.items ++ fault_text fault.now) }
{
    match fault {
        ExprFault::TooLong => add_bytes(out, b"TooLong"),
        ExprFault::Overflow => add_bytes(out, b"Overflow"),
        ExprFault::NotNumber => add_bytes(out, b"NotNumber"),
    }
}

fn add_refusal(out: &mut Vec<u8>, refusal: &Refusal) -> Result<(), NoMemory>
    ensures { OnOk result (out.new.items ≡ out.old.items ++ report.refusal_text refusal.now) }
{
    match refusal {
        Refusal::NoStep => add_bytes(out, b"NoStep"),
        Refusal::NoElement => add_bytes(out, b"NoElement"),
        Refusal::NoPlace => add_bytes(out, b"NoPlace"),
        Refusal::Lacks => add_bytes(out, b"Lacks"),
        Refusal::WrongForm => add_bytes(out, b"WrongForm"),
        Refusal::Blocked(path) => {
            add_bytes(out, b"Blocked ")?;
            add_quoted_path(out, path)
        }
        Refusal::TooDeep => add_bytes(out, b"TooDeep"),
        Refusal::BadName => add_bytes(out, b"BadName"),
        Refusal::NoDefault => add_bytes(out, b"NoDefault"),
        Refusal::Expr(fault) => {
            add_bytes(out, b"Expr ")?;
            add_fault(out, fault)
        }
        Refusal::Absent => add_bytes(out, b"Absent"),
        Refusal::Exists => add_bytes(out, b"Exists"),
        Refusal::TooUnfolded => add_bytes(out, b"TooUnfolded"),
    }
}

#[tactic(auto, unfolding(crate::specs::Report::field))]
fn add_stop(out: &mut Vec<u8>, command: u32, refusal: &Refusal) -> Result<(), NoMemory>
    ensures { OnOk result
        (out.new.items ≡ out.old.items ++ report.end_text (End.Stopped command refusal.now)) }
{
    let mut piece = [0; PIECE];
    let back = write_bytes(&mut piece, b" ", PIECE);
    let number = write_field(&mut piece, b" ", u64::from(refusal.number()), back);
    let start = write_field(&mut piece, b"stopped ", u64::from(command), number);
    add_bytes(out, &piece[start..])?;
    add_refusal(out, refusal)
}

/// Adds how a transaction ended.
pub fn add_end(out: &mut Vec<u8>, end: &End) -> Result<(), NoMemory>
    ensures { OnOk result (out.new.items ≡ out.old.items ++ report.end_text end.now) }
{
    match end {
        End::Done => add_bytes(out, b"done"),
        End::Stopped { command, refusal } => add_stop(out, *command, refusal),
        End::Aborted => add_bytes(out, b"aborted"),
    }
}

/// Adds the line of an entry, without its line feed.
#[tactic(auto, unfolding(crate::specs::Report::field))]
pub fn add_entry_words(
    out: &mut Vec<u8>,
    number: u64,
    shell: u32,
    txn: u32,
    end: &End,
) -> Result<(), NoMemory>
    ensures { OnOk result
        (out.new.items ≡ out.old.items ++ report.entry_words number shell txn end.now) }
{
    let mut piece = [0; PIECE];
    let back = write_bytes(&mut piece, b" ", PIECE);
    let of_txn = write_field(&mut piece, b" txn ", u64::from(txn), back);
    let of_shell = write_field(&mut piece, b" shell ", u64::from(shell), of_txn);
    let start = write_field(&mut piece, b"entry ", number, of_shell);
    add_bytes(out, &piece[start..])?;
    add_end(out, end)
}

#[tactic(auto, unfolding(crate::specs::Report::entry_line))]
fn add_entry_line(
    out: &mut Vec<u8>,
    number: u64,
    shell: u32,
    txn: u32,
    end: &End,
) -> Result<(), NoMemory>
    ensures { OnOk result
        (out.new.items ≡ out.old.items ++ report.entry_line number shell txn end.now) }
{
    add_entry_words(out, number, shell, txn, end)?;
    add_bytes(out, b"\n")
}

/// Adds the line of an output, without its line feed.
pub fn add_print_words(out: &mut Vec<u8>, value: &Value) -> Result<(), NoMemory>
    ensures { OnOk result
        (out.new.items ≡ out.old.items ++ report.print_words (tree_of value.now)) }
{
    add_bytes(out, b"print ")?;
    add_value(out, value)
}

#[tactic(auto, unfolding(crate::specs::Report::print_line))]
fn add_print_line(out: &mut Vec<u8>, value: &Value) -> Result<(), NoMemory>
    ensures { OnOk result (out.new.items ≡ out.old.items ++ report.print_line (tree_of value.now)) }
{
    add_print_words(out, value)?;
    add_bytes(out, b"\n")
}

pub(crate) fn add_print_lines(out: &mut Vec<u8>, outputs: &Values) -> Result<(), NoMemory>
    ensures { OnOk result
        (out.new.items ≡ out.old.items ++ flat_map report.print_line outputs.now) }
{
    for value in outputs.iter() {
        add_print_line(out, value)?;
    }
    Ok(())
}

#[tactic(auto, unfolding(crate::specs::Report::entry_text))]
fn add_entry(out: &mut Vec<u8>, number: u64, entry: &PrintedEntry) -> Result<(), NoMemory>
    ensures { OnOk result (out.new.items ≡ out.old.items ++ report.entry_text number entry.now) }
{
    add_entry_line(out, number, entry.shell, entry.txn, &entry.end)?;
    add_print_lines(out, &entry.outputs)
}

#[tactic(auto, unfolding(crate::specs::Report::entry_text))]
fn add_settled(out: &mut Vec<u8>, number: u64, entry: &Entry) -> Result<(), NoMemory>
    ensures { OnOk result
        (out.new.items ≡ out.old.items ++ report.entry_text number (whole.printed entry.now)) }
{
    add_entry_line(out, number, entry.shell, entry.txn, &entry.end)?;
    add_print_lines(out, &entry.outputs)
}

fn add_log(out: &mut Vec<u8>, board: &Board) -> Result<(), NoMemory>
    ensures { OnOk result (out.new.items ≡ out.old.items
        ++ report.entries_text 0 (whole.entries_of board.now.base board.now.order)) }
{
    for i in 0..board.len() {
        if let Some(entry) = board.entry(i) {
            add_settled(out, i, entry)?;
        }
    }
    Ok(())
}

#[tactic(auto, using(std::proofs::lemmas::List::drop_more, std::proofs::lemmas::List::drop_all))]
fn add_entries(out: &mut Vec<u8>, entries: &PrintedEntries) -> Result<(), NoMemory>
    ensures { OnOk result (out.new.items ≡ out.old.items ++ report.entries_text 0 entries.now) }
{
    for (i, entry) in entries.as_slice().iter().enumerate() {
        add_entry(out, i as u64, entry)?;
    }
    Ok(())
}

/// Writes the line of a retry at the end of a piece, and tells where it starts: `None` where its path is not written.
fn write_retry(piece: &mut [u8; PIECE], retry: &Retry) -> Option<usize>
    ensures { IfSome result (λ start. (start ≤ PIECE)
        × (drop start piece.new ≡ report.retry_words retry.now)) }
{
    let back = write_bytes(piece, b"\"", PIECE);
    let names = write_path(piece, &retry.path, back)?;
    let quote = write_bytes(piece, b" path \"", names);
    let entry = write_field(piece, b" entry ", retry.entry, quote);
    let txn = write_field(piece, b" txn ", u64::from(retry.txn), entry);
    Some(write_field(piece, b"retry shell ", u64::from(retry.shell), txn))
}

/// Adds the line of a retry whose path is not written in a piece.
fn add_long_retry(out: &mut Vec<u8>, retry: &Retry) -> Result<(), NoMemory>
    ensures { OnOk result (out.new.items ≡ out.old.items ++ report.retry_words retry.now) }
{
    add_field(out, b"retry shell ", u64::from(retry.shell))?;
    add_field(out, b" txn ", u64::from(retry.txn))?;
    add_field(out, b" entry ", retry.entry)?;
    add_bytes(out, b" path ")?;
    add_quoted_path(out, &retry.path)
}

/// Adds the line of a retry, without its line feed.
pub fn add_retry_words(out: &mut Vec<u8>, retry: &Retry) -> Result<(), NoMemory>
    ensures { OnOk result (out.new.items ≡ out.old.items ++ report.retry_words retry.now) }
{
    let mut piece = [0; PIECE];
    if let Some(start) = write_retry(&mut piece, retry) {
        return add_bytes(out, &piece[start..]);
    }
    add_long_retry(out, retry)
}

#[tactic(auto, unfolding(crate::specs::Report::retry_line))]
fn add_retry(out: &mut Vec<u8>, retry: &Retry) -> Result<(), NoMemory>
    ensures { OnOk result (out.new.items ≡ out.old.items ++ report.retry_line retry.now) }
{
    add_retry_words(out, retry)?;
    add_bytes(out, b"\n")
}

fn add_retries(out: &mut Vec<u8>, retries: &Retries) -> Result<(), NoMemory>
    ensures { OnOk result
        (out.new.items ≡ out.old.items ++ flat_map report.retry_line retries.now) }
{
    for retry in retries {
        add_retry(out, retry)?;
    }
    Ok(())
}

/// Adds what a report begins with.
fn add_head(out: &mut Vec<u8>, entries: u64) -> Result<(), NoMemory>
    ensures { OnOk result (out.new.items ≡ out.old.items ++ report.line (codes "forest report 1")
        ++ report.line (report.field (codes "entries ") entries)) }
{
    add_bytes(out, b"forest report 1\n")?;
    add_count_line(out, b"entries ", entries)
}

/// Adds what a report has after its entries.
fn add_tail(out: &mut Vec<u8>, retries: &Retries) -> Result<(), NoMemory>
    ensures { OnOk result (out.new.items ≡ out.old.items
        ++ report.line (report.field (codes "retries ") (length retries.now))
        ++ flat_map report.retry_line retries.now ++ report.line (codes "end")) }
{
    add_count_line(out, b"retries ", retries.len() as u64)?;
    add_retries(out, retries)?;
    add_bytes(out, b"end\n")
}

/// The report of entries and retries: a head, each entry with its outputs, each retry, and a last line.
#[tactic(auto, unfolding(crate::specs::Report::report_text))]
pub fn printed_report(
    alloc: Global,
    entries: &PrintedEntries,
    retries: &Retries,
) -> Result<LongText, NoMemory>
    ensures { IfOk result (λ text. text ≡ report.report_text entries.now retries.now) }
{
    let mut out = Vec::new(alloc);
    add_head(&mut out, entries.len() as u64)?;
    add_entries(&mut out, entries)?;
    add_tail(&mut out, retries)?;
    Ok(LongText::from_vec(out))
}

/// Adds the report of a log and its retries, whose entries are its transactions, run whole, one after another.
pub fn add_report(out: &mut Vec<u8>, board: &Board, retries: &Retries) -> Result<(), NoMemory>
    ensures { OnOk result (out.new.items
        ≡ out.old.items ++ whole.report board.now.base board.now.order retries.now) }
{
    add_head(out, board.len())?;
    add_log(out, board)?;
    add_tail(out, retries)?;
    Ok(())
}

/// The report of a log and its retries.
pub fn report(alloc: Global, board: &Board, retries: &Retries) -> Result<LongText, NoMemory>
    ensures { IfOk result (λ text. text ≡ whole.report board.now.base board.now.order retries.now) }
{
    let mut out = Vec::new(alloc);
    add_report(&mut out, board, retries)?;
    Ok(LongText::from_vec(out))
}

/// Writes the line of a look at the end of a piece, and tells where it starts: `None` where its path is not written.
fn write_look(piece: &mut [u8; PIECE], shell: u32, path: &Path, position: u64) -> Option<usize>
    ensures { IfSome result (λ start. (start ≤ PIECE)
        × (drop start piece.new ≡ told.look_line shell path.now position)) }
{
    let line_feed = write_bytes(piece, b"\n", PIECE);
    let back = write_field(piece, b"\" ", position, line_feed);
    let names = write_path(piece, path, back)?;
    let quote = write_bytes(piece, b" \"", names);
    Some(write_field(piece, b"look ", u64::from(shell), quote))
}

/// Adds the line of a look whose path is not written in a piece.
#[tactic(auto, unfolding(crate::specs::Events::look_line))]
fn add_long_look(out: &mut Vec<u8>, shell: u32, path: &Path, position: u64) -> Result<(), NoMemory>
    ensures { OnOk result
        (out.new.items ≡ out.old.items ++ told.look_line shell path.now position) }
{
    add_field(out, b"look ", u64::from(shell))?;
    add_bytes(out, b" ")?;
    add_quoted_path(out, path)?;
    add_field(out, b" ", position)?;
    add_bytes(out, b"\n")
}

fn add_look(out: &mut Vec<u8>, shell: u32, path: &Path, position: u64) -> Result<(), NoMemory>
    ensures { OnOk result
        (out.new.items ≡ out.old.items ++ told.look_line shell path.now position) }
{
    let mut piece = [0; PIECE];
    if let Some(start) = write_look(&mut piece, shell, path, position) {
        return add_bytes(out, &piece[start..]);
    }
    add_long_look(out, shell, path, position)
}

#[tactic(auto, unfolding(crate::specs::Events::settled_line))]
fn add_settling(out: &mut Vec<u8>, shell: u32, entry: u64) -> Result<(), NoMemory>
    ensures { OnOk result (out.new.items ≡ out.old.items ++ told.settled_line shell entry) }
{
    let mut piece = [0; PIECE];
    let back = write_bytes(&mut piece, b"\n", PIECE);
    let number = write_field(&mut piece, b" ", entry, back);
    let start = write_field(&mut piece, b"settled ", u64::from(shell), number);
    add_bytes(out, &piece[start..])
}

/// Writes the line of a conflict at the end of a piece, and tells where it starts: `None` where its path is not written.
fn write_conflict(piece: &mut [u8; PIECE], shell: u32, entry: u64, path: &Path) -> Option<usize>
    ensures { IfSome result (λ start. (start ≤ PIECE)
        × (drop start piece.new ≡ told.conflict_line shell entry path.now)) }
{
    let back = write_bytes(piece, b"\"\n", PIECE);
    let names = write_path(piece, path, back)?;
    let quote = write_bytes(piece, b" \"", names);
    let number = write_field(piece, b" ", entry, quote);
    Some(write_field(piece, b"conflict ", u64::from(shell), number))
}

/// Adds the line of a conflict whose path is not written in a piece.
#[tactic(auto, unfolding(crate::specs::Events::conflict_line))]
fn add_long_conflict(out: &mut Vec<u8>, shell: u32, entry: u64, path: &Path) -> Result<(), NoMemory>
    ensures { OnOk result
        (out.new.items ≡ out.old.items ++ told.conflict_line shell entry path.now) }
{
    add_field(out, b"conflict ", u64::from(shell))?;
    add_field(out, b" ", entry)?;
    add_bytes(out, b" ")?;
    add_quoted_path(out, path)?;
    add_bytes(out, b"\n")
}

fn add_conflict(out: &mut Vec<u8>, shell: u32, entry: u64, path: &Path) -> Result<(), NoMemory>
    ensures { OnOk result
        (out.new.items ≡ out.old.items ++ told.conflict_line shell entry path.now) }
{
    let mut piece = [0; PIECE];
    if let Some(start) = write_conflict(&mut piece, shell, entry, path) {
        return add_bytes(out, &piece[start..]);
    }
    add_long_conflict(out, shell, entry, path)
}

/// Adds the line of an event.
pub fn add_event_line(out: &mut Vec<u8>, event: &Event) -> Result<(), NoMemory>
    ensures { OnOk result (out.new.items ≡ out.old.items ++ told.event_line event.now) }
{
    match event {
        Event::Look {
            shell,
            path,
            position,
        } => add_look(out, *shell, path, *position),
        Event::Settled { shell, entry } => add_settling(out, *shell, *entry),
        Event::Conflict { shell, entry, path } => add_conflict(out, *shell, *entry, path),
    }
}

/// The line that shows a value.
#[tactic(auto, unfolding(crate::specs::Report::value_line))]
pub fn value_line(alloc: Global, value: &Value) -> Result<LongText, NoMemory>
    ensures { IfOk result (λ text. text ≡ report.value_line (tree_of value.now)) }
{
    let mut out = Vec::new(alloc);
    add_bytes(&mut out, b"value ")?;
    add_value(&mut out, value)?;
    add_bytes(&mut out, b"\n")?;
    Ok(LongText::from_vec(out))
}
