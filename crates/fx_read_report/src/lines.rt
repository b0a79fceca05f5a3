//! The lines of a report, one by one.
ghost use Rattle.std.specs.Prelude.{◌≡◌, ◌++◌, IfOk, IfSome, OnOk, bytes_eq, slice_index};
ghost use Rattle.std.specs.Option.{option_map};
ghost use Rattle.fx_read_report.specs.Limits.{strict};
ghost use Rattle.fx_read_report.specs.Lines.{FindsLine, IsLine, held_line, line_text};
ghost use Rattle.fx_read_report.specs.Reads.{entries_at, entry_at, final_at, head_at, only_line, print_at, retries_at, retry_at};
ghost use Rattle.fx_read_report.specs.Kinds.{kind_by, kind_of};

use crate::numbers::after;
use crate::parts::{end, field, last_field, quoted_path, small_field};
use crate::values::{VALUE_LEVELS, read_value};
use fx_base::{NoMemory, add_bytes};
use fx_expr::Value;
use fx_machine::Retry;
use fx_report::{add_entry_words, add_field, add_print_words, add_retry_words};
use fx_spec::End;
use std::alloc::Global;

/// A line of a report.
#[derive(Drop)]
pub(crate) enum Line {
    Head,
    Entries(u64),
    Entry {
        number: u64,
        shell: u32,
        txn: u32,
        end: End,
    },
    Print(Value),
    Retries(u64),
    Retry(Retry),
    Final,
}

/// The kinds of lines, which two of their bytes tell.
#[derive(Clone, Copy)]
pub(crate) enum Kind {
    Head,
    Entries,
    Entry,
    Print,
    Retries,
    Retry,
    Final,
}

/// The byte at a place, or 0.
fn byte_at(text: &[u8], place: usize) -> u8
    ensures { result ≡ slice_index text.now place }
{
    if place < text.len() { text[place] } else { 0 }
}

fn kind_by(first: u8, fifth: u8) -> Kind
    ensures { result ≡ kind_by first fifth }
{
    if first == b'f' {
        return Kind::Head;
    }
    if first == b'p' {
        return Kind::Print;
    }
    if first == b'r' {
        if fifth == b'y' {
            return Kind::Retry;
        }
        return Kind::Retries;
    }
    if fifth == b'y' {
        return Kind::Entry;
    }
    if fifth == b'i' {
        return Kind::Entries;
    }
    Kind::Final
}

/// The kind that a line must have, if it is one.
#[tactic(auto, unfolding(crate::specs::Kinds::kind_of))]
fn kind_of(text: &[u8]) -> Kind
    ensures { result ≡ kind_of text.now }
{
    kind_by(byte_at(text, 0), byte_at(text, 4))
}

#[tactic(auto, unfolding(crate::specs::Reads::head_at))]
fn head_line(text: &[u8]) -> Option<Line>
    ensures read { option_map held_line result ≡ head_at text.now }
    ensures fit { IfSome result (λ line. IsLine (held_line line)) }
{
    if text == b"forest report 1".as_slice() {
        return Some(Line::Head);
    }
    None
}

#[tactic(auto, unfolding(crate::specs::Reads::entries_at))]
fn entries_line(text: &[u8]) -> Option<Line>
    ensures read { option_map held_line result ≡ entries_at text.now }
    ensures fit { IfSome result (λ line. IsLine (held_line line)) }
{
    match last_field(text, b"entries ") {
        Some(number) => Some(Line::Entries(number)),
        None => None,
    }
}

#[tactic(auto, unfolding(crate::specs::Reads::entry_at))]
fn entry_line(alloc: Global, text: &[u8]) -> Result<Option<Line>, NoMemory>
    ensures read { IfOk result (λ found. option_map held_line found ≡ entry_at strict text.now) }
    ensures fit { IfOk result (λ found. IfSome found (λ line. IsLine (held_line line))) }
{
    let Some((number, rest)) = field(text, b"entry ") else {
        return Ok(None);
    };
    let Some((shell, rest)) = small_field(rest, b" shell ") else {
        return Ok(None);
    };
    let Some((txn, rest)) = small_field(rest, b" txn ") else {
        return Ok(None);
    };
    let Some(rest) = after(rest, b" ") else {
        return Ok(None);
    };
    match end(alloc, rest)? {
        Some(end) => Ok(Some(Line::Entry {
            number,
            shell,
            txn,
            end,
        })),
        None => Ok(None),
    }
}

#[tactic(auto, unfolding(crate::specs::Reads::print_at))]
fn print_line(alloc: Global, text: &[u8]) -> Result<Option<Line>, NoMemory>
    ensures read { IfOk result
        (λ found. option_map held_line found ≡ print_at strict VALUE_LEVELS text.now) }
    ensures fit { IfOk result (λ found. IfSome found (λ line. IsLine (held_line line))) }
{
    let Some(rest) = after(text, b"print ") else {
        return Ok(None);
    };
    match read_value(alloc, rest)? {
        Some(value) => Ok(Some(Line::Print(value))),
        None => Ok(None),
    }
}

#[tactic(auto, unfolding(crate::specs::Reads::retries_at))]
fn retries_line(text: &[u8]) -> Option<Line>
    ensures read { option_map held_line result ≡ retries_at text.now }
    ensures fit { IfSome result (λ line. IsLine (held_line line)) }
{
    match last_field(text, b"retries ") {
        Some(number) => Some(Line::Retries(number)),
        None => None,
    }
}

#[tactic(auto, unfolding(crate::specs::Reads::retry_at))]
fn retry_line(alloc: Global, text: &[u8]) -> Result<Option<Line>, NoMemory>
    ensures read { IfOk result (λ found. option_map held_line found ≡ retry_at strict text.now) }
    ensures fit { IfOk result (λ found. IfSome found (λ line. IsLine (held_line line))) }
{
    let Some((shell, rest)) = small_field(text, b"retry shell ") else {
        return Ok(None);
    };
    let Some((txn, rest)) = small_field(rest, b" txn ") else {
        return Ok(None);
    };
    let Some((entry, rest)) = field(rest, b" entry ") else {
        return Ok(None);
    };
    let Some(rest) = after(rest, b" path ") else {
        return Ok(None);
    };
    match quoted_path(alloc, rest)? {
        Some(path) => Ok(Some(Line::Retry(Retry {
            shell,
            txn,
            entry,
            path,
        }))),
        None => Ok(None),
    }
}

#[tactic(auto, unfolding(crate::specs::Reads::final_at))]
fn final_line(text: &[u8]) -> Option<Line>
    ensures read { option_map held_line result ≡ final_at text.now }
    ensures fit { IfSome result (λ line. IsLine (held_line line)) }
{
    if text == b"end".as_slice() {
        return Some(Line::Final);
    }
    None
}

/// The only line that the bytes can be.
fn line_in(alloc: Global, text: &[u8]) -> Result<Option<Line>, NoMemory>
    ensures read { IfOk result
        (λ found. option_map held_line found ≡ only_line strict VALUE_LEVELS text.now) }
    ensures fit { IfOk result (λ found. IfSome found (λ line. IsLine (held_line line))) }
{
    match kind_of(text) {
        Kind::Head => Ok(head_line(text)),
        Kind::Entries => Ok(entries_line(text)),
        Kind::Entry => entry_line(alloc, text),
        Kind::Print => print_line(alloc, text),
        Kind::Retries => Ok(retries_line(text)),
        Kind::Retry => retry_line(alloc, text),
        Kind::Final => Ok(final_line(text)),
    }
}

/// Adds a line, without its line feed.
fn add_line(out: &mut Vec<u8>, line: &Line) -> Result<(), NoMemory>
    ensures { OnOk result (out.new.items ≡ out.old.items ++ line_text (held_line line.now)) }
{
    match line {
        Line::Head => add_bytes(out, b"forest report 1"),
        Line::Entries(number) => add_field(out, b"entries ", *number),
        Line::Entry {
            number,
            shell,
            txn,
            end,
        } => add_entry_words(out, *number, *shell, *txn, end),
        Line::Print(value) => add_print_words(out, value),
        Line::Retries(number) => add_field(out, b"retries ", *number),
        Line::Retry(retry) => add_retry_words(out, retry),
        Line::Final => add_bytes(out, b"end"),
    }
}

/// Whether a line, printed, is these bytes.
fn is_printed(out: &mut Vec<u8>, line: &Line, text: &[u8]) -> Result<bool, NoMemory>
    ensures { IfOk result (λ same. same ≡ bytes_eq (line_text (held_line line.now)) text.now) }
{
    out.clear();
    add_line(out, line)?;
    Ok(out.as_slice() == text)
}

/// The line that the bytes are: `None` where they are no line of a report. They lack the line feed. What is read is
/// printed again, behind `out`, and compared.
pub(crate) fn read_line(
    alloc: Global,
    text: &[u8],
    out: &mut Vec<u8>,
) -> Result<Option<Line>, NoMemory>
    ensures { IfOk result (λ found. FindsLine text.now (option_map held_line found)) }
{
    let Some(line) = line_in(alloc, text)? else {
        return Ok(None);
    };
    if !is_printed(out, &line, text)? {
        return Ok(None);
    }
    Ok(Some(line))
}
