//! Reports and events that are made of parts, in place of a run.

use crate::values::text;
use fx_base::NoMemory;
use fx_board::{Event, Events};
use fx_expr::{ExprFault, Value, Values};
use fx_report::{PrintedEntries, PrintedEntry, Retries, Retry, add_event_line, printed_report};
use fx_spec::{End, Refusal};
use fx_store::Path;
use std::alloc::Global;
use test_lines::{number, split_word, tell_bytes, unescaped};

/// The parts of a case.
#[derive(Drop)]
pub struct Parts {
    entries: PrintedEntries,
    retries: Retries,
    events: Events,
}

impl Parts {
    /// No parts.
    pub fn new(alloc: Global) -> Parts {
        Parts {
            entries: PrintedEntries::new(alloc),
            retries: Retries::new(alloc),
            events: Events::new(alloc),
        }
    }
}

/// A part that a line adds, or what is told of them.
#[derive(Clone, Copy)]
pub enum Form {
    /// An entry that is done, with what it prints.
    Done,
    Aborted,
    /// An entry that is stopped at a command by a refusal.
    Stopped,
    Retry,
    Look,
    Settled,
    Conflict,
    Report,
    Events,
}

/// The numbers in front of the rest of a line.
#[derive(Clone, Copy)]
pub struct Numbers {
    pub shell: u32,
    /// Of a transaction, a position or an entry.
    pub second: u32,
}

/// The path of a text; the root where it is none.
fn path_of(alloc: Global, text: &str) -> Result<Path, NoMemory> {
    let bytes = unescaped(alloc, text)?;
    match Path::read(alloc, &bytes) {
        Ok(path) => Ok(path),
        Err(_) => Ok(Path::root(alloc)),
    }
}

/// What is printed: one text, or nothing where it is empty.
fn outputs_of(alloc: Global, output: &str) -> Result<Values, NoMemory> {
    if output.is_empty() {
        return Ok(Values::new(alloc));
    }
    let value = Value::Str(text(alloc, output)?);
    let mut outputs = Values::new(alloc);
    outputs.add(alloc, value)?;
    Ok(outputs)
}

fn add_entry(
    alloc: Global,
    entries: &mut PrintedEntries,
    numbers: Numbers,
    outputs: Values,
    end: End,
) -> Result<(), NoMemory> {
    let entry = PrintedEntry {
        shell: numbers.shell,
        txn: numbers.second,
        outputs,
        end,
    };
    entries.push(entry)
}

fn add_done(
    alloc: Global,
    entries: &mut PrintedEntries,
    numbers: Numbers,
    output: &str,
) -> Result<(), NoMemory> {
    let outputs = outputs_of(alloc, output)?;
    add_entry(alloc, entries, numbers, outputs, End::Done)
}

fn fault_of(name: &str) -> ExprFault {
    match name {
        "TooLong" => ExprFault::TooLong,
        "Overflow" => ExprFault::Overflow,
        _ => ExprFault::NotNumber,
    }
}

/// The refusal of this name, of those that hold nothing.
fn plain_refusal(name: &str) -> Refusal {
    match name {
        "NoStep" => Refusal::NoStep,
        "NoElement" => Refusal::NoElement,
        "NoPlace" => Refusal::NoPlace,
        "Lacks" => Refusal::Lacks,
        "WrongForm" => Refusal::WrongForm,
        "TooDeep" => Refusal::TooDeep,
        "BadName" => Refusal::BadName,
        "NoDefault" => Refusal::NoDefault,
        "Absent" => Refusal::Absent,
        "Exists" => Refusal::Exists,
        _ => Refusal::TooUnfolded,
    }
}

/// The refusal of this name, with what it holds behind a space.
fn refusal_of(alloc: Global, refusal: &str) -> Result<Refusal, NoMemory> {
    match refusal.split_once(' ') {
        None => Ok(plain_refusal(refusal)),
        Some(("Expr", fault)) => Ok(Refusal::Expr(fault_of(fault))),
        Some((_, path)) => Ok(Refusal::Blocked(path_of(alloc, path)?)),
    }
}

fn add_stopped(
    alloc: Global,
    entries: &mut PrintedEntries,
    numbers: Numbers,
    text: &str,
) -> Result<(), NoMemory> {
    let (command, refusal) = split_word(text);
    let end = End::Stopped {
        command: number(command),
        refusal: refusal_of(alloc, refusal)?,
    };
    add_entry(alloc, entries, numbers, Values::new(alloc), end)
}

fn add_retry(
    alloc: Global,
    retries: &mut Retries,
    numbers: Numbers,
    text: &str,
) -> Result<(), NoMemory> {
    let (entry, path) = split_word(text);
    let retry = Retry {
        shell: numbers.shell,
        txn: numbers.second,
        entry: u64::from(number(entry)),
        path: path_of(alloc, path)?,
    };
    retries.push(retry)
}

fn add_look(
    alloc: Global,
    events: &mut Events,
    numbers: Numbers,
    path: &str,
) -> Result<(), NoMemory> {
    let event = Event::Look {
        shell: numbers.shell,
        path: path_of(alloc, path)?,
        position: u64::from(numbers.second),
    };
    events.push(event)
}

fn add_settled(alloc: Global, events: &mut Events, numbers: Numbers) -> Result<(), NoMemory> {
    let event = Event::Settled {
        shell: numbers.shell,
        entry: u64::from(numbers.second),
    };
    events.push(event)
}

fn add_conflict(
    alloc: Global,
    events: &mut Events,
    numbers: Numbers,
    path: &str,
) -> Result<(), NoMemory> {
    let event = Event::Conflict {
        shell: numbers.shell,
        entry: u64::from(numbers.second),
        path: path_of(alloc, path)?,
    };
    events.push(event)
}

/// Tells the lines of events.
fn tell_events(alloc: Global, events: &Events, out: &mut String) -> Result<(), NoMemory> {
    let mut lines = Vec::new(alloc);
    for event in events {
        add_event_line(&mut lines, event)?;
    }
    tell_bytes(out, lines.as_slice())
}

fn tell_report(alloc: Global, parts: &Parts, out: &mut String) -> Result<(), NoMemory> {
    let report = printed_report(alloc, &parts.entries, &parts.retries)?;
    tell_bytes(out, report.as_slice())
}

/// Adds a part, or tells what they are together.
pub fn tell_form(
    alloc: Global,
    parts: &mut Parts,
    form: Form,
    numbers: Numbers,
    text: &str,
    out: &mut String,
) -> Result<(), NoMemory> {
    match form {
        Form::Done => add_done(alloc, &mut parts.entries, numbers, text),
        Form::Aborted => add_entry(
            alloc,
            &mut parts.entries,
            numbers,
            Values::new(alloc),
            End::Aborted,
        ),
        Form::Stopped => add_stopped(alloc, &mut parts.entries, numbers, text),
        Form::Retry => add_retry(alloc, &mut parts.retries, numbers, text),
        Form::Look => add_look(alloc, &mut parts.events, numbers, text),
        Form::Settled => add_settled(alloc, &mut parts.events, numbers),
        Form::Conflict => add_conflict(alloc, &mut parts.events, numbers, text),
        Form::Report => tell_report(alloc, parts, out),
        Form::Events => tell_events(alloc, &parts.events, out),
    }
}
