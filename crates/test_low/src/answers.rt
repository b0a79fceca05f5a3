//! The lines of cases, and what each gives.

use crate::known::tell_known;
use crate::plans::tell_plans;
use crate::stores::tell_stores;
use crate::values::tell_values;
use crate::words::tell_words;
use fx_base::NoMemory;
use fx_read_report::{Printed, ReportFault, read_report};
use fx_report::printed_report;
use std::alloc::Global;
use std::fmt::Write;
use test_lines::{Case, split_word, tell, tell_bytes, unescaped, verb_of};

/// The bytes of a report, as far as a case has set them up.
#[derive(Drop)]
pub struct Report {
    bytes: Vec<u8>,
}

#[derive(Clone, Copy)]
enum Verb {
    Note,
    Case,
    Line,
    Part,
    Read,
    Changed(Change),
    Ample(Part),
}

/// What is done to a line.
#[derive(Clone, Copy)]
enum Change {
    /// A byte is added at its end.
    Broken,
    /// It is left out.
    Lacking,
}

/// What is made where memory is ample.
#[derive(Clone, Copy)]
enum Part {
    Values,
    Stores,
    Plans,
    Words,
    Known,
}

const VERBS: &[(&str, Verb)] = &[
    ("", Verb::Note),
    ("#", Verb::Note),
    ("case", Verb::Case),
    ("line", Verb::Line),
    ("part", Verb::Part),
    ("read", Verb::Read),
    ("broken", Verb::Changed(Change::Broken)),
    ("lacking", Verb::Changed(Change::Lacking)),
    ("ample-values", Verb::Ample(Part::Values)),
    ("ample-stores", Verb::Ample(Part::Stores)),
    ("ample-plans", Verb::Ample(Part::Plans)),
    ("ample-words", Verb::Ample(Part::Words)),
    ("ample-known", Verb::Ample(Part::Known)),
];

fn tell_bad_line(out: &mut String, line: u64) -> Result<(), NoMemory> {
    writeln!(out, "> BadLine {line}")?;
    Ok(())
}

/// Tells the report of what was read.
fn tell_printed(alloc: Global, printed: &Printed, out: &mut String) -> Result<(), NoMemory> {
    let text = printed_report(alloc, &printed.entries, &printed.retries)?;
    tell_bytes(out, text.as_slice())
}

/// Reads a report, and tells the report of what was read.
fn tell_read(alloc: Global, bytes: &[u8], out: &mut String) -> Result<(), NoMemory> {
    match read_report(alloc, bytes) {
        Ok(printed) => tell_printed(alloc, &printed, out),
        Err(ReportFault::BadLine(line)) => tell_bad_line(out, line),
        Err(ReportFault::NoMemory) => Err(NoMemory),
    }
}

/// Reads a report, and tells whether it is one.
fn tell_whether(alloc: Global, bytes: &[u8], out: &mut String) -> Result<(), NoMemory> {
    match read_report(alloc, bytes) {
        Ok(_) => tell(out, "read"),
        Err(ReportFault::BadLine(line)) => tell_bad_line(out, line),
        Err(ReportFault::NoMemory) => Err(NoMemory),
    }
}

/// Adds a changed line.
fn add_changed(out: &mut String, line: &str, change: Change) -> Result<(), NoMemory> {
    match change {
        Change::Broken => {
            out.push_str(line)?;
            out.push_str("?\n")?;
            Ok(())
        }
        Change::Lacking => Ok(()),
    }
}

fn add_line(out: &mut String, line: &str) -> Result<(), NoMemory> {
    out.push_str(line)?;
    out.push_str("\n")?;
    Ok(())
}

/// A text with one line changed.
fn changed(alloc: Global, text: &str, at: usize, change: Change) -> Result<String, NoMemory> {
    let mut more = String::new(alloc);
    for (place, line) in text.lines().enumerate() {
        if place == at {
            add_changed(&mut more, line, change)?;
        } else {
            add_line(&mut more, line)?;
        }
    }
    Ok(more)
}

fn tell_changed_at(
    alloc: Global,
    text: &str,
    at: usize,
    change: Change,
    out: &mut String,
) -> Result<(), NoMemory> {
    let more = changed(alloc, text, at, change)?;
    tell_whether(alloc, more.as_bytes(), out)
}

/// Tells of each line in turn what the report is with this line changed.
fn tell_changed(
    alloc: Global,
    bytes: &[u8],
    change: Change,
    out: &mut String,
) -> Result<(), NoMemory> {
    let Ok(text) = std::str::from_utf8(bytes) else {
        return tell(out, "no text");
    };
    for (at, _) in text.lines().enumerate() {
        tell_changed_at(alloc, text, at, change, out)?;
    }
    Ok(())
}

fn tell_ample(alloc: Global, part: Part, out: &mut String) -> Result<(), NoMemory> {
    match part {
        Part::Values => tell_values(alloc, out),
        Part::Stores => tell_stores(alloc, out),
        Part::Plans => tell_plans(alloc, out),
        Part::Words => tell_words(alloc, out),
        Part::Known => tell_known(alloc, out),
    }
}

impl Report {
    /// No bytes.
    pub fn new(alloc: Global) -> Report {
        Report {
            bytes: Vec::new(alloc),
        }
    }

    fn add(&mut self, alloc: Global, text: &str) -> Result<(), NoMemory> {
        let bytes = unescaped(alloc, text)?;
        self.bytes.extend_from_slice(bytes.as_slice())?;
        Ok(())
    }

    fn end_line(&mut self) -> Result<(), NoMemory> {
        self.bytes.push(b'\n')?;
        Ok(())
    }
}

impl Case for Report {
    fn answer(&mut self, alloc: Global, line: &str, out: &mut String) -> Result<(), NoMemory> {
        let (word, rest) = split_word(line);
        match verb_of(VERBS, word) {
            None => tell(out, "no such word"),
            Some(Verb::Note) => Ok(()),
            Some(Verb::Case) => {
                *self = Report::new(alloc);
                Ok(())
            }
            Some(Verb::Part) => self.add(alloc, rest),
            Some(Verb::Line) => {
                self.add(alloc, rest)?;
                self.end_line()
            }
            Some(Verb::Read) => tell_read(alloc, self.bytes.as_slice(), out),
            Some(Verb::Changed(change)) => tell_changed(alloc, self.bytes.as_slice(), change, out),
            Some(Verb::Ample(part)) => tell_ample(alloc, part, out),
        }
    }
}
