//! How far a report is read, and which line may follow.
ghost use Rattle.std.specs.Prelude.{◌≡◌, cond, IfOk, None, OnOk, Some};
ghost use Rattle.fx_expr.specs.Views.{tree_of};
ghost use Rattle.fx_read_report.specs.Lines.{held_line};
ghost use Rattle.fx_read_report.specs.Stages.{is_ended, with_line, with_last_output, start_state, state_of};

use crate::lines::Line;
use fx_base::NoMemory;
use fx_expr::{Value, Values};
use fx_machine::Retries;
use fx_report::{PrintedEntries, PrintedEntry};
use std::alloc::Global;

/// What the next lines are to be: the head, the count of entries, entries up to a count, retries up to a count, none.
#[derive(Clone, Copy)]
pub(crate) enum Stage {
    Start,
    Headed,
    Entries(u64),
    Retries(u64),
    Ended,
}

/// A report up to a line.
#[derive(Drop)]
pub(crate) struct Reading {
    stage: Stage,
    entries: Vec<PrintedEntry>,
    retries: Retries,
}

/// The entries as a list of their own.
fn listed(alloc: Global, entries: Vec<PrintedEntry>) -> Result<PrintedEntries, NoMemory>
    ensures { IfOk result (λ list. list ≡ entries.items) }
{
    let mut list = PrintedEntries::new(alloc);
    'listing: for entry in entries {
        list.push(entry)?;
    }
    Ok(list)
}

/// Adds an output to the last entry.
fn print(alloc: Global, entries: &mut Vec<PrintedEntry>, value: Value) -> Result<(), NoMemory>
    ensures { OnOk result (entries.new.items ≡ with_last_output entries.old.items (tree_of value)) }
{
    match entries.pop() {
        Some(last) => {
            let mut last = last;
            last.outputs.add(alloc, value)?;
            entries.push(last)?;
            Ok(())
        }
        None => Ok(()),
    }
}

impl Reading {
    /// Nothing is read.
    pub(crate) fn new(alloc: Global) -> Reading
        ensures { state_of result ≡ start_state }
    {
        Reading {
            stage: Stage::Start,
            entries: Vec::new(alloc),
            retries: Retries::new(alloc),
        }
    }

    /// Whether the last line was read.
    pub(crate) fn is_ended(&self) -> bool
        ensures { result ≡ is_ended self.now.stage }
    {
        matches!(self.stage, Stage::Ended)
    }

    /// Takes the line, if it may follow.
    pub(crate) fn take(&mut self, alloc: Global, line: Line) -> Result<bool, NoMemory>
        ensures { IfOk result (λ taken. with_line (state_of self.old) (held_line line)
            ≡ cond taken (Some (state_of self.new)) None) }
    {
        match (self.stage, line) {
            (Stage::Start, Line::Head) => self.stage = Stage::Headed,
            (Stage::Headed, Line::Entries(count)) => self.stage = Stage::Entries(count),
            (
                Stage::Entries(count),
                Line::Entry {
                    number,
                    shell,
                    txn,
                    end,
                },
            ) => {
                let entries = self.entries.as_slice().len() as u64;
                if number != entries {
                    return Ok(false);
                }
                if entries >= count {
                    return Ok(false);
                }
                self.entries.push(PrintedEntry {
                    shell,
                    txn,
                    outputs: Values::new(alloc),
                    end,
                })?;
            }
            (Stage::Entries(_), Line::Print(value)) => {
                if self.entries.as_slice().is_empty() {
                    return Ok(false);
                }
                print(alloc, &mut self.entries, value)?;
            }
            (Stage::Entries(count), Line::Retries(more)) => {
                if self.entries.as_slice().len() as u64 != count {
                    return Ok(false);
                }
                self.stage = Stage::Retries(more);
            }
            (Stage::Retries(count), Line::Retry(retry)) => {
                if self.retries.len() as u64 >= count {
                    return Ok(false);
                }
                self.retries.push(retry)?;
            }
            (Stage::Retries(count), Line::Final) => {
                if self.retries.len() as u64 != count {
                    return Ok(false);
                }
                self.stage = Stage::Ended;
            }
            _ => return Ok(false),
        }
        Ok(true)
    }

    /// The entries and the retries that were read.
    pub(crate) fn into_lists(self, alloc: Global) -> Result<(PrintedEntries, Retries), NoMemory>
        ensures entries { IfOk result (λ lists. lists.0 ≡ self.entries.items) }
        ensures retries { IfOk result (λ lists. lists.1 ≡ self.retries) }
    {
        let Reading {
            stage: _,
            entries,
            retries,
        } = self;
        let entries = listed(alloc, entries)?;
        Ok((entries, retries))
    }
}
