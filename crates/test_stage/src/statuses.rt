//! What is told of statuses. Each line of it begins with `> `.

use fx_base::NoMemory;
use fx_command::{Message, Status};
use fx_outside::Words;
use std::fmt::Write;

/// Tells how a command ended: its status, the number of the record for which a journal is bad, and its line on standard error.
pub(crate) fn tell_status(
    out: &mut String,
    words: &Words,
    status: &Status,
) -> Result<(), NoMemory> {
    let code = status.code();
    writeln!(out, "> status {code}")?;
    if let Status::BadJournal { place } = status {
        writeln!(out, "> record {place}")?;
    }
    if let Some(line) = Message::of(words, status) {
        writeln!(out, "> said {line}")?;
    }
    Ok(())
}
