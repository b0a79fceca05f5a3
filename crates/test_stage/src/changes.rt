//! What differs between the texts that two tries give.

use fx_base::NoMemory;
use std::fmt::Write;
use test_lines::tell;

/// Whether a text has a line.
fn has_line(text: &str, wanted: &str) -> bool {
    for line in text.lines() {
        if line == wanted {
            return true;
        }
    }
    false
}

/// What stands in a told line behind its front.
fn told_in(line: &str) -> &str {
    line.strip_prefix("> ").unwrap_or(line)
}

/// Tells the lines of a text that another has not: each with the number of a call and a sign.
fn tell_lines_beside(
    out: &mut String,
    call: u64,
    sign: char,
    text: &str,
    other: &str,
) -> Result<(), NoMemory> {
    for line in text.lines() {
        if !has_line(other, line) {
            writeln!(out, "> {call} {sign} {}", told_in(line))?;
        }
    }
    Ok(())
}

/// Tells the lines that went and the lines that came where a call fails, against the time before.
pub fn tell_change(out: &mut String, call: u64, last: &str, told: &str) -> Result<(), NoMemory> {
    tell_lines_beside(out, call, '-', last, told)?;
    tell_lines_beside(out, call, '+', told, last)
}

/// Tells what differs from the time before.
pub fn tell_new(out: &mut String, last: &str, told: &str) -> Result<(), NoMemory> {
    if told != last {
        out.push_str(told)?;
        tell(out, "--")?;
    }
    Ok(())
}

/// Tells what differs from the time before, behind the room of the sink.
pub fn tell_room(out: &mut String, room: u64, last: &str, told: &str) -> Result<(), NoMemory> {
    if told != last {
        writeln!(out, "> room {room}")?;
    }
    tell_new(out, last, told)
}
