//! Commands that are run again and again, each time with another call of the host that fails, or into a sink of more room.

use crate::changes::{tell_change, tell_new, tell_room};
use crate::program::{OUT, Program, run_quietly, tell_end};
use crate::runs::tell_run;
use crate::stage::Stage;
use fx_base::NoMemory;
use fx_outside::{MemoryHost, MemorySink, Words};
use std::alloc::Global;
use test_lines::{number, split_word, tell, tell_bytes, tell_left, words_of};

/// The last of the calls of which each is made to fail.
const LAST_CALL: u64 = 199;

/// A call that no command comes to.
const NO_CALL: u64 = u64::MAX;

/// What differs from one run to the next, and what is told of each.
#[derive(Clone, Copy)]
enum Series {
    /// The call that fails, up to the first at which all is as where nothing fails; what is not as at the time before.
    Faults,
    /// The call that fails; the lines that went and that came.
    Changes,
    /// The room of the sink; what is not as at the time before.
    Rooms,
}

/// The two numbers in front of a line, and what stands behind them.
fn split_range(line: &str) -> (u64, u64, &str) {
    let (from, more) = split_word(line);
    let (to, rest) = split_word(more);
    (u64::from(number(from)), u64::from(number(to)), rest)
}

/// Tells what a command gives where a call of the host fails.
fn tell_failing<P: Program>(
    program: &P,
    alloc: Global,
    stage: &Stage,
    words: &Words,
    call: u64,
    out: &mut String,
) -> Result<(), NoMemory> {
    let mut host = stage.failing_host(alloc, call)?;
    let sink = stage.fresh_sink(alloc)?;
    tell_run(program, alloc, words, &mut host, sink, stage.detail, out)
}

/// Whether bytes are those that a sink of this room takes of a text that is longer.
fn fills(printed: &[u8], text: &[u8], room: u64) -> bool {
    if printed.len() as u64 != room {
        return false;
    }
    if printed.len() >= text.len() {
        return false;
    }
    text.starts_with(printed)
}

/// Tells what was printed into a sink of this room, of a text that a larger sink takes.
fn tell_taken(out: &mut String, printed: &[u8], text: &[u8], room: u64) -> Result<(), NoMemory> {
    if fills(printed, text, room) {
        tell(out, "a front of this length")
    } else {
        tell_bytes(out, printed)
    }
}

/// What a command prints into a fresh sink where nothing fails.
fn sink_after<P: Program>(
    program: &P,
    alloc: Global,
    stage: &Stage,
    words: &Words,
) -> Result<MemorySink, NoMemory> {
    let mut host = stage.fresh_host(alloc)?;
    let mut sink = stage.fresh_sink(alloc)?;
    run_quietly(program, alloc, words, &mut host, &mut sink)?;
    Ok(sink)
}

/// Tells how a command ends that prints into a sink of this room, and what it prints.
fn tell_printed<P: Program>(
    program: &P,
    alloc: Global,
    stage: &Stage,
    words: &Words,
    text: &[u8],
    room: u64,
    host: &mut MemoryHost,
    out: &mut String,
) -> Result<(), NoMemory> {
    let mut sink = stage.sink_of(alloc, room)?;
    tell_end(program, alloc, words, host, &mut sink, out)?;
    tell_taken(out, sink.written(), text, room)
}

/// Tells what a command gives that prints into a sink of this room.
fn tell_within<P: Program>(
    program: &P,
    alloc: Global,
    stage: &Stage,
    words: &Words,
    text: &[u8],
    room: u64,
    out: &mut String,
) -> Result<(), NoMemory> {
    let mut host = stage.fresh_host(alloc)?;
    tell_printed(program, alloc, stage, words, text, room, &mut host, out)?;
    tell_left(alloc, &mut host, stage.detail, OUT, out)
}

/// Tells what differs from the time before.
fn tell_against(
    series: Series,
    number: u64,
    last: &str,
    told: &str,
    out: &mut String,
) -> Result<(), NoMemory> {
    match series {
        Series::Faults => tell_new(out, last, told),
        Series::Changes => tell_change(out, number, last, told),
        Series::Rooms => tell_room(out, number, last, told),
    }
}

fn is_end(series: Series, told: &str, whole: &[u8]) -> bool {
    match series {
        Series::Faults => told.as_bytes() == whole,
        Series::Changes => false,
        Series::Rooms => false,
    }
}

/// Tells what a command gives at each number from one to another; `whole` is what it gives where nothing fails, or what it
/// then prints.
fn tell_series<P: Program>(
    program: &P,
    alloc: Global,
    stage: &Stage,
    words: &Words,
    series: Series,
    range: (u64, u64),
    whole: &[u8],
    out: &mut String,
) -> Result<(), NoMemory> {
    let mut last = String::new(alloc);
    for number in range.0..=range.1 {
        let mut told = String::new(alloc);
        match series {
            Series::Rooms => {
                tell_within(program, alloc, stage, words, whole, number, &mut told)?
            }
            _ => tell_failing(program, alloc, stage, words, number, &mut told)?,
        }
        if is_end(series, told.as_str(), whole) {
            break;
        }
        tell_against(series, number, last.as_str(), told.as_str(), out)?;
        last = told;
    }
    Ok(())
}

/// Tells the series of faults, and then what the command gives where nothing fails.
fn tell_both<P: Program>(
    program: &P,
    alloc: Global,
    stage: &Stage,
    words: &Words,
    out: &mut String,
) -> Result<(), NoMemory> {
    let mut whole = String::new(alloc);
    tell_failing(program, alloc, stage, words, NO_CALL, &mut whole)?;
    let bytes = whole.as_str().as_bytes();
    tell_series(
        program,
        alloc,
        stage,
        words,
        Series::Faults,
        (0, LAST_CALL),
        bytes,
        out,
    )?;
    out.push_str(whole.as_str())?;
    Ok(())
}

/// Tells what a command gives where each call of the host fails in turn, and then where nothing fails. What is the same as
/// the time before is not told again.
pub fn tell_faults<P: Program>(
    program: &P,
    alloc: Global,
    stage: &Stage,
    line: &str,
    out: &mut String,
) -> Result<(), NoMemory> {
    let words = words_of(alloc, line)?;
    tell_both(program, alloc, stage, &words, out)
}

/// Tells what a command gives where each call of the host from one to another fails in turn: of the first all lines, and of
/// each further one the lines that went (`-`) and that came (`+`) against the call before. A line is both and the words.
pub fn tell_changes<P: Program>(
    program: &P,
    alloc: Global,
    stage: &Stage,
    line: &str,
    out: &mut String,
) -> Result<(), NoMemory> {
    let (from, to, rest) = split_range(line);
    let words = words_of(alloc, rest)?;
    tell_series(
        program,
        alloc,
        stage,
        &words,
        Series::Changes,
        (from, to),
        b"",
        out,
    )
}

/// Tells what a command gives that prints into a sink of each room from one to another: a line is both and the words. What
/// is the same as the time before is not told again.
pub fn tell_rooms<P: Program>(
    program: &P,
    alloc: Global,
    stage: &Stage,
    line: &str,
    out: &mut String,
) -> Result<(), NoMemory> {
    let (from, to, rest) = split_range(line);
    let words = words_of(alloc, rest)?;
    let sink = sink_after(program, alloc, stage, &words)?;
    let text = sink.written();
    tell_series(
        program,
        alloc,
        stage,
        &words,
        Series::Rooms,
        (from, to),
        text,
        out,
    )
}
