//! Traces of two scripts by all schedules of six steps.

use crate::program::{OUT, Program, tell_end};
use crate::stage::Stage;
use fx_base::NoMemory;
use fx_outside::{MemoryHost, MemorySink, Words};
use std::alloc::Global;
use std::collections::BTreeSet;
use test_lines::{tell, tell_tree, words_of};

/// The number of schedules of six steps of two shells.
const SCHEDULES: u32 = 64;

/// The words of a trace by the schedule of six steps that the binary digits of a number are.
fn trace_words(alloc: Global, number: u32) -> Result<Words, NoMemory> {
    let mut line = String::new(alloc);
    add_trace(&mut line, number)?;
    words_of(alloc, line.as_str())
}

fn add_trace(line: &mut String, number: u32) -> Result<(), NoMemory> {
    line.push_str("trace spec in out ")?;
    let mut rest = number;
    for step in 0u32..6 {
        if step > 0 {
            line.push_str(",")?;
        }
        line.push_str(if rest % 2 == 0 { "0" } else { "1" })?;
        rest /= 2;
    }
    line.push_str(" first second")?;
    Ok(())
}

/// The fronts of the lines of a trace that do not depend on the order alone in which the transactions are settled.
const OF_STEPS: [&str; 4] = ["look ", "conflict ", "retries ", "retry "];

/// Whether a line begins with one of four fronts.
fn begins_with_any(line: &str, fronts: &[&str; 4]) -> bool {
    for front in fronts {
        if line.starts_with(*front) {
            return true;
        }
    }
    false
}

/// Tells the lines of a text that begin with none of four fronts.
pub fn tell_without(out: &mut String, text: &str, fronts: &[&str; 4]) -> Result<(), NoMemory> {
    for line in text.lines() {
        if !begins_with_any(line, fronts) {
            tell(out, line)?;
        }
    }
    Ok(())
}

fn tell_printed(out: &mut String, printed: &[u8]) -> Result<(), NoMemory> {
    match std::str::from_utf8(printed) {
        Ok(trace) => tell_without(out, trace, &OF_STEPS),
        Err(_) => tell(out, "not UTF-8"),
    }
}

/// Tells what a trace gives, without its looks, conflicts and retries.
fn tell_trace<P: Program>(
    program: &P,
    alloc: Global,
    words: &Words,
    host: &mut MemoryHost,
    mut sink: MemorySink,
    out: &mut String,
) -> Result<(), NoMemory> {
    tell_end(program, alloc, words, host, &mut sink, out)?;
    tell_printed(out, sink.written())?;
    tell_tree(alloc, host, OUT, out)
}

/// Tells what the trace by a schedule gives on a fresh stage.
fn tell_by<P: Program>(
    program: &P,
    alloc: Global,
    stage: &Stage,
    number: u32,
    out: &mut String,
) -> Result<(), NoMemory> {
    let words = trace_words(alloc, number)?;
    let mut host = stage.fresh_host(alloc)?;
    let sink = stage.fresh_sink(alloc)?;
    tell_trace(program, alloc, &words, &mut host, sink, out)
}

/// Adds what the trace by a schedule gives.
fn add_order<P: Program>(
    program: &P,
    alloc: Global,
    stage: &Stage,
    number: u32,
    orders: &mut BTreeSet<String>,
) -> Result<(), NoMemory> {
    let mut told = String::new(alloc);
    tell_by(program, alloc, stage, number, &mut told)?;
    orders.insert(told)?;
    Ok(())
}

/// Tells texts, each behind the one before.
pub fn tell_each(texts: &BTreeSet<String>, out: &mut String) -> Result<(), NoMemory> {
    for told in texts {
        out.push_str(told.as_str())?;
        tell(out, "--")?;
    }
    Ok(())
}

/// Tells what the traces by all schedules of six steps give, each once, in order.
pub fn tell_schedules<P: Program>(
    program: &P,
    alloc: Global,
    stage: &Stage,
    out: &mut String,
) -> Result<(), NoMemory> {
    let mut orders = BTreeSet::new(alloc);
    for number in 0..SCHEDULES {
        add_order(program, alloc, stage, number, &mut orders)?;
    }
    tell_each(&orders, out)
}
