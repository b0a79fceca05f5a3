//! Runs on threads, whose order is free. Each is compared with its own transactions, run whole, one after another in the
//! order that it prints.

use crate::replay::replayed;
use crate::shells::{entry_lines, shells_of};
use fx_base::NoMemory;
use fx_board::{Board, Retries};
use fx_folder::{SaveFault, ready, save};
use fx_outside::{HostText, MemoryHost, MemorySink, Words};
use fx_report::report;
use fx_spec::Base;
use fx_store::Filestore;
use std::alloc::Global;
use std::collections::BTreeSet;
use std::sync::Arc;
use test_lines::{host_text, number, split_word, tell, tell_bytes, tell_tree, words_of};
use test_stage::{OUT, Program, Stage, run_quietly, tell_each, tell_without};

/// What stands between what a run prints and what is told of its folder.
const BETWEEN: &str = "\n--\n";

/// The fronts of the lines of a report that depend on the order.
const OF_ORDER: [&str; 4] = ["entry ", "print ", "retries ", "retry "];

/// Adds what a run prints.
fn add_printed(left: &mut String, printed: &[u8]) -> Result<(), NoMemory> {
    if let Ok(printed) = std::str::from_utf8(printed) {
        left.push_str(printed)?;
    }
    left.push_str(BETWEEN)?;
    Ok(())
}

/// What a run printed, and what is told of its folder.
pub fn parts_of(left: &str) -> (&str, &str) {
    match left.split_once(BETWEEN) {
        Some(parts) => parts,
        None => (left, ""),
    }
}

/// Whether two runs leave the same but for their retries.
fn are_same(one: &str, other: &str) -> bool {
    let (printed, tree) = parts_of(one);
    let (wanted, wanted_tree) = parts_of(other);
    entry_lines(printed) == entry_lines(wanted) && tree == wanted_tree
}

/// Whether a run prints that it has retries.
fn has_retries(left: &str) -> bool {
    left.split_once("\nretries 0\n").is_none()
}

/// Saves a filestore at a path of a host.
fn save_at(
    alloc: Global,
    host: &mut MemoryHost,
    path: &HostText,
    store: &Filestore,
) -> Result<(), SaveFault> {
    let there = ready(alloc, host, path)?;
    save(alloc, host, path, there, store)
}

/// Tells what is told of the folder of a filestore.
fn tell_saved(
    alloc: Global,
    host: &mut MemoryHost,
    store: &Filestore,
    out: &mut String,
) -> Result<(), NoMemory> {
    let path = host_text(alloc, OUT)?;
    match save_at(alloc, host, &path, store) {
        Ok(()) => tell_tree(alloc, host, OUT, out),
        Err(_) => tell(out, "not saved"),
    }
}

fn tell_folder(alloc: Global, store: &Filestore, out: &mut String) -> Result<(), NoMemory> {
    let mut host = MemoryHost::new(alloc);
    tell_saved(alloc, &mut host, store, out)
}

fn add_report(alloc: Global, board: &Board, left: &mut String) -> Result<(), NoMemory> {
    let printed = report(alloc, board, &Retries::new(alloc))?;
    add_printed(left, printed.as_slice())
}

/// Adds what a log leaves.
fn add_log(alloc: Global, board: &Board, left: &mut String) -> Result<(), NoMemory> {
    add_report(alloc, board, left)?;
    tell_folder(alloc, board.store(), left)
}

/// Adds what the next transactions of these shells leave, run whole.
fn add_replayed(
    alloc: Global,
    base: &Arc<Base>,
    shells: &[u32],
    left: &mut String,
) -> Result<(), NoMemory> {
    let world = replayed(alloc, base, shells)?;
    let added = add_log(alloc, world.board(), left);
    world.let_go();
    added
}

/// Whether what a run leaves is what its transactions leave that are run whole in the order that it prints.
fn is_replayed(alloc: Global, base: &Arc<Base>, left: &str) -> Result<bool, NoMemory> {
    let shells = shells_of(alloc, left)?;
    let mut again = String::new(alloc);
    add_replayed(alloc, base, &shells, &mut again)?;
    Ok(are_same(again.as_str(), left))
}

fn is_as_printed<P: Program>(
    program: &P,
    alloc: Global,
    stage: &mut Stage,
    scripts: &str,
    left: &str,
) -> Result<bool, NoMemory> {
    match program.base(alloc, stage, scripts) {
        Ok(base) => {
            let same = is_replayed(alloc, &base, left);
            Base::let_go(base);
            same
        }
        Err(_) => Ok(false),
    }
}

/// Runs a command, and adds what it prints, and what is told of its folder.
fn add_left<P: Program>(
    program: &P,
    alloc: Global,
    words: &Words,
    host: &mut MemoryHost,
    mut sink: MemorySink,
    left: &mut String,
) -> Result<(), NoMemory> {
    run_quietly(program, alloc, words, host, &mut sink)?;
    add_printed(left, sink.written())?;
    tell_tree(alloc, host, OUT, left)
}

/// The words of a command that runs scripts.
fn run_words(alloc: Global, command: &str, rest: &str) -> Result<Words, NoMemory> {
    let line = format!(in alloc; "{command} spec in {OUT} {rest}")?;
    words_of(alloc, line.as_str())
}

/// Runs a command on a fresh stage, and adds what it prints, and what is told of its folder.
pub fn add_run<P: Program>(
    program: &P,
    alloc: Global,
    stage: &Stage,
    command: &str,
    rest: &str,
    left: &mut String,
) -> Result<(), NoMemory> {
    let words = run_words(alloc, command, rest)?;
    let mut host = stage.fresh_host(alloc)?;
    let sink = stage.fresh_sink(alloc)?;
    add_left(program, alloc, &words, &mut host, sink, left)
}

/// Runs the scripts once, and tells what is left where that is not as the printed order says, or where a retry lacks that is
/// wanted.
fn is_right<P: Program>(
    program: &P,
    alloc: Global,
    stage: &mut Stage,
    retried: bool,
    scripts: &str,
    out: &mut String,
) -> Result<bool, NoMemory> {
    let mut left = String::new(alloc);
    add_run(program, alloc, stage, "run", scripts, &mut left)?;
    let as_printed = is_as_printed(program, alloc, stage, scripts, left.as_str())?;
    let right = as_printed && (!retried || has_retries(left.as_str()));
    if !right {
        tell_bytes(out, left.as_str().as_bytes())?;
    }
    Ok(right)
}

fn told_right(retried: bool) -> &'static str {
    if retried {
        "each as its order says, and each with a retry"
    } else {
        "each as its order says"
    }
}

/// Runs the scripts on threads so many times, each time on a fresh stage, and tells whether each run leaves what its
/// transactions leave that are run whole in the order that it prints, and whether each has retries where they are wanted: a
/// line is a count and the scripts. The description is at `spec`, the folder at `in`.
pub fn tell_threads<P: Program>(
    program: &P,
    alloc: Global,
    stage: &mut Stage,
    retried: bool,
    line: &str,
    out: &mut String,
) -> Result<(), NoMemory> {
    let (count, scripts) = split_word(line);
    for _ in 0..number(count) {
        if !is_right(program, alloc, stage, retried, scripts, out)? {
            return Ok(());
        }
    }
    tell(out, told_right(retried))
}

/// Runs the scripts once, and adds the lines of the report that do not depend on the order, and what is told of the folder.
fn add_outcome<P: Program>(
    program: &P,
    alloc: Global,
    stage: &Stage,
    scripts: &str,
    outcomes: &mut BTreeSet<String>,
) -> Result<(), NoMemory> {
    let mut left = String::new(alloc);
    add_run(program, alloc, stage, "run", scripts, &mut left)?;
    let (printed, tree) = parts_of(left.as_str());
    let mut outcome = String::new(alloc);
    tell_without(&mut outcome, printed, &OF_ORDER)?;
    outcome.push_str(tree)?;
    outcomes.insert(outcome)?;
    Ok(())
}

/// Runs the scripts on threads so many times, each time on a fresh stage, and tells what the runs leave, each once, in order,
/// without the lines that depend on the order: a line is a count and the scripts. The description is at `spec`, the folder at
/// `in`.
pub fn tell_outcomes<P: Program>(
    program: &P,
    alloc: Global,
    stage: &Stage,
    line: &str,
    out: &mut String,
) -> Result<(), NoMemory> {
    let (count, scripts) = split_word(line);
    let mut outcomes = BTreeSet::new(alloc);
    for _ in 0..number(count) {
        add_outcome(program, alloc, stage, scripts, &mut outcomes)?;
    }
    tell_each(&outcomes, out)
}
