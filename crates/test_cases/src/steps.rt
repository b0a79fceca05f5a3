//! Single transactions and single steps of shells, over the texts and the folder of a stage.

use fx_base::NoMemory;
use fx_board::{Attempt, Board, Event};
use fx_command::Status;
use fx_report::add_event_line;
use fx_run::run;
use fx_sched::World;
use fx_spec::{Base, End};
use fx_store::{Node, Path};
use fx_view::{Known, Reads, Stop};
use std::alloc::Global;
use std::fmt::Write;
use std::sync::Arc;
use test_lines::{split_word, tell, tell_bytes, unescaped};
use test_stage::{Program, Stage};

pub fn tell_refused(out: &mut String, status: &Status) -> Result<(), NoMemory> {
    let code = status.code();
    writeln!(out, "> status {code}")?;
    Ok(())
}

fn end_name(end: &End) -> &'static str {
    match end {
        End::Done => "done",
        End::Stopped { .. } => "stopped",
        End::Aborted => "aborted",
    }
}

fn add_attempt(attempt: &Attempt, out: &mut String) -> Result<(), NoMemory> {
    let shell = attempt.shell;
    let txn = attempt.txn;
    let reads = attempt.reads.len();
    let changes = attempt.changes.len();
    let outputs = attempt.outputs.len();
    let end = end_name(&attempt.end);
    writeln!(
        out,
        "> shell {shell} txn {txn}: {reads} reads, {changes} changes, {outputs} outputs, {end}"
    )?;
    Ok(())
}

/// Tells an attempt, or what it lacks.
fn tell_result(out: &mut String, result_of: Result<Attempt, Stop>) -> Result<(), NoMemory> {
    match result_of {
        Ok(attempt) => {
            let added = add_attempt(&attempt, out);
            fx_board::let_go(attempt);
            added
        }
        Err(Stop::Needs(path)) => {
            let names = path.len();
            writeln!(out, "> needs a path of {names} names")?;
            Ok(())
        }
        Err(Stop::NoMemory) => Err(NoMemory),
    }
}

/// Tells the attempt of the first transaction, where nothing was read yet.
fn tell_first(alloc: Global, base: &Arc<Base>, out: &mut String) -> Result<(), NoMemory> {
    if base.plan.txn(0, 0).is_none() {
        return tell(out, "no transaction");
    }
    let mut reader = Known::new(Reads::new(alloc));
    let result_of = run(alloc, base, 0, 0, &mut reader);
    tell_result(out, result_of)
}

/// Tells the attempt of the first transaction of a script, where nothing was read yet.
pub fn tell_attempt<P: Program>(
    program: &P,
    alloc: Global,
    stage: &mut Stage,
    script: &str,
    out: &mut String,
) -> Result<(), NoMemory> {
    match program.base(alloc, stage, script) {
        Ok(base) => {
            let told = tell_first(alloc, &base, out);
            Base::let_go(base);
            told
        }
        Err(status) => tell_refused(out, &status),
    }
}

fn tell_event(alloc: Global, event: Event, out: &mut String) -> Result<(), NoMemory> {
    let mut line = Vec::new(alloc);
    add_event_line(&mut line, &event)?;
    tell_bytes(out, line.as_slice())
}

/// A shell has a turn.
fn tell_turn(
    alloc: Global,
    world: &mut World,
    shell: u32,
    out: &mut String,
) -> Result<(), NoMemory> {
    if shell >= world.board().base().plan.len() {
        return tell(out, "no such shell");
    }
    match world.step(alloc, shell)? {
        Some(event) => tell_event(alloc, event, out),
        None => tell(out, "nothing left"),
    }
}

/// The shells between commas have their turns.
fn tell_turns(
    alloc: Global,
    world: &mut World,
    turns: &str,
    out: &mut String,
) -> Result<(), NoMemory> {
    for turn in turns.split(',') {
        if let Ok(shell) = turn.parse::<u32>() {
            tell_turn(alloc, world, shell, out)?;
        }
    }
    Ok(())
}

/// Tells the counts of a log.
fn tell_counts(board: &Board, out: &mut String) -> Result<(), NoMemory> {
    let shells = board.base().plan.len();
    let entries = board.len();
    let places = board.store().places();
    writeln!(out, "> {shells} shells, {entries} entries, {places} places")?;
    Ok(())
}

/// Tells each entry, and that none is behind them.
fn tell_entries(board: &Board, out: &mut String) -> Result<(), NoMemory> {
    for i in 0..=board.len() {
        match board.entry(i) {
            Some(entry) => writeln!(out, "> entry {i} shell {} txn {}", entry.shell, entry.txn)?,
            None => writeln!(out, "> no entry {i}")?,
        }
    }
    Ok(())
}

fn kind_of(node: &Option<Node>) -> &'static str {
    match node {
        Some(Node::File { .. }) => "a file",
        Some(Node::Dir(_)) => "a directory",
        Some(Node::Link(_)) => "a link",
        None => "nothing",
    }
}

fn let_go(_: Option<Node>) {}

/// What kind of node stands at a path, and the position of the look.
fn seen(alloc: Global, board: &Board, path: &Path) -> Result<(&'static str, u64), NoMemory> {
    let (node, position) = board.look(alloc, path)?;
    let kind = kind_of(&node);
    let_go(node);
    Ok((kind, position))
}

fn tell_at(
    alloc: Global,
    board: &Board,
    path: &Path,
    text: &str,
    out: &mut String,
) -> Result<(), NoMemory> {
    let (kind, position) = seen(alloc, board, path)?;
    match board.last_change(path) {
        Some(entry) => writeln!(
            out,
            "> {text} is {kind} at {position}, changed by entry {entry}"
        )?,
        None => writeln!(out, "> {text} is {kind} at {position}, not changed")?,
    }
    Ok(())
}

/// Tells what stands at a path, the position of the look, and the last entry that changed it.
fn tell_look(alloc: Global, board: &Board, text: &str, out: &mut String) -> Result<(), NoMemory> {
    let bytes = unescaped(alloc, text)?;
    match Path::read(alloc, &bytes) {
        Ok(path) => tell_at(alloc, board, &path, text, out),
        Err(_) => tell(out, "no path"),
    }
}

fn tell_looks(alloc: Global, board: &Board, paths: &str, out: &mut String) -> Result<(), NoMemory> {
    for path in paths.split(',') {
        tell_look(alloc, board, path, out)?;
    }
    Ok(())
}

fn tell_log(alloc: Global, board: &Board, paths: &str, out: &mut String) -> Result<(), NoMemory> {
    tell_counts(board, out)?;
    tell_entries(board, out)?;
    tell_looks(alloc, board, paths, out)
}

fn tell_world(
    alloc: Global,
    world: &mut World,
    turns: &str,
    paths: &str,
    out: &mut String,
) -> Result<(), NoMemory> {
    tell_turns(alloc, world, turns, out)?;
    tell_log(alloc, world.board(), paths, out)
}

fn tell_from(
    alloc: Global,
    base: Arc<Base>,
    turns: &str,
    paths: &str,
    out: &mut String,
) -> Result<(), NoMemory> {
    let mut world = World::new(alloc, base)?;
    let told = tell_world(alloc, &mut world, turns, paths, out);
    world.let_go();
    told
}

/// Tells the events of the turns between commas, and then the log, with what stands at the paths between commas and which
/// entries were the last to change it: a line is turns, paths and scripts.
pub fn tell_steps<P: Program>(
    program: &P,
    alloc: Global,
    stage: &mut Stage,
    line: &str,
    out: &mut String,
) -> Result<(), NoMemory> {
    let (turns, more) = split_word(line);
    let (paths, scripts) = split_word(more);
    match program.base(alloc, stage, scripts) {
        Ok(base) => tell_from(alloc, base, turns, paths, out),
        Err(status) => tell_refused(out, &status),
    }
}
