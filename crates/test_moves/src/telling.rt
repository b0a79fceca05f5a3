//! What is told of answers, refusals, places, reads and own changes.
ghost use Rattle.std.specs.Prelude.{IfOk, IsOk};
ghost use Rattle.fx_session.specs.Halts.{split};

use fx_base::NoMemory;
use fx_expr::{Env, Value, Word};
use fx_report::value_line;
use fx_session::Halt;
use fx_spec::{Place, Refusal};
use fx_store::{Names, Node, Path};
use fx_view::{Overlay, Reads};
use std::alloc::Global;
use std::fmt::Write;
use test_lines::{add_bytes, tell, tell_bytes};

/// Adds the names of a path, each behind a slash.
fn add_path(out: &mut String, path: &Path) -> Result<(), NoMemory> {
    if path.len() == 0 {
        out.push_str("/")?;
    }
    for i in 0..path.len() {
        if let Some(name) = path.name(i) {
            out.push_str("/")?;
            add_bytes(out, name.as_slice())?;
        }
    }
    Ok(())
}

fn tell_path(out: &mut String, path: &Path) -> Result<(), NoMemory> {
    out.push_str("> ")?;
    add_path(out, path)?;
    out.push_str("\n")?;
    Ok(())
}

fn tell_blocked(out: &mut String, path: &Path) -> Result<(), NoMemory> {
    out.push_str("> Blocked ")?;
    add_path(out, path)?;
    out.push_str("\n")?;
    Ok(())
}

fn name_of(refusal: &Refusal) -> &'static str {
    match refusal {
        Refusal::NoStep => "NoStep",
        Refusal::NoElement => "NoElement",
        Refusal::NoPlace => "NoPlace",
        Refusal::Lacks => "Lacks",
        Refusal::WrongForm => "WrongForm",
        Refusal::Blocked(_) => "Blocked",
        Refusal::TooDeep => "TooDeep",
        Refusal::BadName => "BadName",
        Refusal::NoDefault => "NoDefault",
        Refusal::Expr(_) => "Expr",
        Refusal::Absent => "Absent",
        Refusal::Exists => "Exists",
        Refusal::TooUnfolded => "TooUnfolded",
    }
}

/// Tells the name of a refusal, with the path or the fault that it has.
pub fn tell_refusal(out: &mut String, refusal: &Refusal) -> Result<(), NoMemory> {
    match refusal {
        Refusal::Blocked(path) => tell_blocked(out, path),
        Refusal::Expr(fault) => {
            writeln!(out, "> Expr {fault:?}")?;
            Ok(())
        }
        _ => tell(out, name_of(refusal)),
    }
}

/// Tells that a command is done, or its refusal. A reader of a whole filestore needs no path, so that it stops for want of
/// memory alone.
pub fn tell_done(out: &mut String, answer: Result<(), Halt>) -> Result<(), NoMemory>
    ensures { IfOk result (λ _. IsOk (split answer)) }
{
    match answer {
        Ok(()) => tell(out, "done"),
        Err(Halt::Refused(refusal)) => tell_refusal(out, &refusal),
        Err(Halt::Stopped(_)) => Err(NoMemory),
    }
}

fn tell_value(alloc: Global, out: &mut String, value: &Value) -> Result<(), NoMemory> {
    let line = value_line(alloc, value)?;
    tell_bytes(out, line.as_slice())
}

/// Tells a value, or the refusal.
pub fn tell_answer(
    alloc: Global,
    out: &mut String,
    answer: Result<Value, Halt>,
) -> Result<(), NoMemory>
    ensures { IfOk result (λ _. IsOk (split answer)) }
{
    match answer {
        Ok(value) => tell_value(alloc, out, &value),
        Err(Halt::Refused(refusal)) => tell_refusal(out, &refusal),
        Err(Halt::Stopped(_)) => Err(NoMemory),
    }
}

fn tell_binding(
    alloc: Global,
    out: &mut String,
    word: &Word,
    value: &Value,
) -> Result<(), NoMemory> {
    out.push_str("> ")?;
    add_bytes(out, word.as_slice())?;
    out.push_str("\n")?;
    tell_value(alloc, out, value)
}

fn tell_bindings(alloc: Global, out: &mut String, env: &Env) -> Result<(), NoMemory> {
    for i in 0..env.len() {
        if let Some((word, value)) = env.at(i) {
            tell_binding(alloc, out, word, value)?;
        }
    }
    Ok(())
}

/// Tells the path of a place, and the names bound there with their values.
pub fn tell_place(alloc: Global, out: &mut String, place: &Place) -> Result<(), NoMemory> {
    tell_path(out, place.path)?;
    tell_bindings(alloc, out, place.env)
}

/// Tells the paths that were read, in the order in which they were.
pub fn tell_reads(out: &mut String, reads: &Reads) -> Result<(), NoMemory> {
    for i in 0..reads.len() {
        if let Some((path, _)) = reads.at(i) {
            tell_path(out, path)?;
        }
    }
    Ok(())
}

fn add_names(out: &mut String, names: &Names) -> Result<(), NoMemory> {
    for i in 0..names.len() {
        if let Some(name) = names.at(i) {
            out.push_str(" ")?;
            add_bytes(out, name.as_slice())?;
        }
    }
    Ok(())
}

fn add_text(out: &mut String, kind: &str, bytes: &[u8]) -> Result<(), NoMemory> {
    out.push_str(kind)?;
    if !bytes.is_empty() {
        out.push_str(" ")?;
    }
    add_bytes(out, bytes)
}

fn kind_of(exec: bool) -> &'static str {
    if exec { " exec" } else { " file" }
}

fn add_node(out: &mut String, node: &Option<Node>) -> Result<(), NoMemory> {
    match node {
        Some(Node::File { bytes, exec }) => add_text(out, kind_of(*exec), bytes.as_slice()),
        Some(Node::Dir(names)) => {
            out.push_str(" dir")?;
            add_names(out, names)
        }
        Some(Node::Link(text)) => add_text(out, " link", text.as_slice()),
        None => {
            out.push_str(" none")?;
            Ok(())
        }
    }
}

fn tell_change(out: &mut String, path: &Path, node: &Option<Node>) -> Result<(), NoMemory> {
    out.push_str("> ")?;
    add_path(out, path)?;
    add_node(out, node)?;
    out.push_str("\n")?;
    Ok(())
}

/// Tells the own changes, in the order in which their paths were first changed.
pub fn tell_own(out: &mut String, overlay: &Overlay) -> Result<(), NoMemory> {
    for i in 0..overlay.len() {
        if let Some((path, node)) = overlay.at(i) {
            tell_change(out, path, node)?;
        }
    }
    Ok(())
}
