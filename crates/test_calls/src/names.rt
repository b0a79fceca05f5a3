//! Names, paths and link texts.

use fx_base::NoMemory;
use fx_store::{LinkText, Name, Path, PathFault};
use std::alloc::Global;
use std::fmt::Write;
use test_lines::{add_bytes, tell, unescaped};

/// What a text is read as.
#[derive(Clone, Copy)]
pub enum Form {
    Name,
    Path,
    /// Names with a slash between them.
    Focus,
    Link,
}

fn tell_fault(out: &mut String, fault: PathFault) -> Result<(), NoMemory> {
    writeln!(out, "> {fault:?}")?;
    Ok(())
}

/// Tells the names of a path, each behind a slash.
fn tell_path(out: &mut String, path: &Path) -> Result<(), NoMemory> {
    out.push_str(if path.len() == 0 { "> /" } else { "> " })?;
    for i in 0..path.len() {
        if let Some(name) = path.name(i) {
            out.push_str("/")?;
            add_bytes(out, name.as_slice())?;
        }
    }
    out.push_str("\n")?;
    Ok(())
}

fn tell_text(out: &mut String, bytes: &[u8]) -> Result<(), NoMemory> {
    out.push_str("> ")?;
    add_bytes(out, bytes)?;
    out.push_str("\n")?;
    Ok(())
}

fn tell_name(alloc: Global, bytes: &[u8], out: &mut String) -> Result<(), NoMemory> {
    match Name::read(alloc, bytes) {
        Ok(name) => tell_text(out, name.as_slice()),
        Err(fault) => tell_fault(out, fault),
    }
}

fn tell_link(alloc: Global, bytes: &[u8], out: &mut String) -> Result<(), NoMemory> {
    match LinkText::read(alloc, bytes) {
        Ok(link) => tell_text(out, link.as_slice()),
        Err(fault) => tell_fault(out, fault),
    }
}

fn tell_read(out: &mut String, path: Result<Path, PathFault>) -> Result<(), NoMemory> {
    match path {
        Ok(path) => tell_path(out, &path),
        Err(fault) => tell_fault(out, fault),
    }
}

/// Tells what a text is read as.
pub fn tell_form(alloc: Global, form: Form, text: &str, out: &mut String) -> Result<(), NoMemory> {
    let bytes = unescaped(alloc, text)?;
    match form {
        Form::Name => tell_name(alloc, &bytes, out),
        Form::Path => tell_read(out, Path::read(alloc, &bytes)),
        Form::Focus => tell_read(out, Path::root(alloc).extend(alloc, &bytes)),
        Form::Link => tell_link(alloc, &bytes, out),
    }
}

fn joined(alloc: Global, path: &[u8], name: &[u8]) -> Result<Path, PathFault> {
    let path = Path::read(alloc, path)?;
    let name = Name::read(alloc, name)?;
    path.join(alloc, &name)
}

/// Tells a path and a name behind it.
pub fn tell_joined(
    alloc: Global,
    path: &str,
    name: &str,
    out: &mut String,
) -> Result<(), NoMemory> {
    let path = unescaped(alloc, path)?;
    let name = unescaped(alloc, name)?;
    tell_read(out, joined(alloc, &path, &name))
}

fn order_of(alloc: Global, first: &str, second: &str) -> Result<&'static str, PathFault> {
    let first = Path::read(alloc, first.as_bytes())?;
    let second = Path::read(alloc, second.as_bytes())?;
    if first.compare(&second).is_lt() {
        Ok("less")
    } else if first.compare(&second).is_eq() {
        Ok("equal")
    } else {
        Ok("greater")
    }
}

/// Tells how a path stands to another.
pub fn tell_order(
    alloc: Global,
    first: &str,
    second: &str,
    out: &mut String,
) -> Result<(), NoMemory> {
    match order_of(alloc, first, second) {
        Ok(order) => tell(out, order),
        Err(fault) => tell_fault(out, fault),
    }
}
