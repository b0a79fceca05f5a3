//! Calls on a host, and on the sink in memory.

use crate::bytes::{tell, tell_bytes};
use crate::escapes::unescaped;
use crate::pieces::{number, split_word};
use crate::places::host_text;
use fx_base::NoMemory;
use fx_outside::{Host, HostFault, HostText, Listing, MemoryHost, MemorySink, Sink};
use std::alloc::Global;
use std::fmt::Write;

/// A call on a host.
#[derive(Clone, Copy)]
pub enum Call {
    Standing,
    List,
    /// A listing in which each name is looked up.
    Find,
    Read,
    MakeDir,
    WriteNew,
}

/// Tells what stands at a path.
fn tell_standing<H: Host>(
    alloc: Global,
    host: &mut H,
    path: &HostText,
    out: &mut String,
) -> Result<Option<HostFault>, NoMemory> {
    match host.standing(alloc, path) {
        Ok(standing) => {
            writeln!(out, "> {standing:?}")?;
            Ok(None)
        }
        Err(fault) => Ok(Some(fault)),
    }
}

/// Tells the kind of each name by its place, and, where names are looked up, whether it has this kind by its name.
fn tell_listing(out: &mut String, names: &Listing, finds: bool) -> Result<(), NoMemory> {
    for i in 0..names.len() {
        if let Some((name, kind)) = names.at(i) {
            write!(out, "> {} {kind:?}", name.as_str())?;
            if finds {
                write!(out, " {}", names.get(name) == Some(kind))?;
            }
            out.push_str("\n")?;
        }
    }
    Ok(())
}

/// Tells what a folder holds.
fn tell_list<H: Host>(
    alloc: Global,
    host: &mut H,
    path: &HostText,
    finds: bool,
    out: &mut String,
) -> Result<Option<HostFault>, NoMemory> {
    match host.list(alloc, path) {
        Ok(names) => {
            tell_listing(out, &names, finds)?;
            Ok(None)
        }
        Err(fault) => Ok(Some(fault)),
    }
}

/// Tells the bytes of a file from a place on, at most four.
fn tell_read<H: Host>(
    alloc: Global,
    host: &mut H,
    path: &HostText,
    from: u64,
    out: &mut String,
) -> Result<Option<HostFault>, NoMemory> {
    let mut buffer = [0u8; 4];
    match host.read(alloc, path, from, &mut buffer) {
        Ok(count) => {
            writeln!(out, "> {count}")?;
            tell_bytes(out, &buffer[..count])?;
            Ok(None)
        }
        Err(fault) => Ok(Some(fault)),
    }
}

fn tell_done(out: &mut String, done: Result<(), HostFault>) -> Result<Option<HostFault>, NoMemory> {
    match done {
        Ok(()) => {
            tell(out, "done")?;
            Ok(None)
        }
        Err(fault) => Ok(Some(fault)),
    }
}

/// Writes a new file, and tells whether that was done.
fn tell_write_new<H: Host>(
    alloc: Global,
    host: &mut H,
    path: &HostText,
    text: &str,
    out: &mut String,
) -> Result<Option<HostFault>, NoMemory> {
    let bytes = unescaped(alloc, text)?;
    let done = host.write_new(alloc, path, &bytes);
    tell_done(out, done)
}

fn tell_write(out: &mut String, sink: &mut MemorySink, piece: &str) -> Result<(), NoMemory> {
    let bytes = piece.as_bytes();
    if bytes.is_empty() {
        return tell(out, "nothing");
    }
    match sink.write(bytes) {
        Ok(count) => writeln!(out, "> {count}")?,
        Err(fault) => writeln!(out, "> {fault:?}")?,
    }
    Ok(())
}

/// Tells what a sink takes of each piece, and then all that it took.
pub fn tell_writes(sink: &mut MemorySink, pieces: &str, out: &mut String) -> Result<(), NoMemory> {
    for piece in pieces.split(' ') {
        tell_write(out, sink, piece)?;
    }
    tell_bytes(out, sink.written())
}

/// The path of a call, and what stands behind it.
fn parts(call: Call, rest: &str) -> (&str, &str) {
    match call {
        Call::Read => split_word(rest),
        Call::WriteNew => split_word(rest),
        _ => (rest, ""),
    }
}

/// Tells what a call on a host gives, and answers its fault.
pub fn tell_on<H: Host>(
    alloc: Global,
    host: &mut H,
    call: Call,
    rest: &str,
    out: &mut String,
) -> Result<Option<HostFault>, NoMemory> {
    let (path, text) = parts(call, rest);
    let path = host_text(alloc, path)?;
    match call {
        Call::Standing => tell_standing(alloc, host, &path, out),
        Call::List => tell_list(alloc, host, &path, false, out),
        Call::Find => tell_list(alloc, host, &path, true, out),
        Call::Read => tell_read(alloc, host, &path, u64::from(number(text)), out),
        Call::MakeDir => {
            let done = host.make_dir(alloc, &path);
            tell_done(out, done)
        }
        Call::WriteNew => tell_write_new(alloc, host, &path, text, out),
    }
}

/// Tells what a call on a host in memory gives.
pub fn tell_call(
    alloc: Global,
    host: &mut MemoryHost,
    call: Call,
    rest: &str,
    out: &mut String,
) -> Result<(), NoMemory> {
    if let Some(fault) = tell_on(alloc, host, call, rest, out)? {
        writeln!(out, "> {fault:?}")?;
    }
    Ok(())
}
