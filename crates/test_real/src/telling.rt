//! What is told of files and trees. Each line of it begins with `> `.

use fx_base::NoMemory;
use std::fmt::Write;
use std::fs::{self, DirEntry, FileType};
use std::io::{self, ErrorKind};
use test_lines::{tell, tell_bytes};

/// The most entries that are told of a tree.
const ENTRY_LIMIT: usize = 10_000;

/// Tells the lines of a file.
pub fn tell_text(rt: &HostRuntime, path: &str, out: &mut String) -> Result<(), NoMemory> {
    match fs::read(rt, path) {
        Ok(bytes) => tell_bytes(out, &bytes),
        Err(_) => tell(out, "not read"),
    }
}

fn tell_file(rt: &HostRuntime, path: &str, out: &mut String) -> Result<(), NoMemory> {
    tell(out, path)?;
    tell_text(rt, path, out)
}

/// Adds the path of an entry.
fn add_path(
    rt: &HostRuntime,
    folder: &str,
    entry: &DirEntry,
    paths: &mut Vec<String>,
) -> Result<(), NoMemory> {
    paths.push(format!(in rt.alloc(); "{folder}/{}", entry.file_name())?)?;
    Ok(())
}

/// Adds the paths of what a folder holds.
fn add_paths(rt: &HostRuntime, folder: &str, left: &mut Vec<String>) -> io::Result<()> {
    for entry in fs::read_dir(rt, folder)? {
        if add_path(rt, folder, &entry?, left).is_err() {
            return Err(io::Error::from(ErrorKind::OutOfMemory));
        }
    }
    Ok(())
}

/// Sorts the paths from a place on.
fn sort_last_first(paths: &mut Vec<String>, begin: usize) {
    if let Some(added) = paths.as_mut_slice().get_mut(begin..) {
        added.sort_unstable_by(|a, b| b.as_str().cmp(a.as_str()));
    }
}

/// Tells a folder, and adds the paths of what it holds, the last first.
fn tell_folder(
    rt: &HostRuntime,
    path: &str,
    left: &mut Vec<String>,
    out: &mut String,
) -> Result<(), NoMemory> {
    writeln!(out, "> {path}/")?;
    let begin = left.len();
    if add_paths(rt, path, left).is_err() {
        return tell(out, "not listed");
    }
    sort_last_first(left, begin);
    Ok(())
}

fn tell_kind(
    rt: &HostRuntime,
    path: &str,
    kind: FileType,
    left: &mut Vec<String>,
    out: &mut String,
) -> Result<(), NoMemory> {
    if kind.is_file() {
        return tell_file(rt, path, out);
    }
    if kind.is_dir() {
        return tell_folder(rt, path, left, out);
    }
    writeln!(out, "> other {path}")?;
    Ok(())
}

/// What kind of entry stands at a path, or why that is not known.
fn kind_at(rt: &HostRuntime, path: &str) -> Result<FileType, ErrorKind> {
    match fs::symlink_metadata(rt, path) {
        Ok(metadata) => Ok(metadata.file_type()),
        Err(error) => Err(error.kind()),
    }
}

/// Tells an entry, and adds the paths of what it holds.
fn tell_entry(
    rt: &HostRuntime,
    path: &str,
    left: &mut Vec<String>,
    out: &mut String,
) -> Result<(), NoMemory> {
    match kind_at(rt, path) {
        Ok(kind) => tell_kind(rt, path, kind, left, out),
        Err(ErrorKind::NotFound) => {
            writeln!(out, "> no {path}")?;
            Ok(())
        }
        Err(_) => tell(out, "not seen"),
    }
}

/// Tells the entry at a path and all below it.
pub fn tell_tree(rt: &HostRuntime, path: &str, out: &mut String) -> Result<(), NoMemory> {
    let mut left = Vec::new(rt.alloc());
    left.push(String::from_str(rt.alloc(), path)?)?;
    for _ in 0..ENTRY_LIMIT {
        let Some(path) = left.pop() else { break };
        tell_entry(rt, path.as_str(), &mut left, out)?;
    }
    Ok(())
}
