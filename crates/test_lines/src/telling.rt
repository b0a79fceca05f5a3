//! What is told of trees. Each line of it begins with `> `.

use crate::bytes::{tell, tell_bytes};
use crate::places::host_text;
use crate::sums::checksum;
use fx_base::NoMemory;
use fx_outside::{Host, HostFault, HostKind, HostText, Listing, MemoryHost, Standing};
use std::alloc::Global;
use std::fmt::Write;

/// What is told of a file.
#[derive(Clone, Copy)]
enum Files {
    Bytes,
    Sizes,
}

/// How much is told of a tree.
#[derive(Clone, Copy)]
pub enum Detail {
    /// Each entry, and the bytes of each file.
    Whole,
    /// Each entry, and how many bytes each file has.
    Sizes,
    /// How many bytes would be told of the whole, and their checksum.
    Sum,
    Nothing,
}

/// The most entries that are told of a tree.
const ENTRY_LIMIT: usize = 10_000;

/// The most bytes that are told of a file.
const FILE_LIMIT: usize = 1_048_576;

/// What stands at a path. A call that fails is made once more.
fn standing(alloc: Global, host: &mut MemoryHost, path: &HostText) -> Result<Standing, HostFault> {
    match host.standing(alloc, path) {
        Ok(standing) => Ok(standing),
        Err(_) => host.standing(alloc, path),
    }
}

/// What a folder holds. A call that fails is made once more.
fn listing(alloc: Global, host: &mut MemoryHost, path: &HostText) -> Result<Listing, HostFault> {
    match host.list(alloc, path) {
        Ok(names) => Ok(names),
        Err(_) => host.list(alloc, path),
    }
}

/// Adds the next bytes of a file, and answers how many there were.
fn add_piece(
    alloc: Global,
    host: &mut MemoryHost,
    path: &HostText,
    bytes: &mut Vec<u8>,
) -> Result<usize, HostFault> {
    let mut buffer = [0u8; 1024];
    let from = bytes.len() as u64;
    let count = match host.read(alloc, path, from, &mut buffer) {
        Ok(count) => count,
        Err(_) => host.read(alloc, path, from, &mut buffer)?,
    };
    bytes.extend_from_slice(&buffer[..count])?;
    Ok(count)
}

/// The bytes of a file, read to its end.
fn bytes_at(alloc: Global, host: &mut MemoryHost, path: &HostText) -> Result<Vec<u8>, HostFault> {
    let mut bytes = Vec::new(alloc);
    for _ in 0..FILE_LIMIT {
        if add_piece(alloc, host, path, &mut bytes)? == 0 {
            break;
        }
    }
    Ok(bytes)
}

/// Tells a file's path and its bytes.
fn tell_bytes_of(
    alloc: Global,
    host: &mut MemoryHost,
    path: &HostText,
    out: &mut String,
) -> Result<(), NoMemory> {
    tell(out, path.as_str())?;
    match bytes_at(alloc, host, path) {
        Ok(bytes) => tell_bytes(out, &bytes),
        Err(_) => tell(out, "Failed"),
    }
}

/// Tells a file's path and how many bytes it has.
fn tell_size_of(
    alloc: Global,
    host: &mut MemoryHost,
    path: &HostText,
    out: &mut String,
) -> Result<(), NoMemory> {
    match bytes_at(alloc, host, path) {
        Ok(bytes) => writeln!(out, "> {} {}", path.as_str(), bytes.len())?,
        Err(_) => writeln!(out, "> {} Failed", path.as_str())?,
    }
    Ok(())
}

fn tell_file(
    alloc: Global,
    host: &mut MemoryHost,
    files: Files,
    path: &HostText,
    out: &mut String,
) -> Result<(), NoMemory> {
    match files {
        Files::Bytes => tell_bytes_of(alloc, host, path, out),
        Files::Sizes => tell_size_of(alloc, host, path, out),
    }
}

/// Adds the paths of what a folder holds, the last first.
fn add_paths(
    alloc: Global,
    folder: &HostText,
    names: &Listing,
    left: &mut Vec<HostText>,
) -> Result<(), NoMemory> {
    for i in (0..names.len()).rev() {
        if let Some((name, _)) = names.at(i) {
            let path = format!(in alloc; "{}/{}", folder.as_str(), name.as_str())?;
            left.push(HostText::from_string(path))?;
        }
    }
    Ok(())
}

fn tell_folder_at(
    alloc: Global,
    host: &mut MemoryHost,
    path: &HostText,
    left: &mut Vec<HostText>,
    out: &mut String,
) -> Result<(), NoMemory> {
    writeln!(out, "> {}/", path.as_str())?;
    match listing(alloc, host, path) {
        Ok(names) => add_paths(alloc, path, &names, left),
        Err(_) => tell(out, "Failed"),
    }
}

/// Tells an entry, and adds the paths of what it holds.
fn tell_entry(
    alloc: Global,
    host: &mut MemoryHost,
    files: Files,
    path: &HostText,
    left: &mut Vec<HostText>,
    out: &mut String,
) -> Result<(), NoMemory> {
    match standing(alloc, host, path) {
        Ok(Standing::Is(HostKind::File)) => tell_file(alloc, host, files, path, out),
        Ok(Standing::Is(HostKind::Folder)) => tell_folder_at(alloc, host, path, left, out),
        Ok(Standing::Is(HostKind::Other)) => {
            writeln!(out, "> other {}", path.as_str())?;
            Ok(())
        }
        Ok(Standing::Absent) => {
            writeln!(out, "> no {}", path.as_str())?;
            Ok(())
        }
        Err(_) => tell(out, "Failed"),
    }
}

/// Tells the entry at a path and all below it, of files what is asked for.
fn tell_entries(
    alloc: Global,
    host: &mut MemoryHost,
    files: Files,
    path: &str,
    out: &mut String,
) -> Result<(), NoMemory> {
    let mut left = Vec::new(alloc);
    left.push(host_text(alloc, path)?)?;
    for _ in 0..ENTRY_LIMIT {
        let Some(path) = left.pop() else { break };
        tell_entry(alloc, host, files, &path, &mut left, out)?;
    }
    Ok(())
}

/// Tells the entry at a path and all below it.
pub fn tell_tree(
    alloc: Global,
    host: &mut MemoryHost,
    path: &str,
    out: &mut String,
) -> Result<(), NoMemory> {
    tell_entries(alloc, host, Files::Bytes, path, out)
}

/// Tells how many bytes would be told of the entry at a path and of all below it, and their checksum.
fn tell_sum(
    alloc: Global,
    host: &mut MemoryHost,
    path: &str,
    out: &mut String,
) -> Result<(), NoMemory> {
    let mut told = String::new(alloc);
    tell_tree(alloc, host, path, &mut told)?;
    let bytes = told.as_str().as_bytes();
    let sum = checksum(bytes);
    writeln!(out, "> {path}: {} bytes, checksum {sum:08x}", bytes.len())?;
    Ok(())
}

/// Tells what stands at a path, in so much detail.
pub fn tell_left(
    alloc: Global,
    host: &mut MemoryHost,
    detail: Detail,
    path: &str,
    out: &mut String,
) -> Result<(), NoMemory> {
    match detail {
        Detail::Whole => tell_entries(alloc, host, Files::Bytes, path, out),
        Detail::Sizes => tell_entries(alloc, host, Files::Sizes, path, out),
        Detail::Sum => tell_sum(alloc, host, path, out),
        Detail::Nothing => Ok(()),
    }
}
