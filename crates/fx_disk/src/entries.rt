//! What a folder holds, looked at by several threads.
ghost use Rattle.std.specs.Prelude.{◌≡◌, ◌<◌, ◌≤◌, OnOk, IfOk, IfErr, vec_len};
ghost use Rattle.std.specs.List.{All};
ghost use Rattle.fx_disk.specs.Held.{names_of, path_in, IsHeldIn, IsLookOf};

use crate::ahead::{Held, read_ahead};
use fx_outside::{HostKind, HostText};
use std::alloc::{AllocError, Global};
use std::fs::{self, FileType, ReadDir};
use std::io::{self, ErrorKind};
use std::rt::Files;
use std::snapshot::Snapshot;
use std::thread::{Builder, Promise, PromisedHandle, Threads};

/// A folder of more entries is not listed.
pub const MOST_ENTRIES: usize = 1_000_000;

/// The entries of a folder are looked at by so many threads at most.
const THREADS: usize = 4;

/// A thread is worth so many entries.
const SMALLEST_PIECE: usize = 32;

/// The bytes of a thread's stack. A look takes a small part of them.
const STACK_BYTES: usize = 1_048_576;

/// An entry of a folder, and what it holds if it is a small file.
#[derive(Drop)]
pub struct Entry {
    pub name: HostText,
    pub kind: HostKind,
    pub held: Option<Held>,
}

/// The kind of an entry of this type of the system.
pub fn kind_of(kind: FileType) -> HostKind {
    if kind.is_file() {
        HostKind::File
    } else if kind.is_dir() {
        HostKind::Folder
    } else {
        HostKind::Other
    }
}

/// Adds a name, unless there are [`MOST_ENTRIES`].
fn add_name(alloc: Global, name: &str, found: &mut Vec<HostText>) -> io::Result<()>
    requires { vec_len found.old ≤ MOST_ENTRIES }
    ensures { OnOk result (vec_len found.new ≤ MOST_ENTRIES) }
{
    if found.len() == MOST_ENTRIES {
        return Err(io::Error::from(ErrorKind::FileTooLarge));
    }
    let name = String::from_str(alloc, name)?;
    found.push(HostText::from_string(name))?;
    Ok(())
}

/// Adds the names in a folder, in no order.
fn add_names<R: Files + AllocGlobal + Clone + Drop>(
    alloc: Global,
    folder: &mut ReadDir<R>,
    found: &mut Vec<HostText>,
) -> io::Result<()>
    requires { vec_len found.old ≤ MOST_ENTRIES }
    ensures { OnOk result (vec_len found.new ≤ MOST_ENTRIES) }
{
    for entry in folder {
        add_name(alloc, entry?.file_name(), found)?;
    }
    Ok(())
}

/// The names in a folder, in order.
pub fn names_in<R: Files + AllocGlobal + Clone + Drop>(
    rt: &R,
    alloc: Global,
    folder: &str,
) -> io::Result<Vec<HostText>>
    ensures { IfOk result (λ names. vec_len names ≤ MOST_ENTRIES) }
{
    let mut found = Vec::new(alloc);
    add_names(alloc, &mut fs::read_dir(rt, folder)?, &mut found)?;
    found.sort_unstable_by(|a, b| a.as_str().cmp(b.as_str()));
    Ok(found)
}

/// The path of an entry of a folder.
fn path_in(alloc: Global, folder: &str, name: &HostText) -> Result<HostText, AllocError>
    ensures { IfOk result (λ path. path ≡ path_in folder.now name.now) }
{
    let name = name.as_str();
    let room = folder.len().saturating_add(name.len()).saturating_add(1);
    let mut path = String::with_capacity(alloc, room)?;
    path.push_str(folder)?;
    path.push_str("/")?;
    path.push_str(name)?;
    Ok(HostText::from_string(path))
}

/// Looks at an entry. A file is read if there is room for it, which is then taken.
fn look<R: Files>(
    rt: &R,
    alloc: Global,
    folder: &str,
    room: &mut usize,
    name: HostText,
) -> io::Result<Entry>
    ensures name { IfOk result (λ entry. entry.name ≡ name) }
    ensures held { IfOk result (IsHeldIn folder.now) }
{
    let path = path_in(alloc, folder, &name)?;
    let found = fs::symlink_metadata(rt, path.as_str())?;
    let kind = kind_of(found.file_type());
    let held = if kind == HostKind::File && found.len() <= *room as u64 {
        read_ahead(rt, alloc, path, found.len())
    } else {
        None
    };
    if let Some(held) = &held {
        *room = room.saturating_sub(held.size());
    }
    Ok(Entry { name, kind, held })
}

/// Looks at entries one after another. About so many bytes may be held of their files.
fn look_at_each<R: Files>(
    rt: &R,
    alloc: Global,
    folder: &str,
    mut room: usize,
    names: Vec<HostText>,
) -> io::Result<Vec<Entry>>
    ensures len { IfOk result (λ entries. vec_len entries ≡ vec_len names) }
    ensures names { IfOk result (λ entries. names_of entries.items ≡ names.items) }
    ensures held { IfOk result (λ entries. All (IsHeldIn folder.now) entries.items) }
{
    let mut entries = Vec::with_capacity(alloc, names.len())?;
    for name in names {
        entries.push(look(rt, alloc, folder, &mut room, name)?)?;
    }
    Ok(entries)
}

/// Names in a folder, whose entries are still to be looked at. About so many bytes may be held of their files.
#[derive(Drop)]
struct Task {
    machine: HostRuntime,
    folder: HostText,
    room: usize,
    names: Vec<HostText>,
}

/// That there is an entry for each name, in their order.
#[derive(Drop)]
struct AllOf(Snapshot<Task>);

impl Promise<io::Result<Vec<Entry>>> for AllOf {
    ghost use Rattle.std.specs.Prelude.{IfOk};
    ghost use Rattle.fx_disk.specs.Held.{IsLookOf};

    ghost kept_by = { λ promise found. IfOk found (IsLookOf promise.0.value) };
}

fn run(alloc: Global, task: Task) -> io::Result<Vec<Entry>>
    ensures { IfOk result (IsLookOf task) }
{
    let Task {
        machine,
        folder,
        room,
        names,
    } = task;
    look_at_each(&machine, alloc, folder.as_str(), room, names)
}

/// Begins to look at entries, in a thread of its own. Where none can be had, they are looked at at once.
fn begin<T: Threads>(
    threads: &T,
    alloc: Global,
    task: Task,
) -> Result<PromisedHandle<io::Result<Vec<Entry>>, AllOf>, io::Result<Vec<Entry>>>
    ensures begun { IfOk result (λ running. running.promise.0.value ≡ task) }
    ensures looked { IfErr result (λ found. IfOk found (IsLookOf task)) }
{
    let promise = AllOf(Snapshot::of(&task));
    let thread = Builder::new().stack_size(STACK_BYTES);
    match thread.spawn_with(threads, promise, move || run(alloc, task)) {
        Ok(running) => Ok(running),
        Err(refused) => Err((refused.value)()),
    }
}

/// Looks at a piece of the entries in a thread of its own, while those behind it are looked at likewise. The last piece is
/// looked at in this thread.
fn look_at<T: Threads>(
    machine: &HostRuntime,
    threads: &T,
    alloc: Global,
    folder: &str,
    room: usize,
    piece: usize,
    mut names: Vec<HostText>,
) -> io::Result<Vec<Entry>>
    requires { 0 < piece }
    ensures len { IfOk result (λ entries. vec_len entries ≡ vec_len names) }
    ensures names { IfOk result (λ entries. names_of entries.items ≡ names.items) }
    ensures held { IfOk result (λ entries. All (IsHeldIn folder.now) entries.items) }
{
    if names.len() <= piece {
        return look_at_each(machine, alloc, folder, room, names);
    }
    let behind = names.split_off(piece)?;
    let task = Task {
        machine: machine.clone()?,
        folder: HostText::from_string(String::from_str(alloc, folder)?),
        room,
        names,
    };
    let begun = begin(threads, alloc, task);
    let rest = look_at(machine, threads, alloc, folder, room, piece, behind);
    let first = match begun {
        Ok(running) => running.join(threads),
        Err(found) => found,
    };
    let mut entries = first?;
    entries.append(&mut rest?)?;
    Ok(entries)
}

/// The entries of these names in a folder. About so many bytes may be held of their files.
pub fn entries_of<T: Threads>(
    machine: &HostRuntime,
    threads: &T,
    alloc: Global,
    folder: &str,
    room: usize,
    names: Vec<HostText>,
) -> io::Result<Vec<Entry>>
    ensures len { IfOk result (λ entries. vec_len entries ≡ vec_len names) }
    ensures names { IfOk result (λ entries. names_of entries.items ≡ names.items) }
    ensures held { IfOk result (λ entries. All (IsHeldIn folder.now) entries.items) }
{
    let piece = names.len().div_ceil(THREADS).max(SMALLEST_PIECE);
    look_at(
        machine,
        threads,
        alloc,
        folder,
        room / THREADS,
        piece,
        names,
    )
}
