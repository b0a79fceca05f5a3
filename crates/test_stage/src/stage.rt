//! What a case sets up: a host and a disk, the calls on them that are to fail, and the sink that a run prints to.

use crate::disks::{disk_of, empty_disk};
use fx_base::NoMemory;
use fx_durable::MemoryDisk;
use fx_outside::{HostKind, MemoryHost, MemorySink};
use std::alloc::Global;
use test_lines::{Detail, put, unescaped};

/// The room of a sink where a case says nothing of it.
const ROOM: u64 = 100_000;

/// The most room of a sink.
const ROOM_LIMIT: u64 = 1_000_000;

/// An entry as a case placed it.
#[derive(Drop)]
struct Placed {
    path: String,
    kind: HostKind,
    bytes: Vec<u8>,
}

/// The stage of a case. The host and the disk are kept from one line to the next, and a sink is made anew for each run.
#[derive(Drop)]
pub struct Stage {
    /// The host of all lines of the case.
    pub host: MemoryHost,
    /// How much is told of what a run leaves.
    pub detail: Detail,
    placed: Vec<Placed>,
    room: u64,
    failing_writes: Vec<u64>,
    disk: Option<MemoryDisk>,
}

fn detail_of(name: &str) -> Detail {
    match name {
        "sizes" => Detail::Sizes,
        "sum" => Detail::Sum,
        "nothing" => Detail::Nothing,
        _ => Detail::Whole,
    }
}

impl Stage {
    /// An empty tree, and nothing that fails.
    pub fn new(alloc: Global) -> Stage {
        Stage {
            host: MemoryHost::new(alloc),
            detail: Detail::Whole,
            placed: Vec::new(alloc),
            room: ROOM,
            failing_writes: Vec::new(alloc),
            disk: None,
        }
    }

    /// Puts an entry, and says whether it did.
    pub fn put(
        &mut self,
        alloc: Global,
        path: &str,
        kind: HostKind,
        text: &str,
    ) -> Result<bool, NoMemory> {
        let bytes = unescaped(alloc, text)?;
        let done = put(alloc, &mut self.host, path, kind, &bytes)?;
        let path = String::from_str(alloc, path)?;
        self.placed.push(Placed { path, kind, bytes })?;
        Ok(done)
    }

    /// Puts a file whose text ends its last line.
    pub fn put_line(&mut self, alloc: Global, path: &str, text: &str) -> Result<bool, NoMemory> {
        let line = format!(in alloc; "{text}\\n")?;
        self.put(alloc, path, HostKind::File, line.as_str())
    }

    /// Has each further sink take so many bytes.
    pub fn set_room(&mut self, room: u64) {
        self.room = room.min(ROOM_LIMIT);
    }

    /// Has what a run leaves be told in the detail of this name.
    pub fn set_detail(&mut self, name: &str) {
        self.detail = detail_of(name);
    }

    /// Has a write of each further sink fail.
    pub fn fail_write(&mut self, call: u64) -> Result<(), NoMemory> {
        self.failing_writes.push(call)?;
        Ok(())
    }

    /// The disk of the case, which is put back behind a run.
    pub fn take_disk(&mut self, alloc: Global) -> Result<MemoryDisk, NoMemory> {
        match self.disk.take() {
            Some(disk) => Ok(disk),
            None => empty_disk(alloc),
        }
    }

    /// Puts a disk back.
    pub fn put_disk(&mut self, disk: MemoryDisk) {
        self.disk = Some(disk);
    }

    /// Has the file on the disk have these bytes.
    pub fn put_image(&mut self, alloc: Global, text: &str) -> Result<(), NoMemory> {
        let image = unescaped(alloc, text)?;
        self.put_disk(disk_of(alloc, &image)?);
        Ok(())
    }

    /// Has a call on the disk fail.
    pub fn fail_disk(&mut self, alloc: Global, call: u64) -> Result<(), NoMemory> {
        let mut disk = self.take_disk(alloc)?;
        disk.fail(call)?;
        self.put_disk(disk);
        Ok(())
    }

    /// A host with all that was put, at which nothing fails and nothing was called yet.
    pub fn fresh_host(&self, alloc: Global) -> Result<MemoryHost, NoMemory> {
        let mut host = MemoryHost::new(alloc);
        for entry in &self.placed {
            put(
                alloc,
                &mut host,
                entry.path.as_str(),
                entry.kind,
                &entry.bytes,
            )?;
        }
        Ok(host)
    }

    /// A host with all that was put, at which this call fails.
    pub fn failing_host(&self, alloc: Global, call: u64) -> Result<MemoryHost, NoMemory> {
        let mut host = self.fresh_host(alloc)?;
        host.fail(alloc, call)?;
        Ok(host)
    }

    /// An empty sink.
    pub fn fresh_sink(&self, alloc: Global) -> Result<MemorySink, NoMemory> {
        self.sink_of(alloc, self.room)
    }

    /// An empty sink that takes so many bytes.
    pub fn sink_of(&self, alloc: Global, room: u64) -> Result<MemorySink, NoMemory> {
        let mut sink = MemorySink::new(alloc, room.min(ROOM_LIMIT))?;
        for call in &self.failing_writes {
            sink.fail(alloc, *call)?;
        }
        Ok(sink)
    }
}
