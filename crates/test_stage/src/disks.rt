//! The disk of a case, and what is told of it.

use fx_base::NoMemory;
use fx_durable::{Disk, DiskFailed, MemoryDisk};
use fx_outside::HostText;
use std::alloc::Global;
use std::fmt::Write;
use test_lines::host_text;

/// The path of the file on a case's disk.
pub(crate) const JOURNAL: &str = "journal";

/// How many bytes a disk takes.
const ROOM: u64 = 4_096;

/// How many calls a disk takes.
const CALLS: u64 = 512;

/// How many bytes a record of a journal has.
const RECORD: usize = 9;

/// A disk without a file.
pub(crate) fn empty_disk(alloc: Global) -> Result<MemoryDisk, NoMemory> {
    let path = host_text(alloc, JOURNAL)?;
    MemoryDisk::new(alloc, &path, ROOM, CALLS)
}

fn put_image(disk: &mut MemoryDisk, path: &HostText, image: &[u8]) -> Result<(), DiskFailed> {
    disk.choose(path)?;
    disk.write(0, image)?;
    disk.sync()
}

/// A disk whose file has these bytes, and nothing where they are too many.
pub(crate) fn disk_of(alloc: Global, image: &[u8]) -> Result<MemoryDisk, NoMemory> {
    let path = host_text(alloc, JOURNAL)?;
    let mut disk = empty_disk(alloc)?;
    let _ = put_image(&mut disk, &path, image);
    Ok(disk)
}

/// Adds the bytes of a record in hexadecimal: its gate, and its two numbers.
fn add_record(out: &mut String, record: &[u8]) -> Result<(), NoMemory> {
    for (i, byte) in record.iter().enumerate() {
        if i == 0 || i % 4 == 1 {
            out.push_str(" ")?;
        }
        write!(out, "{byte:02x}")?;
    }
    Ok(())
}

/// Tells the bytes of a disk's file, a record a line.
pub fn tell_disk(out: &mut String, disk: &MemoryDisk) -> Result<(), NoMemory> {
    for record in disk.bytes().chunks(RECORD) {
        out.push_str(">")?;
        add_record(out, record)?;
        out.push_str("\n")?;
    }
    Ok(())
}
