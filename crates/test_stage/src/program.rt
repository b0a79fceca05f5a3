//! The program that is tried, and how its runs end.

use crate::disks::empty_disk;
use crate::stage::Stage;
use crate::statuses::tell_status;
use fx_base::NoMemory;
use fx_command::Status;
use fx_durable::MemoryDisk;
use fx_outside::{MemoryHost, MemorySink, Words};
use fx_spec::Base;
use std::alloc::Global;
use std::sync::Arc;

/// The path at which a run writes its folder.
pub const OUT: &str = "out";

/// The program that is tried.
pub trait Program {
    /// Runs a command, and says how it ends.
    fn run(
        &self,
        alloc: Global,
        words: &Words,
        host: &mut MemoryHost,
        sink: &mut MemorySink,
        disk: &mut MemoryDisk,
    ) -> Status;

    /// What a run of the scripts begins with: the description at `spec`, the folder at `in`, and the scripts.
    fn base(&self, alloc: Global, stage: &mut Stage, scripts: &str) -> Result<Arc<Base>, Status>;
}

/// Runs a command over a disk, and tells its status and its line on standard error.
pub(crate) fn tell_end_over<P: Program>(
    program: &P,
    alloc: Global,
    words: &Words,
    host: &mut MemoryHost,
    sink: &mut MemorySink,
    disk: &mut MemoryDisk,
    out: &mut String,
) -> Result<(), NoMemory> {
    let status = program.run(alloc, words, host, sink, disk);
    tell_status(out, words, &status)
}

/// Runs a command over a disk of its own, and tells its status and its line on standard error.
pub(crate) fn tell_end<P: Program>(
    program: &P,
    alloc: Global,
    words: &Words,
    host: &mut MemoryHost,
    sink: &mut MemorySink,
    out: &mut String,
) -> Result<(), NoMemory> {
    let mut disk = empty_disk(alloc)?;
    tell_end_over(program, alloc, words, host, sink, &mut disk, out)
}

/// Runs a command over a disk of its own, and tells nothing of its end.
pub fn run_quietly<P: Program>(
    program: &P,
    alloc: Global,
    words: &Words,
    host: &mut MemoryHost,
    sink: &mut MemorySink,
) -> Result<(), NoMemory> {
    let mut disk = empty_disk(alloc)?;
    let _status = program.run(alloc, words, host, sink, &mut disk);
    Ok(())
}
