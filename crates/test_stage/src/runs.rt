//! Single runs of a program over a host, a sink and a disk in memory.

use crate::disks::empty_disk;
use crate::program::{OUT, Program, tell_end_over};
use crate::stage::Stage;
use fx_base::NoMemory;
use fx_durable::MemoryDisk;
use fx_outside::{MemoryHost, MemorySink, Words};
use std::alloc::Global;
use test_lines::{Detail, tell_bytes, tell_left, words_of};

/// Runs a command over a disk, and tells its status, its line on standard error, what it printed, and what stands at OUT.
fn tell_run_over<P: Program>(
    program: &P,
    alloc: Global,
    words: &Words,
    host: &mut MemoryHost,
    mut sink: MemorySink,
    disk: &mut MemoryDisk,
    detail: Detail,
    out: &mut String,
) -> Result<(), NoMemory> {
    tell_end_over(program, alloc, words, host, &mut sink, disk, out)?;
    tell_bytes(out, sink.written())?;
    tell_left(alloc, host, detail, OUT, out)
}

/// Runs a command over a disk of its own, and tells its status, its line on standard error, what it printed, and what stands
/// at OUT.
pub fn tell_run<P: Program>(
    program: &P,
    alloc: Global,
    words: &Words,
    host: &mut MemoryHost,
    sink: MemorySink,
    detail: Detail,
    out: &mut String,
) -> Result<(), NoMemory> {
    let mut disk = empty_disk(alloc)?;
    tell_run_over(program, alloc, words, host, sink, &mut disk, detail, out)
}

/// Runs a command over the host and the disk of a stage, and tells what it gives.
pub fn tell_top<P: Program>(
    program: &P,
    alloc: Global,
    stage: &mut Stage,
    line: &str,
    out: &mut String,
) -> Result<(), NoMemory> {
    let words = words_of(alloc, line)?;
    let sink = stage.fresh_sink(alloc)?;
    let mut disk = stage.take_disk(alloc)?;
    let detail = stage.detail;
    tell_run_over(
        program,
        alloc,
        &words,
        &mut stage.host,
        sink,
        &mut disk,
        detail,
        out,
    )?;
    stage.put_disk(disk);
    Ok(())
}
