//! Calls on the machine's files as a host.

use fx_base::NoMemory;
use fx_disk::Disk;
use std::fmt::Write;
use std::thread::Threads;
use test_lines::{Call, tell_on};

/// Makes a call on a new host, so that one fault at most is counted, and tells what it gives.
pub fn tell_call<T: Threads>(
    rt: &HostRuntime,
    threads: &T,
    call: Call,
    rest: &str,
    out: &mut String,
) -> Result<(), NoMemory> {
    let mut disk = Disk::new(rt.clone()?, rt.clone()?, threads);
    if let Some(fault) = tell_on(rt.alloc(), &mut disk, call, rest, out)? {
        let faults = disk.faults();
        writeln!(out, "> {fault:?}, faults {faults}")?;
    }
    Ok(())
}
