//! The machine's files and the standard output through the program's adapters, where files are slow, folders tell strange
//! names, and outputs fail: what no case over real folders shows. It prints what each call gives; `stdout` has what it must
//! print, written by hand.
#![tactic(auto)]

mod disk;
mod output;

use disk::{tell_held, tell_lists, tell_slow};
use output::{tell_lost, tell_stalled, tell_taken};
use std::io;
use std::thread::Threads;

fn tell_all<T: Threads>(rt: &HostRuntime, threads: &T, out: &mut String) -> io::Result<()> {
    tell_lists(rt, threads, out)?;
    tell_slow(rt, threads, out)?;
    tell_held(rt, threads, out)?;
    tell_taken(rt, out)?;
    tell_lost(rt, out)?;
    tell_stalled(0, out)?;
    tell_stalled(3, out)
}

fn main(rt: HostRuntime) -> io::Result<()> {
    let mut out = String::new(rt.alloc());
    tell_all(&rt, &rt, &mut out)?;
    rt.print(out)
}
