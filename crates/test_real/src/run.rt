//! Runs of the program.

use crate::stage::{PRINTED, SAID, Stage};
use crate::telling::tell_text;
use fx_base::NoMemory;
use fx_program::program;
use std::fmt::Write;
use std::fs::{self, File};
use std::io;
use std::process::{ExitCode, Termination};
use std::sync::Wait;
use std::thread::Threads;
use test_lines::tell;

/// The number of a code.
fn number_of(code: ExitCode) -> u8 {
    for number in 0..u8::MAX {
        if ExitCode::from(number) == code {
            return number;
        }
    }
    u8::MAX
}

/// Makes the empty files of a run's output and lines.
fn clear(rt: &HostRuntime) -> io::Result<()> {
    File::create(rt, PRINTED)?;
    File::create(rt, SAID)?;
    Ok(())
}

/// The number of the program's code.
fn code_of<T: Clone + Threads + Wait + Sync>(stage: &Stage<T>) -> u8 {
    number_of(program(stage, stage.rt).report(stage))
}

fn tell_lines(said: &str, out: &mut String) -> Result<(), NoMemory> {
    for line in said.lines() {
        writeln!(out, "> said {line}")?;
    }
    Ok(())
}

/// Tells the lines that were said on standard error.
fn tell_said(rt: &HostRuntime, out: &mut String) -> Result<(), NoMemory> {
    match fs::read_to_string(rt, SAID) {
        Ok(said) => tell_lines(said.as_str(), out),
        Err(_) => tell(out, "not read"),
    }
}

/// Runs the program, and tells its code, what it printed, and its lines on standard error.
pub fn tell_run<T: Clone + Threads + Wait + Sync>(
    stage: &Stage<T>,
    out: &mut String,
) -> Result<(), NoMemory> {
    if clear(stage.rt).is_err() {
        return tell(out, "not cleared");
    }
    let number = code_of(stage);
    writeln!(out, "> status {number}")?;
    tell_text(stage.rt, PRINTED, out)?;
    tell_said(stage.rt, out)
}
