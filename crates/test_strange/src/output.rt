//! Outputs that fail or take little.

use fx_disk::Output;
use fx_outside::Sink;
use std::cell::Cell;
use std::fmt::Display;
use std::fs::File;
use std::io::{self, ErrorKind};
use std::os::unix::fs::FileExt;

/// Prints to a file of the machine.
#[derive(Drop)]
struct Device<F: FileExt> {
    file: F,
}

impl<F: FileExt> Print for Device<F> {
    fn print<D: Display + Drop>(&self, _value: D) -> io::Result<()> {
        Err(io::Error::from(ErrorKind::Unsupported))
    }

    fn println<D: Display + Drop>(&self, _value: D) -> io::Result<()> {
        Err(io::Error::from(ErrorKind::Unsupported))
    }

    fn write_all(&self, bytes: &[u8]) -> io::Result<()> {
        self.file.write_all_at(bytes, 0)
    }
}

/// Takes nothing of what is printed, and is interrupted at its first call.
#[derive(Drop)]
struct Stalled {
    is_begun: Cell<bool>,
    count: usize,
}

impl Print for Stalled {
    fn print<D: Display + Drop>(&self, _value: D) -> io::Result<()> {
        Ok(())
    }

    fn println<D: Display + Drop>(&self, _value: D) -> io::Result<()> {
        Ok(())
    }

    fn write_all(&self, _bytes: &[u8]) -> io::Result<()> {
        Ok(())
    }

    fn write_some(&self, bytes: &[u8]) -> io::Result<usize> {
        if self.is_begun.get() {
            Ok(self.count.min(bytes.len()))
        } else {
            self.is_begun.set(true);
            Err(io::Error::from(ErrorKind::Interrupted))
        }
    }
}

/// Tells what is taken of a line that goes to the standard output.
pub fn tell_taken(rt: &HostRuntime, out: &mut String) -> io::Result<()> {
    let mut output = Output::new(rt);
    let taken = output.write(b"taken\n");
    let faults = output.faults();
    writeln!(out, "standard output: {taken:?}, faults {faults}")?;
    Ok(())
}

/// Tells what is taken of a line that goes to a file which can't be written.
pub fn tell_lost(rt: &HostRuntime, out: &mut String) -> io::Result<()> {
    File::create_new(rt, "read-only")?;
    let device = Device {
        file: File::open(rt, "read-only")?,
    };
    let mut output = Output::new(&device);
    let taken = output.write(b"lost\n");
    let faults = output.faults();
    writeln!(out, "read-only: {taken:?}, faults {faults}")?;
    Ok(())
}

/// Tells what is taken of a line where the first call is interrupted and each takes so many bytes.
pub fn tell_stalled(count: usize, out: &mut String) -> io::Result<()> {
    let stalled = Stalled {
        is_begun: Cell::new(false),
        count,
    };
    let mut output = Output::new(&stalled);
    let taken = output.write(b"part\n");
    let faults = output.faults();
    writeln!(out, "stalled at {count}: {taken:?}, faults {faults}")?;
    Ok(())
}
