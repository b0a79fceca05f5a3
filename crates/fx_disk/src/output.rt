//! The standard output, as a sink.
ghost use Rattle.std.specs.Prelude.{◌≡◌, ◌≤◌, None, IfOk, length};

use fx_outside::{Sink, SinkFailed};
use std::io::{self, ErrorKind};

/// The standard output. It tells nothing of what was written, and counts each error and each write of nothing.
#[derive(Drop)]
pub struct Output<'a, P: Print> {
    to: &'a P,
    faults: u64,
}

/// One write, tried again where a signal interrupts it.
fn write_some<P: Print>(to: &P, bytes: &[u8]) -> io::Result<usize>
    ensures { IfOk result (λ count. count ≤ length bytes.now) }
{
    for _ in 0..u64::MAX {
        match to.write_some(bytes) {
            Ok(count) => return Ok(count),
            Err(error) => {
                if error.kind() != ErrorKind::Interrupted {
                    return Err(error);
                }
            }
        }
    }
    Err(io::Error::from(ErrorKind::Interrupted))
}

impl<'a, P: Print> Output<'a, P> {
    /// The standard output of `to`, with no error counted yet.
    pub fn new(to: &'a P) -> Output<'a, P>
        ensures { result.faults ≡ 0 }
    {
        Output { to, faults: 0 }
    }

    /// How often it has failed.
    pub fn faults(&self) -> u64
        ensures { result ≡ self.now.faults }
    {
        self.faults
    }
}

impl<P: Print> Sink for Output<'_, P> {
    ghost view = { λ output. record { written = None; faults = output.faults } };

    fn write(&mut self, bytes: &[u8]) -> Result<usize, SinkFailed> {
        match write_some(self.to, bytes) {
            Ok(count) if count > 0 => Ok(count),
            _ => {
                self.faults = self.faults.saturating_add(1);
                Err(SinkFailed)
            }
        }
    }
}
