//! A sink for output.
ghost use Rattle.std.specs.Prelude.{◌<◌, length};
ghost use Rattle.fx_outside.specs.Sink.{SinkView, Writes, TakesSome, HasFault};

use thiserror::Error;

/// A sink failed.
#[derive(Clone, Copy, Debug, PartialEq, Eq, Error)]
#[error("the sink failed")]
pub struct SinkFailed;

/// Takes bytes in pieces. A sink may tell what was written to it.
pub trait Sink {
    /// The bytes written so far, if it tells them, and how often it has failed.
    ghost view: { Self → SinkView };

    /// Takes a front of the piece, of at least one byte, and answers its length.
    fn write(&mut self, bytes: &[u8]) -> Result<usize, SinkFailed>
        requires { 0 < length bytes.now }
        ensures taken { TakesSome bytes.now result }
        ensures written { Writes bytes.now (view self.old) (view self.new) result }
        ensures cause { HasFault (view self.old) (view self.new) result };
}
