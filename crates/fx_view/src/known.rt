//! A reader over what is known already.
ghost use Rattle.std.specs.Prelude.{◌≡◌, false, refl};

use crate::reader::{Reader, Stop};
use crate::reads::Reads;
use fx_store::{Node, Path};
use std::alloc::Global;

/// A reader that answers from its reads, asks for every other path, and adds none. It vouches for the reads that it has at
/// the start, and for these alone.
pub struct Known {
    pub reads: Reads,
}

/// It is written out, so that its parts are dropped in this crate alone.
impl Drop for Known {
    fn drop(self) {
        let Known { reads: _reads } = self;
    }
}

impl Known {
    /// A reader that knows these reads.
    pub fn new(reads: Reads) -> Known
        ensures { result.reads ≡ reads }
    {
        Known { reads }
    }
}

impl Reader for Known {
    ghost meaning = { record {
      reads = λ k. k.reads;
      complete = λ _. false;
      vouches = λ start now reads. reads ≡ start.reads;
    } };

    fn read(&mut self, alloc: Global, path: &Path) -> Result<Option<Node>, Stop> {
        match self.reads.get(path) {
            Some((node, _)) => {
                let node = node.clone()?;
                Ok(node)
            }
            None => {
                let path = path.copy(alloc)?;
                Err(Stop::Needs(path))
            }
        }
    }

    fn reads(&self) -> &Reads {
        &self.reads
    }

    fn take_reads(&mut self, alloc: Global) -> Reads {
        self.reads.take(alloc)
    }

    ghost begins = { λ reader. refl };
}
