//! A reader of the filestore as it stands in a log.
ghost use Rattle.std.specs.Prelude.{◌≡◌, true, refl};
ghost use Rattle.fx_board.specs.Present.{IsNowIn};

use crate::board::Board;
use fx_store::{Node, Path};
use fx_view::{Reader, Reads, Stop};
use std::alloc::Global;

/// A reader that answers from its reads, and reads every other path as it stands in the log. It vouches that the log is the
/// one from the start, and that what was read since stands there, and was looked at behind all entries.
#[derive(Drop)]
pub struct Present<'a> {
    pub board: &'a Board,
    pub reads: Reads,
}

impl<'a> Present<'a> {
    /// Some reads, of which the log may be asked for more.
    pub fn new(board: &'a Board, reads: Reads) -> Present<'a>
        ensures board { result.board.now ≡ board.now }
        ensures reads { result.reads ≡ reads }
    {
        Present { board, reads }
    }

    /// The reads.
    pub fn into_reads(self) -> Reads
        ensures { result ≡ self.entry.reads }
    {
        let Present { board: _, reads } = self;
        reads
    }
}

impl Reader for Present<'_> {
    ghost meaning = { record {
      reads = λ p. p.reads;
      complete = λ _. true;
      vouches = λ start now reads. (now.board.now ≡ start.board.now)
          × IsNowIn start.board.now start.reads reads;
    } };

    fn read(&mut self, alloc: Global, path: &Path) -> Result<Option<Node>, Stop> {
        if let Some((node, _)) = self.reads.get(path) {
            return Ok(node.clone()?);
        }
        let (node, position) = self.board.look(alloc, path)?;
        let kept = self.reads.keep(alloc, path, node, position)?;
        Ok(kept)
    }

    fn reads(&self) -> &Reads {
        &self.reads
    }

    fn take_reads(&mut self, alloc: Global) -> Reads {
        self.reads.take(alloc)
    }

    ghost use Rattle.fx_board.specs.Present.{nothing_new};

    ghost begins = { λ reader. (refl, nothing_new reader.board.now reader.reads) };
}
