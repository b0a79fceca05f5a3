//! Readers of a filestore.
ghost use Rattle.std.specs.Prelude.{◌≡◌, [], IfOk, IfErr, OnErr};
ghost use Rattle.fx_view.specs.Meaning.{Meaning};
ghost use Rattle.fx_view.specs.Answers.{IsReadOf, NeedsIt};
ghost use Rattle.fx_view.specs.declared.reader.Stop.TheVariants.{NoMemory as OutOfMemory};

use crate::reads::Reads;
use fx_base::NoMemory;
use fx_store::{Node, Path};
use std::alloc::{AllocError, AllocFailed, Global};

/// Why an attempt goes no further for now.
#[derive(Drop)]
pub enum Stop {
    /// Nothing is known of this path yet.
    Needs(Path),
    NoMemory,
}

impl From<NoMemory> for Stop {
    ghost from_gives = { λ _ stop. stop ≡ OutOfMemory };

    fn from(_: NoMemory) -> Stop {
        Stop::NoMemory
    }
}

impl From<AllocError> for Stop {
    ghost from_gives = { λ _ stop. stop ≡ OutOfMemory };

    fn from(_: AllocError) -> Stop {
        Stop::NoMemory
    }
}

impl<T: Drop> From<AllocFailed<T>> for Stop {
    ghost from_gives = { λ _ stop. stop ≡ OutOfMemory };

    fn from(refused: AllocFailed<T>) -> Stop {
        drop(refused);
        Stop::NoMemory
    }
}

/// What an attempt reads a filestore through. It keeps what was read: a path that was read once is answered the same for
/// ever after.
///
/// `meaning.reads` is what was read, `meaning.complete` whether every path can be read, and `meaning.vouches start now reads`
/// what the reader vouches for: how these reads stand to the reader as it was at some start and as it is now.
pub trait Reader {
    ghost meaning: { Meaning Self };

    /// What stands at a path, a node or none. The reads are then those from before, with this path added where it was
    /// missing. `Needs` comes only from a reader that is not complete, names the path, and only where it was not read.
    /// After a refusal the reads are as before.
    fn read(&mut self, alloc: Global, path: &Path) -> Result<Option<Node>, Stop>
        ensures read { IfOk result
            (IsReadOf (meaning.reads self.old) (meaning.reads self.new) path.now) }
        ensures stop { OnErr result (meaning.reads self.new ≡ meaning.reads self.old) }
        ensures needs { IfErr result
            (NeedsIt (meaning.complete self.old) (meaning.reads self.old) path.now) }
        ensures complete { meaning.complete self.new ≡ meaning.complete self.old }
        ensures vouched { (start : Self) → meaning.vouches start self.old (meaning.reads self.old)
            → meaning.vouches start self.new (meaning.reads self.new) };

    /// What was read.
    fn reads(&self) -> &Reads
        ensures { result.now ≡ meaning.reads self.now };

    /// The reads; the reader then has none.
    fn take_reads(&mut self, alloc: Global) -> Reads
        ensures taken { result ≡ meaning.reads self.old }
        ensures none { meaning.reads self.new ≡ [] }
        ensures complete { meaning.complete self.new ≡ meaning.complete self.old }
        ensures vouched { (start : Self) → meaning.vouches start self.old (meaning.reads self.old)
            → meaning.vouches start self.new result };

    ghost begins: { (reader : Self) → meaning.vouches reader reader (meaning.reads reader) };
}
