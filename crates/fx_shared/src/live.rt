//! A reader of a shared log.
ghost use Rattle.std.specs.Prelude.{◌≡◌, [], true, IfOk, OnErr, refl};
ghost use Rattle.fx_shared.specs.Passes.{HasSeenMore, IsLook};
ghost use Rattle.fx_shared.specs.Live.{AreInTurn, AreInTurn-prop, AreTrueOver, AreTrueOver-prop, Vouches, begins_to_vouch};

use crate::desk::Desk;
use fx_base::NoMemory;
use fx_store::{Node, Path};
use fx_view::{Reader, Reads, Stop};
use std::alloc::Global;

/// A reader over a shared log, through a desk that it owns. It looks once at each path that it has not read, and never
/// answers `Needs`.
///
/// It vouches for the following. Its reads are true for its pass, and were made one after another. The transaction is the
/// one from the start. So is the pass, with all that it had seen there and as many entries of its own. What was read since
/// was looked at after all that had been seen there.
#[derive(Drop)]
pub struct DeskReader<D: Desk> {
    desk: D,
    txn: u32,
    reads: Reads,
    pub ghost true_reads: { AreTrueOver (D.view desk) reads } by { AreTrueOver-prop (D.view desk) reads },
    pub ghost in_turn: { AreInTurn (D.view desk) reads } by { AreInTurn-prop (D.view desk) reads },
}

impl<D: Desk> DeskReader<D> {
    /// Nothing read yet, for a transaction of the pass's shell.
    pub fn over(alloc: Global, desk: D, txn: u32) -> DeskReader<D>
        ensures desk { result.desk ≡ desk }
        ensures txn { result.txn ≡ txn }
        ensures reads { result.reads ≡ [] }
    {
        DeskReader {
            desk,
            txn,
            reads: Reads::new(alloc),
        }
    }

    /// The desk, whose pass has seen all that was looked at.
    pub fn into_desk(self) -> D
        ensures { result ≡ self.desk }
    {
        let DeskReader { desk, reads, .. } = self;
        reads.let_go();
        desk
    }

    /// What stands at a path, and the position of the look. It is not read yet.
    fn look(&mut self, alloc: Global, path: &Path) -> Result<(Option<Node>, u64), NoMemory>
        ensures table { D.table self.new.desk ≡ D.table self.old.desk }
        ensures txn { self.new.txn ≡ self.old.txn }
        ensures more { HasSeenMore (D.view self.old.desk) (D.view self.new.desk) }
        ensures reads { self.new.reads ≡ self.old.reads }
        ensures look { IfOk result (IsLook (D.view self.new.desk) path.now) }
    {
        self.desk.look(alloc, self.txn, path)
    }
}

impl<D: Desk> Reader for DeskReader<D> {
    ghost use Rattle.std.specs.Prelude.{IfErr};
    ghost use Rattle.fx_view.specs.Reads.{IsRead};
    ghost use Rattle.fx_view.specs.Answers.{IsReadOf, NeedsIt};
    ghost use Rattle.fx_shared.specs.Live.{VouchesOn};

    ghost meaning = { record {
      reads = λ l. l.reads;
      complete = λ _. true;
      vouches = λ start now reads. (D.table now.desk ≡ D.table start.desk)
          × (now.txn ≡ start.txn)
          × Vouches (D.view start.desk) (D.view now.desk) start.reads reads;
    } };

    /// Of a path that was read before it only repeats what was read: no turn is taken, and nothing changes.
    fn read(&mut self, alloc: Global, path: &Path) -> Result<Option<Node>, Stop>
        ensures read { IfOk result (IsReadOf self.old.reads self.new.reads path.now) }
        ensures stop { OnErr result (self.new.reads ≡ self.old.reads) }
        ensures needs { IfErr result (NeedsIt true self.old.reads path.now) }
        ensures table { D.table self.new.desk ≡ D.table self.old.desk }
        ensures txn { self.new.txn ≡ self.old.txn }
        ensures vouched { VouchesOn (D.view self.old.desk) (D.view self.new.desk)
            self.old.reads self.new.reads }
        ensures again { IsRead self.old.reads path.now → self.new ≡ self.old }
    {
        if let Some((node, _)) = self.reads.get(path) {
            return Ok(node.clone()?);
        }
        let (node, position) = self.look(alloc, path)?;
        let kept = self.reads.keep(alloc, path, node, position)?;
        Ok(kept)
    }

    fn reads(&self) -> &Reads {
        &self.reads
    }

    fn take_reads(&mut self, alloc: Global) -> Reads {
        self.reads.take(alloc)
    }

    ghost begins = { λ reader.
        (refl, refl, begins_to_vouch (D.view reader.desk) reader.reads reader.true_reads reader.in_turn) };
}
