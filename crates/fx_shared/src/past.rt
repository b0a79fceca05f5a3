//! A reader of the state of a shared log at the turn that opened it.
ghost use Rattle.std.specs.Prelude.{◌≡◌, ◌≤◌, [], true, false, Some, is_some, length, IfOk, OnErr, refl};
ghost use Rattle.fx_turn.specs.Seats.{view};
ghost use Rattle.fx_shared.specs.Passes.{HasSeenMore};
ghost use Rattle.fx_shared.specs.Shared.{IsPassOf, IsReadyPass};
ghost use Rattle.fx_shared.specs.Past.{AreAt, AreAt-prop, WasAt, VouchesAt, begins_to_vouch_at};

use crate::snaps::Snaps;
use crate::versioned::Versioned;
use fx_base::NoMemory;
use fx_outside::{Gate, Moment};
use fx_store::{Node, Path};
use fx_turn::Seat;
use fx_view::{Reader, Reads, Stop};
use std::alloc::Global;
use std::sync::Wait;

/// A pass of a shared log of which each state can be looked at.
pub type SnapPass = Seat<Versioned>;

/// A reader of what stood in a shared log at the turn that opened it, with a pass of its own. No reader of an older state
/// can be made. It looks once at each path that it has not read, and never answers `Needs`. Before each look it passes the
/// gate.
///
/// It vouches for the following. Its reads are of what stood then. The position and the transaction are those from the
/// start. So is the pass, with all that it had seen there and as many entries of its own.
#[derive(Drop)]
pub struct Past<'a, R: Wait, G: Gate> {
    rt: &'a R,
    snaps: &'a Snaps,
    gate: &'a G,
    pass: SnapPass,
    shell: u32,
    txn: u32,
    position: u64,
    reads: Reads,
    ghost turn: { IsPassOf snaps.now pass },
    ghost number: { (view pass).number ≡ Some shell },
    ghost idle: { (view pass).in_turn ≡ false },
    ghost based: { is_some (view pass).base ≡ true },
    ghost within: { position ≤ length (view pass).seen },
    pub ghost true_reads: { AreAt (view pass) position reads } by { AreAt-prop (view pass) position reads },
}

impl<'a, R: Wait, G: Gate> Past<'a, R, G> {
    /// Takes one turn, and reads nothing yet. The reader is of what stands at that turn: its position is the number of all
    /// entries that the pass has then seen. No gate is passed for this turn.
    pub fn open(
        rt: &'a R,
        alloc: Global,
        snaps: &'a Snaps,
        mut pass: SnapPass,
        txn: u32,
        gate: &'a G,
    ) -> Past<'a, R, G>
        requires ready { IsReadyPass snaps.now pass }
        ensures snaps { result.snaps.now ≡ snaps.now }
        ensures seen { HasSeenMore (view pass) (view result.pass) }
        ensures position { result.position ≡ length (view result.pass).seen }
        ensures txn { result.txn ≡ txn }
        ensures reads { result.reads ≡ [] }
    {
        let position = snaps.begin(rt, &mut pass);
        let Some(shell) = pass.number() else {
            unreachable!()
        };
        Past {
            rt,
            snaps,
            gate,
            pass,
            shell,
            txn,
            position,
            reads: Reads::new(alloc),
        }
    }

    /// How many entries the pass had seen at the turn that opened the reader.
    pub fn position(&self) -> u64
        ensures { result ≡ self.now.position }
    {
        self.position
    }

    /// The pass, with all that it has seen.
    pub fn into_pass(self) -> SnapPass
        ensures ready { IsReadyPass self.entry.snaps.now result }
        ensures pass { result ≡ self.entry.pass }
    {
        let Past { pass, reads, .. } = self;
        reads.let_go();
        pass
    }

    /// What stood at a path, once the gate is passed. It is not read yet.
    fn look(&mut self, alloc: Global, path: &Path) -> Result<Option<Node>, NoMemory>
        ensures snaps { self.new.snaps.now ≡ self.old.snaps.now }
        ensures txn { self.new.txn ≡ self.old.txn }
        ensures position { self.new.position ≡ self.old.position }
        ensures more { HasSeenMore (view self.old.pass) (view self.new.pass) }
        ensures reads { self.new.reads ≡ self.old.reads }
        ensures look { IfOk result (WasAt (view self.new.pass) self.new.position path.now) }
    {
        self.gate
            .pass(self.rt, self.shell, self.txn, Moment::BeforeLook);
        self.snaps
            .look_at(self.rt, alloc, &mut self.pass, path, self.position)
    }
}

impl<R: Wait, G: Gate> Reader for Past<'_, R, G> {
    ghost use Rattle.std.specs.Prelude.{IfErr};
    ghost use Rattle.fx_view.specs.Reads.{IsRead};
    ghost use Rattle.fx_view.specs.Answers.{IsReadOf, NeedsIt};
    ghost use Rattle.fx_shared.specs.Past.{VouchesAtOn};

    ghost meaning = { record {
      reads = λ p. p.reads;
      complete = λ _. true;
      vouches = λ start now reads. (now.snaps.now ≡ start.snaps.now)
          × (now.position ≡ start.position)
          × (now.txn ≡ start.txn)
          × VouchesAt (view start.pass) (view now.pass) now.position reads;
    } };

    /// Of a path that was read before it only repeats what was read: no turn is taken, and nothing changes.
    fn read(&mut self, alloc: Global, path: &Path) -> Result<Option<Node>, Stop>
        ensures read { IfOk result (IsReadOf self.old.reads self.new.reads path.now) }
        ensures stop { OnErr result (self.new.reads ≡ self.old.reads) }
        ensures needs { IfErr result (NeedsIt true self.old.reads path.now) }
        ensures snaps { self.new.snaps.now ≡ self.old.snaps.now }
        ensures position { self.new.position ≡ self.old.position }
        ensures txn { self.new.txn ≡ self.old.txn }
        ensures vouched { VouchesAtOn (view self.old.pass) (view self.new.pass)
            self.old.position self.new.position self.old.reads self.new.reads }
        ensures again { IsRead self.old.reads path.now → self.new ≡ self.old }
    {
        if let Some((node, _)) = self.reads.get(path) {
            return Ok(node.clone()?);
        }
        let node = self.look(alloc, path)?;
        let kept = self.reads.keep(alloc, path, node, self.position)?;
        Ok(kept)
    }

    fn reads(&self) -> &Reads {
        &self.reads
    }

    fn take_reads(&mut self, alloc: Global) -> Reads {
        self.reads.take(alloc)
    }

    ghost begins = { λ reader. (
      refl,
      refl,
      refl,
      begins_to_vouch_at (view reader.pass) reader.position reader.reads reader.true_reads,
    ) };
}
