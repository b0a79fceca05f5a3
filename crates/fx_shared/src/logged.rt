//! What passes take turns with.
ghost use Rattle.std.specs.Prelude.{◌≡◌, ◌≤◌, ℕ, IfOk, OnOk, IfErr, length};
ghost use Rattle.std.specs.FinMap.{get};
ghost use Rattle.fx_spec.specs.Bases.{base_tree};
ghost use Rattle.fx_machine.specs.Explained.{IsExplained};
ghost use Rattle.fx_machine.specs.Machine.{next_number};
ghost use Rattle.fx_machine.specs.Passes.{AreTrueReads};
ghost use Rattle.fx_board.specs.Board.{IsLog, last_state, state_at, IsFreshReads, started, settled, RefusedAs};
ghost use Rattle.fx_board.specs.Log.{Log};

use fx_base::NoMemory;
use fx_board::{Board, Ground, Settle, Settled};
use fx_machine::Attempt;
use fx_spec::Base;
use fx_store::{Node, Path};
use fx_turn::Kept;
use std::alloc::Global;
use std::sync::Arc;

/// A value that keeps a log, whose history is the order of its entries.
pub trait Logged: Kept<Origin = Ground, Item = (u32, u32)> {
    ghost log: { Self → Log };

    /// A log with no entries.
    fn new(alloc: Global, base: Arc<Base>) -> Result<Self, NoMemory>
        ensures { IfOk result (λ kept. log kept ≡ started (base_tree base.value)) };

    /// What stands at a path now, and the number of entries.
    fn look(&self, alloc: Global, path: &Path) -> Result<(Option<Node>, u64), NoMemory>
        ensures node { IfOk result (λ r. r.0 ≡ get (last_state (log self.now)) path.now) }
        ensures position { IfOk result (λ r. r.1 ≡ length (log self.now).order) };

    /// Settles an attempt of the shell's next transaction: it becomes the next entry, and what it had read is handed out;
    /// or a conflict is answered, exactly where some entry has changed a read path at or after its look. The attempt needs
    /// to be explained, and each of its reads to be what stood there at its position.
    fn settle_keeping_reads(&mut self, alloc: Global, attempt: Attempt) -> Result<Settled, Settle>
        requires explained { IsExplained (log self.old).base attempt }
        requires next { attempt.txn ≡ next_number (log self.old).order attempt.shell }
        requires reads { AreTrueReads (log self.old).base (log self.old).order attempt.reads }
        ensures reads { IfOk result (λ s. s.reads ≡ attempt.reads) }
        ensures entry { IfOk result (λ s. s.entry ≡ length (log self.old).order) }
        ensures settled { OnOk result
            (log self.new ≡ settled (log self.old) attempt.shell attempt.txn) }
        ensures fresh { OnOk result
            (IsFreshReads (log self.old).base (log self.old).order attempt.reads) }
        ensures refused { IfErr result (RefusedAs (log self.old) (log self.new) attempt) };

    /// How many entries the log has.
    fn entries(&self) -> u64
        ensures len { result ≡ length (log self.now).order }
        ensures log { IsLog (log self.now) };

    ghost begun: { (kept : Self) → Self.base kept ≡ (log kept).base };

    ghost ordered: { (kept : Self) → Self.history kept ≡ (log kept).order };

    ghost numbered: { (turn : ℕ × ℕ) → Self.shell turn ≡ turn.0 };
}

/// A log that keeps what stood at each path after each number of its entries.
pub trait Versions: Logged {
    /// What stood at a path after the first `i` entries, which the log needs to have.
    fn at(&self, alloc: Global, path: &Path, i: u64) -> Result<Option<Node>, NoMemory>
        requires { i ≤ length (Self.log self.now).order }
        ensures { IfOk result (λ node. node ≡ get (state_at (Self.log self.now) i) path.now) };
}

impl Logged for Board {
    ghost use Rattle.std.specs.Prelude.{refl};

    ghost log = { λ b. b };

    fn new(alloc: Global, base: Arc<Base>) -> Result<Board, NoMemory> {
        Board::new(alloc, base)
    }

    fn look(&self, alloc: Global, path: &Path) -> Result<(Option<Node>, u64), NoMemory> {
        Board::look(self, alloc, path)
    }

    fn settle_keeping_reads(&mut self, alloc: Global, attempt: Attempt) -> Result<Settled, Settle> {
        Board::settle_keeping_reads(self, alloc, attempt)
    }

    fn entries(&self) -> u64 {
        self.len()
    }

    ghost begun = { λ b. refl };

    ghost ordered = { λ b. refl };

    ghost numbered = { λ turn. refl };
}
