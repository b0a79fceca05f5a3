//! What a worker uses a shared log through.
ghost use Rattle.std.specs.Prelude.{◌≡◌, ℕ, true, false, Some, is_some, IfOk, IfErr, OnErr};
ghost use Rattle.atomic_table.specs.Seated.{TableId};
ghost use Rattle.fx_machine.specs.Explained.{IsExplained};
ghost use Rattle.fx_machine.specs.Machine.{next_number};
ghost use Rattle.fx_turn.specs.Seats.{view};
ghost use Rattle.fx_shared.specs.Passes.{LogView, HasBase, HasLegal, AreTrueInLog, HasSeenMore, IsLook, HasSettled, IsHandedBack};
ghost use Rattle.fx_shared.specs.Shared.{IsPassOf, IsReadyPass};
ghost use Rattle.fx_shared.specs.Desks.{counts_own_entries};

use crate::logged::Logged;
use crate::shares::Shares;
use crate::versioned::Versioned;
use fx_base::NoMemory;
use fx_board::{Board, Settle};
use fx_machine::Attempt;
use fx_outside::{Gate, Moment};
use fx_store::{Node, Path};
use fx_turn::Seat;
use std::alloc::Global;
use std::sync::Wait;

/// A pass of a shared log, with what its worker needs to look and to settle by turns.
pub trait Desk: Drop {
    /// What the pass knows.
    ghost view: { Self → LogView };

    /// The table that the log lies on.
    ghost table: { Self → TableId };

    /// The number of the pass's shell.
    fn shell(&self) -> u32
        ensures { (view self.now).number ≡ Some result };

    /// What stands at a path, for a transaction, and the number of entries, all of which the pass has then seen.
    fn look(
        &mut self,
        alloc: Global,
        txn: u32,
        path: &Path,
    ) -> Result<(Option<Node>, u64), NoMemory>
        ensures table { table self.new ≡ table self.old }
        ensures seen { HasSeenMore (view self.old) (view self.new) }
        ensures look { IfOk result (IsLook (view self.new) path.now) };

    /// Settles an attempt of the pass's next transaction, as `Shares::settle` does.
    fn settle(&mut self, alloc: Global, attempt: Attempt) -> Result<u64, Settle>
        requires whose { (view self.old).number ≡ Some attempt.shell }
        requires next { attempt.txn ≡ (view self.old).mine }
        requires explained { HasBase (view self.old) (λ base. IsExplained base attempt) }
        requires reads { AreTrueInLog (view self.old) attempt.reads }
        ensures table { table self.new ≡ table self.old }
        ensures legal { HasLegal (view self.new) }
        ensures settled { IfOk result (HasSettled (view self.old) (view self.new) attempt) }
        ensures seen { OnErr result (HasSeenMore (view self.old) (view self.new)) }
        ensures refused { IfErr result (IsHandedBack (view self.new) attempt) };

    ghost counted: { (desk : Self) → (shell : ℕ) → (view desk).number ≡ Some shell
        → next_number (view desk).seen shell ≡ (view desk).mine };
}

/// A pass of a log, behind a gate: before each look and each settle, and after each settled transaction, it is passed.
#[derive(Drop)]
pub struct LogDesk<'a, R: Wait, G: Gate, T: Logged> {
    rt: &'a R,
    gate: &'a G,
    shares: &'a Shares<T>,
    pass: Seat<T>,
    shell: u32,
    ghost turn: { IsPassOf shares.now pass },
    ghost number: { (view pass).number ≡ Some shell },
    ghost idle: { (view pass).in_turn ≡ false },
    ghost based: { is_some (view pass).base ≡ true },
}

impl<'a, R: Wait, G: Gate, T: Logged> LogDesk<'a, R, G, T> {
    /// The desk of a pass, which is the crew's.
    pub fn new(rt: &'a R, gate: &'a G, shares: &'a Shares<T>, pass: Seat<T>) -> LogDesk<'a, R, G, T>
        requires { IsReadyPass shares.now pass }
        ensures shares { result.shares.now ≡ shares.now }
        ensures pass { result.pass ≡ pass }
    {
        let Some(shell) = pass.number() else {
            unreachable!()
        };
        LogDesk {
            rt,
            gate,
            shares,
            pass,
            shell,
        }
    }

    /// The pass, with all that it has seen.
    pub fn into_pass(self) -> Seat<T>
        ensures ready { IsReadyPass self.entry.shares.now result }
        ensures pass { result ≡ self.entry.pass }
    {
        let LogDesk { pass, .. } = self;
        pass
    }

    /// What stands at a path, once the gate is passed, and the position of the look.
    fn look_by_turn(
        &mut self,
        alloc: Global,
        txn: u32,
        path: &Path,
    ) -> Result<(Option<Node>, u64), NoMemory>
        ensures shares { self.new.shares.now ≡ self.old.shares.now }
        ensures table { self.new.pass.place.table_id ≡ self.old.pass.place.table_id }
        ensures seen { HasSeenMore (view self.old.pass) (view self.new.pass) }
        ensures look { IfOk result (IsLook (view self.new.pass) path.now) }
    {
        self.gate.pass(self.rt, self.shell, txn, Moment::BeforeLook);
        self.shares.look(self.rt, alloc, &mut self.pass, path)
    }

    /// Settles an attempt, between two moments at the gate.
    fn settle_by_turn(&mut self, alloc: Global, attempt: Attempt) -> Result<u64, Settle>
        requires whose { (view self.old.pass).number ≡ Some attempt.shell }
        requires next { attempt.txn ≡ (view self.old.pass).mine }
        requires explained { HasBase (view self.old.pass) (λ base. IsExplained base attempt) }
        requires reads { AreTrueInLog (view self.old.pass) attempt.reads }
        ensures table { self.new.pass.place.table_id ≡ self.old.pass.place.table_id }
        ensures legal { HasLegal (view self.new.pass) }
        ensures settled { IfOk result
            (HasSettled (view self.old.pass) (view self.new.pass) attempt) }
        ensures seen { OnErr result (HasSeenMore (view self.old.pass) (view self.new.pass)) }
        ensures refused { IfErr result (IsHandedBack (view self.new.pass) attempt) }
    {
        let txn = attempt.txn;
        self.gate
            .pass(self.rt, self.shell, txn, Moment::BeforeSettle);
        let entry = self.shares.settle(self.rt, alloc, &mut self.pass, attempt)?;
        self.gate.pass(self.rt, self.shell, txn, Moment::Settled);
        Ok(entry)
    }
}

impl<R: Wait, G: Gate> Desk for LogDesk<'_, R, G, Board> {
    ghost view = { λ desk. view desk.pass };

    ghost table = { λ desk. desk.pass.place.table_id };

    fn shell(&self) -> u32 {
        self.shell
    }

    fn look(
        &mut self,
        alloc: Global,
        txn: u32,
        path: &Path,
    ) -> Result<(Option<Node>, u64), NoMemory> {
        self.look_by_turn(alloc, txn, path)
    }

    fn settle(&mut self, alloc: Global, attempt: Attempt) -> Result<u64, Settle> {
        self.settle_by_turn(alloc, attempt)
    }

    ghost counted = { λ desk shell. counts_own_entries (view desk.pass) shell desk.pass.mine_is };
}

impl<R: Wait, G: Gate> Desk for LogDesk<'_, R, G, Versioned> {
    ghost view = { λ desk. view desk.pass };

    ghost table = { λ desk. desk.pass.place.table_id };

    fn shell(&self) -> u32 {
        self.shell
    }

    fn look(
        &mut self,
        alloc: Global,
        txn: u32,
        path: &Path,
    ) -> Result<(Option<Node>, u64), NoMemory> {
        self.look_by_turn(alloc, txn, path)
    }

    fn settle(&mut self, alloc: Global, attempt: Attempt) -> Result<u64, Settle> {
        self.settle_by_turn(alloc, attempt)
    }

    ghost counted = { λ desk shell. counts_own_entries (view desk.pass) shell desk.pass.mine_is };
}
