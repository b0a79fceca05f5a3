ghost use Rattle.std.specs.Prelude.{◌≡◌, ◌≤◌, IfOk, IfErr, OnOk, length};
ghost use Rattle.std.specs.FinMap.{get};
ghost use Rattle.std.specs.Option.{option_copied};
ghost use Rattle.fx_spec.specs.Bases.{base_tree};
ghost use Rattle.fx_machine.specs.Explained.{IsExplained};
ghost use Rattle.fx_machine.specs.Machine.{next_number};
ghost use Rattle.fx_machine.specs.Passes.{AreTrueReads};
ghost use Rattle.fx_board.specs.Board.{IsFreshReads, last_state, state_at, started, settled, RefusedAs};

use crate::keeping::{Table, add_all, prepare};
use crate::versions::node_at;
use fx_base::NoMemory;
use fx_board::{Board, Ground, Settle, Settled};
use fx_machine::Attempt;
use fx_spec::Base;
use fx_store::{Node, Path};
use fx_turn::Kept;
use indexmap::IndexMap;
use std::alloc::Global;
use std::marker::Model;
use std::sync::Arc;

/// A log, and what each of its entries has left at each path that it changed. Contracts see the log.
pub struct Versioned {
    board: Board,
    versions: Box<Table>,
}

/// It is written out, so that its parts are dropped in this crate alone.
impl Drop for Versioned {
    fn drop(self) {
        let Versioned {
            board: _board,
            versions: _versions,
        } = self;
    }
}

impl Model for Versioned {
    ghost use Rattle.fx_board.specs.Log.{Log, log_code};

    ghost Value = { Log };

    ghost coded = { log_code };

    ghost use Rattle.fx_shared.specs.Kept.{HasVersions};

    ghost view = { λ v. v.board };

    ghost invariant = { λ v. HasVersions v.board v.versions.value.entries };
}

fn copied(alloc: Global, node: Option<&Node>) -> Result<Option<Node>, NoMemory>
    ensures { IfOk result (λ copy. copy ≡ option_copied node.entry) }
{
    match node {
        Some(node) => Ok(Some(node.copy(alloc)?)),
        None => Ok(None),
    }
}

impl Versioned {
    /// No entries yet, and the loaded filestore.
    pub fn new(alloc: Global, base: Arc<Base>) -> Result<Versioned, NoMemory>
        ensures { IfOk result (λ v. v ≡ started (base_tree base.value)) }
    {
        let board = Board::new(alloc, base)?;
        let versions = Box::new(alloc, IndexMap::new(alloc))?;
        Ok(Versioned { board, versions })
    }

    /// Lets go of the log and of its versions.
    pub fn let_go(self) {}

    /// The log alone.
    pub fn board(&self) -> &Board
        ensures { result.now ≡ self.now }
    {
        &self.board
    }

    /// What stands at a path now, and the number of entries.
    pub fn look(&self, alloc: Global, path: &Path) -> Result<(Option<Node>, u64), NoMemory>
        ensures node { IfOk result (λ r. r.0 ≡ get (last_state self.now) path.now) }
        ensures position { IfOk result (λ r. r.1 ≡ length self.now.order) }
    {
        self.board.look(alloc, path)
    }

    /// What stood at a path after the first `i` entries, which the log needs to have.
    pub fn at(&self, alloc: Global, path: &Path, i: u64) -> Result<Option<Node>, NoMemory>
        requires { i ≤ length self.now.order }
        ensures { IfOk result (λ node. node ≡ get (state_at self.now i) path.now) }
    {
        let loaded = self.board.base().loaded.get(path);
        match self.versions.get(path) {
            Some(versions) => copied(alloc, node_at(versions, loaded, i)),
            None => copied(alloc, loaded),
        }
    }

    /// Settles an attempt as `Board::settle` does, and keeps what it leaves at each path that it changes. Whatever memory is
    /// needed is taken before anything is changed.
    pub fn settle(&mut self, alloc: Global, attempt: Attempt) -> Result<u64, Settle>
        requires explained { IsExplained self.old.base attempt }
        requires next { attempt.txn ≡ next_number self.old.order attempt.shell }
        requires reads { AreTrueReads self.old.base self.old.order attempt.reads }
        ensures entry { IfOk result (λ i. i ≡ length self.old.order) }
        ensures settled { OnOk result (self.new ≡ settled self.old attempt.shell attempt.txn) }
        ensures fresh { OnOk result (IsFreshReads self.old.base self.old.order attempt.reads) }
        ensures refused { IfErr result (RefusedAs self.old self.new attempt) }
    {
        let settled = self.settle_keeping_reads(alloc, attempt)?;
        Ok(settled.entry)
    }

    /// Settles an attempt as `settle` does, and hands out what it had read, for the caller to drop when it has time.
    pub fn settle_keeping_reads(
        &mut self,
        alloc: Global,
        attempt: Attempt,
    ) -> Result<Settled, Settle>
        requires explained { IsExplained self.old.base attempt }
        requires next { attempt.txn ≡ next_number self.old.order attempt.shell }
        requires reads { AreTrueReads self.old.base self.old.order attempt.reads }
        ensures reads { IfOk result (λ s. s.reads ≡ attempt.reads) }
        ensures entry { IfOk result (λ s. s.entry ≡ length self.old.order) }
        ensures settled { OnOk result (self.new ≡ settled self.old attempt.shell attempt.txn) }
        ensures fresh { OnOk result (IsFreshReads self.old.base self.old.order attempt.reads) }
        ensures refused { IfErr result (RefusedAs self.old self.new attempt) }
    {
        match prepare(alloc, &mut self.versions, &attempt.changes) {
            Ok(changes) => {
                let entry = self.board.len();
                let settled = self.board.settle_keeping_reads(alloc, attempt)?;
                add_all(&mut self.versions, changes, entry);
                Ok(settled)
            }
            Err(NoMemory) => Err(Settle::NoMemory(attempt)),
        }
    }
}

/// The history is that of the log.
impl Kept for Versioned {
    type Origin = Ground;

    type Item = (u32, u32);

    ghost base = { λ v. v.base };

    ghost history = { λ v. v.order };

    ghost shell = { λ turn. turn.0 };

    fn length(&self) -> u64 {
        self.board.len()
    }
}
