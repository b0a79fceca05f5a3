ghost use Rattle.std.specs.Prelude.{◌≡◌, [], IfOk, IfErr, OnOk, IfSome, None, MatchOption, length, ◌↔◌, ◌≤◌};
ghost use Rattle.std.specs.FinMap.{get};
ghost use Rattle.fx_spec.specs.Bases.{base_tree};
ghost use Rattle.fx_machine.specs.Explained.{IsExplained};
ghost use Rattle.fx_machine.specs.Machine.{next_number};
ghost use Rattle.fx_machine.specs.Passes.{AreTrueReads};
ghost use Rattle.fx_board.specs.Board.{IsLog, IsEntry, NeverChanged, IsLastChange, last_state, IsFreshReads, started, settled, RefusedAs};

use crate::growing::{grow, make};
use crate::index::{last, note, stale};
use fx_base::{NoMemory, SHELL_LIMIT};
use fx_expr::Values;
use fx_machine::{Attempt, Entry};
use fx_spec::{Base, End};
use fx_store::{Filestore, Node, Path};
use fx_view::Reads;
use indexmap::IndexMap;
use std::alloc::Global;
use std::marker::Model;
use std::sync::Arc;

/// The log of a run. Contracts see its base and its order: the outputs, the end and the changed paths of each entry are those
/// of its transaction, run whole on the state before it, and the filestore is the state after all.
///
/// Its parts lie behind one pointer, so that little is copied where it goes from hand to hand.
pub struct Board {
    parts: Box<Parts>,
}

struct Parts {
    base: Arc<Base>,
    entries: Vec<Entry>,
    /// The filestore after all entries, once one of them has changed something; until then it is the loaded one.
    own: Option<Filestore>,
    index: IndexMap<Path, u64>,
}

/// It is written out, so that its parts are dropped in this crate alone.
impl Drop for Board {
    fn drop(self) {
        let Board { parts: _parts } = self;
    }
}

impl Drop for Parts {
    fn drop(self) {
        let Parts {
            base,
            entries: _entries,
            own,
            index: _index,
        } = self;
        Base::let_go(base);
        if let Some(store) = own {
            store.let_go();
        }
    }
}

impl Model for Board {
    ghost use Rattle.fx_board.specs.Log.{Log, log_code};

    ghost Value = { Log };

    ghost coded = { log_code };

    ghost use Rattle.fx_board.specs.Board.{log_of, IsBoard};
    ghost use Rattle.fx_board.specs.Growing.{nodes_by};

    ghost view = { λ b. log_of b.parts.value.base.value b.parts.value.entries.items };

    ghost invariant = { λ b. IsBoard b.parts.value.base.value b.parts.value.entries.items
        (nodes_by b.parts.value.base.value.loaded.nodes b.parts.value.own)
        b.parts.value.index.entries };
}

/// Why an attempt is not settled. Both refusals leave the log as it is, and hand the attempt back.
#[derive(Drop)]
pub enum Settle {
    /// The least path that was changed at or after the attempt's look at it, with the last entry that changed it.
    Conflict {
        entry: u64,
        path: Path,
        attempt: Attempt,
    },
    NoMemory(Attempt),
}

/// Lets go of an attempt.
pub fn let_go(_: Attempt) {}

/// What an attempt has printed, and how it ended. The rest of it is let go.
pub fn answer_of(attempt: Attempt) -> (Values, End)
    ensures { result ≡ (attempt.outputs, attempt.end) }
{
    let Attempt { outputs, end, .. } = attempt;
    (outputs, end)
}

/// A settled attempt: the number of its entry, and what it had read.
#[derive(Drop)]
pub struct Settled {
    pub entry: u64,
    pub reads: Reads,
}

impl Board {
    /// No entries yet, and the loaded filestore, which is shared with the base until an entry changes something.
    pub fn new(alloc: Global, base: Arc<Base>) -> Result<Board, NoMemory>
        ensures { IfOk result (λ b. b ≡ started (base_tree base.value)) }
    {
        prove!(base.plan.len() <= SHELL_LIMIT);
        let _whole = base.loaded.places();
        let parts = Parts {
            base,
            entries: Vec::new(alloc),
            own: None,
            index: IndexMap::new(alloc),
        };
        Ok(Board {
            parts: Box::new(alloc, parts)?,
        })
    }

    /// Lets go of the log.
    pub fn let_go(self) {}

    /// The base: the description, the scripts and the loaded filestore.
    pub fn base(&self) -> &Base
        ensures base { base_tree result.now ≡ self.now.base }
        ensures log { IsLog self.now }
    {
        &self.parts.base
    }

    /// The base, to be shared.
    pub fn shared_base(&self) -> &Arc<Base>
        ensures { base_tree result.now.value ≡ self.now.base }
    {
        &self.parts.base
    }

    /// The number of entries.
    pub fn len(&self) -> u64
        ensures len { result ≡ length self.now.order }
        ensures log { IsLog self.now }
    {
        self.parts.entries.len() as u64
    }

    /// The entry at `i`, from 0 in commit order; None exactly from `len` on.
    pub fn entry(&self, i: u64) -> Option<&Entry>
        ensures none { (result ≡ None) ↔ (length self.now.order ≤ i) }
        ensures entry { IfSome result (λ e. IsEntry self.now i e.now) }
    {
        self.parts.entries.get(i as usize)
    }

    /// The filestore after all entries.
    pub fn store(&self) -> &Filestore
        ensures nodes { result.now.nodes ≡ last_state self.now }
        ensures log { IsLog self.now }
    {
        match &self.parts.own {
            Some(store) => store,
            None => &self.parts.base.loaded,
        }
    }

    /// What stands at a path now, and the number of entries.
    pub fn look(&self, alloc: Global, path: &Path) -> Result<(Option<Node>, u64), NoMemory>
        ensures node { IfOk result (λ r. r.0 ≡ get (last_state self.now) path.now) }
        ensures position { IfOk result (λ r. r.1 ≡ length self.now.order) }
    {
        let node = match self.store().get(path) {
            Some(node) => Some(node.copy(alloc)?),
            None => None,
        };
        Ok((node, self.parts.entries.len() as u64))
    }

    /// The last entry that changed a path; None exactly where none did.
    pub fn last_change(&self, path: &Path) -> Option<u64>
        ensures { MatchOption result (NeverChanged self.now path.now)
            (IsLastChange self.now path.now) }
    {
        last(&self.parts.index, path)
    }

    /// Settles an attempt of the shell's next transaction: it becomes the next entry, whose number is answered; or a
    /// conflict is answered, exactly where some entry has changed a read path at or after its look. The attempt needs to
    /// be explained, and each of its reads to be what stood there at its position. Whatever memory is needed is taken
    /// before anything is changed.
    pub fn settle(&mut self, alloc: Global, attempt: Attempt) -> Result<u64, Settle>
        requires explained { IsExplained self.old.base attempt }
        requires next { attempt.txn ≡ next_number self.old.order attempt.shell }
        requires reads { AreTrueReads self.old.base self.old.order attempt.reads }
        ensures entry { IfOk result (λ i. i ≡ length self.old.order) }
        ensures settled { IfOk result (λ i. self.new ≡ settled self.old attempt.shell attempt.txn) }
        ensures fresh { IfOk result (λ i. IsFreshReads self.old.base self.old.order attempt.reads) }
        ensures refused { IfErr result (RefusedAs self.old self.new attempt) }
    {
        let settled = self.settle_keeping_reads(alloc, attempt)?;
        Ok(settled.entry)
    }

    /// Settles an attempt as `settle` does, and hands out what it had read, for the caller to drop when it has time.
    pub fn settle_keeping_reads(
        &mut self,
        alloc: Global,
        attempt: Attempt,
    ) -> Result<Settled, Settle>
        requires explained { IsExplained self.old.base attempt }
        requires next { attempt.txn ≡ next_number self.old.order attempt.shell }
        requires reads { AreTrueReads self.old.base self.old.order attempt.reads }
        ensures reads { IfOk result (λ s. s.reads ≡ attempt.reads) }
        ensures entry { IfOk result (λ s. s.entry ≡ length self.old.order) }
        ensures settled { OnOk result (self.new ≡ settled self.old attempt.shell attempt.txn) }
        ensures fresh { OnOk result (IsFreshReads self.old.base self.old.order attempt.reads) }
        ensures refused { IfErr result (RefusedAs self.old self.new attempt) }
    {
        let (path, entry) = match stale(&self.parts.index, &attempt.reads) {
            None => return self.add(alloc, attempt),
            Some(named) => named,
        };
        match path.copy(alloc) {
            Ok(path) => Err(Settle::Conflict {
                entry,
                path,
                attempt,
            }),
            Err(NoMemory) => Err(Settle::NoMemory(attempt)),
        }
    }

    /// Adds an attempt that no entry stands in the way of.
    fn add(&mut self, alloc: Global, attempt: Attempt) -> Result<Settled, Settle>
        requires explained { IsExplained self.old.base attempt }
        requires next { attempt.txn ≡ next_number self.old.order attempt.shell }
        requires reads { AreTrueReads self.old.base self.old.order attempt.reads }
        requires fresh { IsFreshReads self.old.base self.old.order attempt.reads }
        ensures reads { IfOk result (λ s. s.reads ≡ attempt.reads) }
        ensures entry { IfOk result (λ s. s.entry ≡ length self.old.order) }
        ensures settled { OnOk result (self.new ≡ settled self.old attempt.shell attempt.txn) }
        ensures fresh { OnOk result (IsFreshReads self.old.base self.old.order attempt.reads) }
        ensures refused { IfErr result (RefusedAs self.old self.new attempt) }
    {
        let parts = &mut *self.parts;
        let entry = parts.entries.len() as u64;
        let grown = match grow(
            alloc,
            &mut parts.entries,
            &parts.base.loaded,
            &mut parts.own,
            &mut parts.index,
            attempt,
        ) {
            Ok(grown) => grown,
            Err(attempt) => return Err(Settle::NoMemory(attempt)),
        };
        make(&mut parts.own, grown.changes);
        note(&mut parts.index, grown.keys, entry);
        Ok(Settled {
            entry,
            reads: grown.reads,
        })
    }
}
