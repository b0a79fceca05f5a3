//! The changes of one edit.
ghost use Rattle.std.specs.Prelude.{◌≡◌, ◌++◌, ◌∷◌, [], drop, IfOk, OnOk};
ghost use Rattle.fx_store.specs.Changes.{changed_paths};
ghost use Rattle.fx_spec.specs.Edit.{set_to, removed};
ghost use Rattle.fx_session.specs.Implements.{Implements};
ghost use Rattle.fx_view.specs.Own.{put_all};
ghost use Rattle.fx_view.specs.Reads.{count_before};
ghost use Rattle.fx_edit.specs.Rules.{looking};

use fx_base::NoMemory;
use fx_session::Session;
use fx_store::{Change, Node, Path};
use fx_view::{Overlay, Reader, Reads, Stop};
use std::alloc::Global;
use std::marker::Model;
use std::sync::ledger::Ledger;

/// Changes that an edit makes, in its order.
#[derive(Drop)]
pub(crate) struct Edits {
    changes: Vec<Change>,
}

impl Model for Edits {
    ghost use Rattle.std.specs.Prelude.{List};
    ghost use Rattle.fx_store.specs.declared.changes.Change.{Change};

    ghost Value = { List Change };

    ghost view = { λ e. e.changes.items };
}

impl Edits {
    pub(crate) fn new(alloc: Global) -> Edits
        ensures { result ≡ [] }
    {
        Edits {
            changes: Vec::new(alloc),
        }
    }

    /// The one change of a node at a path.
    pub(crate) fn of(alloc: Global, path: Path, node: Node) -> Result<Edits, NoMemory>
        ensures { IfOk result (λ edits. edits ≡ set_to path node ∷ []) }
    {
        let mut edits = Edits::new(alloc);
        edits.set(path, node)?;
        Ok(edits)
    }

    /// Adds at the end that a node stands at a path.
    pub(crate) fn set(&mut self, path: Path, node: Node) -> Result<(), NoMemory>
        ensures { OnOk result (self.new ≡ self.old ++ set_to path node ∷ []) }
    {
        let change = Change {
            path,
            node: Some(node),
        };
        self.changes.push(change)?;
        Ok(())
    }

    /// Adds at the end that nothing stands at a path.
    pub(crate) fn remove(&mut self, path: Path) -> Result<(), NoMemory>
        ensures { OnOk result (self.new ≡ self.old ++ removed path ∷ []) }
    {
        let change = Change { path, node: None };
        self.changes.push(change)?;
        Ok(())
    }

    /// Looks at each changed path but the first, in order.
    pub(crate) fn look_at_rest<R: Reader, L: Ledger>(
        &self,
        session: &mut Session<'_, R, L>,
    ) -> Result<(), Stop>
        ensures follows { Implements R.meaning (λ u. u) session.old session.new
            (looking (changed_paths (drop 1 self.now))) result }
    {
        for i in 1..self.changes.len() {
            let_go(session.look(&self.changes[i].path)?);
        }
        Ok(())
    }

    /// How many of the reads come before the first at a changed path.
    pub(crate) fn untouched(&self, reads: &Reads) -> u64
        ensures { result ≡ count_before (changed_paths self.now) reads.now }
    {
        let mut count = reads.len();
        for change in self.changes.iter() {
            count = count.min(reads.count_before(&change.path));
        }
        count
    }

    /// Sets the changes on top of those made before.
    pub(crate) fn put_all(self, alloc: Global, overlay: &mut Overlay) -> Result<(), NoMemory>
        ensures { OnOk result (overlay.new ≡ put_all overlay.old self) }
    {
        let Edits { changes } = self;
        for change in changes {
            let Change { path, node } = change;
            overlay.put(alloc, path, node)?;
        }
        Ok(())
    }
}

fn let_go(_: Option<Node>) {}
