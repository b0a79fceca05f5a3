//! The changes that an attempt has made for itself.
ghost use Rattle.std.specs.Prelude.{◌≡◌, ◌↔◌, [], length, IsTrue, slice_get, IfOk, OnOk, OnErr, option_copied, option_map};
ghost use Rattle.std.specs.Map.Iter.{deref_pair};
ghost use Rattle.fx_view.specs.Own.{IsOwn, own_at, put_own, IsNet};
ghost use Rattle.fx_view.specs.Net.{Differs, IsNetOf, Adds};
ghost use Rattle.fx_store.specs.Changes.{IsChanges};

use crate::reads::Reads;
use crate::same::is_same;
use crate::table::Table;
use fx_base::NoMemory;
use fx_store::{Change, Changes, Node, Path};
use std::alloc::Global;
use std::marker::Model;

/// An attempt's own changes: at some paths a node from now on, or nothing. Contracts see the paths in the order in which
/// they were first changed.
pub struct Overlay {
    table: Table<Option<Node>>,
}

/// It is written out, so that its parts are dropped in this crate alone.
impl Drop for Overlay {
    fn drop(self) {
        let Overlay { table: _table } = self;
    }
}

impl Model for Overlay {
    ghost use Rattle.fx_view.specs.OwnList.{OwnList};

    ghost Value = { OwnList };

    ghost use Rattle.fx_view.specs.Own.{IsOwn};

    ghost view = { λ o. o.table };

    ghost invariant = { λ o. IsOwn o.table };
}

impl Overlay {
    /// No changes.
    pub fn new(alloc: Global) -> Overlay
        ensures { result ≡ [] }
    {
        Overlay {
            table: Table::new(alloc),
        }
    }

    /// The number of changed paths.
    pub fn len(&self) -> u64
        ensures len { result ≡ length self.now }
        ensures own { IsOwn self.now }
    {
        self.table.len() as u64
    }

    /// The change at `i`, in the order of the first changes; None exactly from `len` on.
    pub fn at(&self, i: u64) -> Option<(&Path, &Option<Node>)>
        ensures change { option_map deref_pair result ≡ slice_get self.now i }
        ensures own { IsOwn self.now }
    {
        self.table.at(i as usize)
    }

    /// The own change of a path, if there is one.
    pub fn get(&self, path: &Path) -> Option<&Option<Node>>
        ensures change { option_copied result ≡ own_at self.now path.now }
        ensures own { IsOwn self.now }
    {
        self.table.get(path)
    }

    /// Sets what stands at a path from now on, in place of an earlier own change there. A refusal changes nothing.
    pub fn put(&mut self, alloc: Global, path: Path, node: Option<Node>) -> Result<(), NoMemory>
        ensures ok { OnOk result (self.new ≡ put_own self.old path node) }
        ensures err { OnErr result (self.new ≡ self.old) }
    {
        self.table.insert(alloc, path, node)?;
        Ok(())
    }

    /// The changes whose node differs from the one read, in ascending order of path; one at a path that was not read is left
    /// out.
    pub fn changes(self, alloc: Global, reads: &Reads) -> Result<Changes, NoMemory>
        ensures net { IfOk result (IsNet self reads.now) }
        ensures ascending { IfOk result IsChanges }
    {
        let Overlay { table } = self;
        Ok(Changes::from_vec(net(alloc, table.into_sorted()?, reads)?))
    }
}

/// The changes of the entries whose node differs from the one read, in their order.
fn net(
    alloc: Global,
    entries: Vec<(Path, Option<Node>)>,
    reads: &Reads,
) -> Result<Vec<Change>, NoMemory>
    ensures { IfOk result (λ changes. IsNetOf reads.now entries.items changes.items) }
{
    let mut changes = Vec::new(alloc);
    for (path, node) in entries {
        add_net(&mut changes, reads, path, node)?;
    }
    Ok(changes)
}

/// Adds the change of an entry at the end, if its node differs from the one read.
fn add_net(
    changes: &mut Vec<Change>,
    reads: &Reads,
    path: Path,
    node: Option<Node>,
) -> Result<(), NoMemory>
    ensures { OnOk result (Adds reads.now (path, node) changes.old.items changes.new.items) }
{
    if !differs(reads, &path, &node) {
        let_go(Some(node));
        return Ok(());
    }
    changes.push(Change { path, node })?;
    Ok(())
}

fn differs(reads: &Reads, path: &Path, node: &Option<Node>) -> bool
    ensures { IsTrue result ↔ Differs reads.now (path.now, node.now) }
{
    match reads.get(path) {
        Some((was, _)) => !is_same(node, was),
        None => false,
    }
}

fn let_go(_: Option<Option<Node>>) {}
