//! Changes of a filestore.
ghost use Rattle.std.specs.Prelude.{◌≡◌, ◌↔◌, ◌++◌, ◌∷◌, [], length, IsTrue, IfOk, OnOk, OnErr, slice_get, option_copied};

use crate::node::Node;
use crate::path::Path;
use fx_base::NoMemory;
use std::alloc::{AllocError, Global};
use std::marker::Model;

/// What stands at a path from now on: a node, or nothing.
#[derive(Debug, Drop)]
pub struct Change {
    /// The path that is changed.
    pub path: Path,
    /// What stands there from now on.
    pub node: Option<Node>,
}

impl Change {
    /// An equal change of its own.
    pub fn copy(&self, alloc: Global) -> Result<Change, NoMemory>
        ensures { IfOk result (λ c. c ≡ self.now) }
    {
        Ok(Change {
            path: self.path.copy(alloc)?,
            node: self.node.clone()?,
        })
    }
}

impl Clone for Change {
    ghost is_clone = { λ x y. y ≡ x };

    fn clone(&self) -> Result<Change, AllocError> {
        Ok(Change {
            path: self.path.clone()?,
            node: self.node.clone()?,
        })
    }
}

/// Changes in ascending order of path, at most one of each path.
#[derive(Debug)]
pub struct Changes {
    changes: Vec<Change>,
}

/// It is written out, so that its parts are dropped in this crate alone.
impl Drop for Changes {
    fn drop(self) {
        let Changes { changes: _changes } = self;
    }
}

impl Model for Changes {
    ghost use Rattle.std.specs.Prelude.{List};
    ghost use Rattle.fx_store.specs.declared.changes.Change.{Change};
    ghost use Rattle.fx_store.specs.Changes.{IsChanges};

    ghost Value = { List Change };

    ghost view = { λ s. s.changes.items };

    ghost invariant = { λ s. IsChanges s.changes.items };
}

impl Changes {
    ghost use Rattle.fx_store.specs.Changes.{IsChanges, changed_paths};
    ghost use Rattle.std.specs.List.Sorted.{IsStrictlySortedBy};
    ghost use Rattle.fx_store.specs.Names.{path_cmp};

    /// No changes.
    pub fn new(alloc: Global) -> Changes
        ensures { result ≡ [] }
    {
        Changes {
            changes: Vec::new(alloc),
        }
    }

    /// The changes of a list, which needs ascending paths.
    pub fn from_vec(changes: Vec<Change>) -> Changes
        requires { IsChanges changes.items }
        ensures { result ≡ changes.items }
    {
        Changes { changes }
    }

    /// The number of changes.
    pub fn len(&self) -> u64
        ensures len { result ≡ length self.now }
        ensures ascending { IsChanges self.now }
    {
        self.changes.len() as u64
    }

    /// The change at an index, counted from 0 in ascending order of path.
    pub fn at(&self, i: u64) -> Option<&Change>
        ensures change { option_copied result ≡ slice_get self.now i }
        ensures ascending { IsChanges self.now }
    {
        self.changes.get(i as usize)
    }

    /// Whether a path is greater than that of each of these, so that a change of it may be added.
    pub fn is_next(&self, path: &Path) -> bool
        ensures { IsTrue result
            ↔ IsStrictlySortedBy path_cmp (changed_paths self.now ++ path.now ∷ []) }
    {
        match self.changes.last() {
            Some(last) => last.path.compare(path).is_lt(),
            None => true,
        }
    }

    /// Adds a change at the end, which needs a path that is greater than that of each of these.
    pub fn add(&mut self, _alloc: Global, item: Change) -> Result<(), NoMemory>
        requires { IsStrictlySortedBy path_cmp (changed_paths self.old ++ item.path ∷ []) }
        ensures ok { OnOk result (self.new ≡ self.old ++ item ∷ []) }
        ensures err { OnErr result (self.new ≡ self.old) }
    {
        self.changes.push(item)?;
        Ok(())
    }

    /// The changes, as a slice.
    pub fn as_slice(&self) -> &[Change]
        ensures changes { result.now ≡ self.now }
        ensures ascending { IsChanges self.now }
    {
        self.changes.as_slice()
    }

    /// The changes as a vector, to go through by value.
    pub fn into_vec(self) -> Vec<Change>
        ensures changes { result.items ≡ self }
        ensures ascending { IsChanges self }
    {
        let Changes { changes } = self;
        changes
    }

    /// Equal changes of their own.
    pub fn copy(&self, alloc: Global) -> Result<Changes, NoMemory>
        ensures copied { IfOk result (λ s. s ≡ self.now) }
        ensures ascending { IsChanges self.now }
    {
        Ok(Changes {
            changes: Vec::from_clones(alloc, &self.changes)?,
        })
    }
}
