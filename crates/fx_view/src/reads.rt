//! What was read of a filestore.
ghost use Rattle.std.specs.Prelude.{◌≡◌, ◌<◌, ◌++◌, ◌∷◌, [], None, length, take, slice_get, IfOk, OnOk, OnErr, option_copied, option_map};
ghost use Rattle.std.specs.Map.Iter.{deref_pair};
ghost use Rattle.fx_view.specs.Reads.{IsReads, read_at, placed, count_before};
ghost use Rattle.fx_store.specs.Names.{IsPath};

use crate::table::Table;
use fx_base::NoMemory;
use fx_store::{Node, Path};
use std::alloc::Global;
use std::marker::Model;

/// What stood at some paths, a node or none, each with the position of the look: the number of entries in the log at that
/// moment. Contracts see the paths in the order in which they were looked at.
pub struct Reads {
    table: Table<(Option<Node>, u64)>,
}

/// It is written out, so that its parts are dropped in this crate alone.
impl Drop for Reads {
    fn drop(self) {
        let Reads { table: _table } = self;
    }
}

impl Model for Reads {
    ghost use Rattle.fx_view.specs.ReadList.{ReadList};

    ghost Value = { ReadList };

    ghost use Rattle.fx_view.specs.Reads.{IsReads};

    ghost view = { λ r. r.table };

    ghost invariant = { λ r. IsReads r.table };
}

impl Reads {
    /// Nothing read.
    pub fn new(alloc: Global) -> Reads
        ensures { result ≡ [] }
    {
        Reads {
            table: Table::new(alloc),
        }
    }

    /// The number of paths.
    pub fn len(&self) -> u64
        ensures len { result ≡ length self.now }
        ensures reads { IsReads self.now }
    {
        self.table.len() as u64
    }

    /// The read at `i`, in the order of the looks; None exactly from `len` on.
    pub fn at(&self, i: u64) -> Option<(&Path, &(Option<Node>, u64))>
        ensures read { option_map deref_pair result ≡ slice_get self.now i }
        ensures reads { IsReads self.now }
    {
        self.table.at(i as usize)
    }

    /// What was read at a path, and the position of that look.
    pub fn get(&self, path: &Path) -> Option<&(Option<Node>, u64)>
        ensures read { option_copied result ≡ read_at self.now path.now }
        ensures reads { IsReads self.now }
    {
        self.table.get(path)
    }

    /// Only the first reads are left, so many at most.
    pub fn truncate(&mut self, len: u64)
        ensures { self.new ≡ take len self.old }
    {
        self.table.truncate(len as usize);
    }

    /// The look of the read at `i` has this position from now on.
    pub fn place(&mut self, i: u64, position: u64)
        requires { i < length self.old }
        ensures { self.new ≡ placed i position self.old }
    {
        self.table.place(i as usize, position);
    }

    /// How many reads come before the path's; all of them where it was not read.
    pub fn count_before(&self, path: &Path) -> u64
        ensures { result ≡ count_before (path.now ∷ []) self.now }
    {
        self.table.count_before(path) as u64
    }

    /// Adds what was read at a path that is new. A refusal changes nothing.
    pub fn add(
        &mut self,
        alloc: Global,
        path: Path,
        node: Option<Node>,
        position: u64,
    ) -> Result<(), NoMemory>
        requires { read_at self.old path ≡ None }
        ensures ok { OnOk result (self.new ≡ self.old ++ (path, (node, position)) ∷ []) }
        ensures err { OnErr result (self.new ≡ self.old) }
    {
        self.table.push(alloc, path, (node, position))?;
        Ok(())
    }

    /// Adds what was read at a path that is new, and hands it back. A refusal lets go of it, and changes nothing.
    pub fn keep(
        &mut self,
        alloc: Global,
        path: &Path,
        node: Option<Node>,
        position: u64,
    ) -> Result<Option<Node>, NoMemory>
        requires { read_at self.old path.now ≡ None }
        ensures kept { OnOk result (self.new ≡ self.old ++ (path.now, (node, position)) ∷ []) }
        ensures node { IfOk result (λ kept. kept ≡ node) }
        ensures path { OnOk result (IsPath path.now) }
        ensures err { OnErr result (self.new ≡ self.old) }
    {
        let path = path.copy(alloc)?;
        let copy = node.clone()?;
        self.add(alloc, path, copy, position)?;
        Ok(node)
    }

    /// Lets go of the reads.
    pub fn let_go(self) {}

    /// The reads, which are then none.
    pub fn take(&mut self, alloc: Global) -> Reads
        ensures taken { result ≡ self.old }
        ensures none { self.new ≡ [] }
    {
        let mut taken = Reads::new(alloc);
        std::mem::swap(self, &mut taken);
        taken
    }
}
