//! Sets of paths.
ghost use Rattle.std.specs.Prelude.{◌≡◌, ◌↔◌, ◌++◌, ◌∷◌, [], length, IsTrue, OnOk, OnErr};
ghost use Rattle.std.specs.List.Sorted.{IsStrictlySortedBy};
ghost use Rattle.std.specs.Slice.Iter.{iter_rest};
ghost use Rattle.fx_store.specs.Names.{IsPathSet, has_path, path_cmp};

use crate::limits::MAX_PATH_NAMES;
use crate::order::is_above;
use crate::path::Path;
use fx_base::NoMemory;
use std::alloc::Global;
use std::marker::Model;
use std::slice;

/// Paths, each once, in ascending order.
#[derive(Debug)]
pub struct Paths {
    paths: Vec<Path>,
}

/// It is written out, so that its parts are dropped in this crate alone.
impl Drop for Paths {
    fn drop(self) {
        let Paths { paths: _paths } = self;
    }
}

impl Model for Paths {
    ghost use Rattle.std.specs.Prelude.{List, ℕ};
    ghost use Rattle.fx_store.specs.Names.{IsPathSet};

    ghost Value = { List (List (List ℕ)) };

    ghost view = { λ s. s.paths.items };

    ghost invariant = { λ s. IsPathSet s.paths.items };
}

impl Paths {
    /// No paths.
    pub fn new(alloc: Global) -> Paths
        ensures { result ≡ [] }
    {
        Paths {
            paths: Vec::new(alloc),
        }
    }

    /// The number of paths.
    pub fn len(&self) -> u64
        ensures len { result ≡ length self.now }
        ensures set { IsPathSet self.now }
    {
        self.paths.len() as u64
    }

    /// The paths in ascending order.
    pub fn iter(&self) -> slice::Iter<'_, Path>
        ensures rest { iter_rest result ≡ self.now }
        ensures len { length (iter_rest result) ≡ length self.now }
        ensures set { IsPathSet self.now }
    {
        self.paths.iter()
    }

    /// Whether a path is one of these, by binary search.
    pub fn has(&self, path: &Path) -> bool
        ensures found { result ≡ has_path self.now path.now }
        ensures set { IsPathSet self.now }
    {
        self.paths.binary_search(path).is_ok()
    }

    /// Whether a path is greater than each of these, so that it may be added.
    pub fn is_next(&self, path: &Path) -> bool
        ensures { IsTrue result ↔ IsStrictlySortedBy path_cmp (self.now ++ path.now ∷ []) }
    {
        is_above(&self.paths, path)
    }

    /// Adds a path at the end, which needs one that is greater than each of these.
    pub fn add(&mut self, _alloc: Global, item: Path) -> Result<(), NoMemory>
        requires { IsStrictlySortedBy path_cmp (self.old ++ item ∷ []) }
        ensures ok { OnOk result (self.new ≡ self.old ++ item ∷ []) }
        ensures err { OnErr result (self.new ≡ self.old) }
    {
        prove!(item.len() as usize <= MAX_PATH_NAMES);
        self.paths.push(item)?;
        Ok(())
    }
}
