//! Files and directories, among which links are made.
ghost use Rattle.std.specs.Prelude.{◌≡◌, option_copied, unwrap_or, None};
ghost use Rattle.std.specs.FinMap.{get};
ghost use Rattle.fx_store.specs.Changes.{change_at};
ghost use Rattle.fx_store.specs.Names.{path_cmp};
ghost use Rattle.fx_store.specs.Kinds.{is_dir, is_file};
ghost use Rattle.fx_table.specs.Lines.{standing_by};

use crate::lines::Ground;
use fx_base::NoMemory;
use fx_store::{Change, Changes, Filestore, Node, Path};
use std::alloc::Global;
use std::cmp::Ordering;

impl Ground for Changes {
    ghost store = { standing_by };

    fn can_stand(&self, alloc: Global, path: &Path) -> Result<bool, NoMemory> {
        if node_in(self, path).is_some() {
            return Ok(false);
        }
        let above = path.parent(alloc)?;
        Ok(is_dir(node_in(self, &above)))
    }

    fn is_file(&self, path: &Path) -> bool {
        is_file(node_in(self, path))
    }
}

impl Ground for Filestore {
    ghost store = { λ s. get s.nodes };

    fn can_stand(&self, alloc: Global, path: &Path) -> Result<bool, NoMemory> {
        if self.get(path).is_some() {
            return Ok(false);
        }
        let above = path.parent(alloc)?;
        Ok(is_dir(self.get(&above)))
    }

    fn is_file(&self, path: &Path) -> bool {
        is_file(self.get(path))
    }
}

/// What stands at a path by changes alone.
pub(crate) fn node_in<'a>(changes: &'a Changes, path: &Path) -> Option<&'a Node>
    ensures { option_copied result ≡ standing_by changes.now path.now }
{
    let compare = |change: &Change| -> Ordering
        ensures { result ≡ path_cmp change.now.path path.entry.now }
    { change.path.compare(path) };
    let changes = changes.as_slice();
    match changes.binary_search_by(compare) {
        Ok(i) => changes[i].node.as_ref(),
        Err(_) => None,
    }
}

fn is_dir(node: Option<&Node>) -> bool
    ensures { result ≡ is_dir (option_copied node.entry) }
{
    matches!(node, Some(Node::Dir(_)))
}

fn is_file(node: Option<&Node>) -> bool
    ensures { result ≡ is_file (option_copied node.entry) }
{
    matches!(node, Some(Node::File { .. }))
}
