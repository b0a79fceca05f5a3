//! Filestores from what was found of a folder.
ghost use Rattle.std.specs.Prelude.{◌≡◌, IfOk};
ghost use Rattle.std.specs.FinMap.{get, from_entries};
ghost use Rattle.fx_store.specs.Changes.{IsChanges};
ghost use Rattle.fx_store.specs.Filestore.{root_only};
ghost use Rattle.fx_store.specs.Whole.{IsWhole, over, over_nodes};
ghost use Rattle.fx_table.specs.Listed.{listed};
ghost use Rattle.fx_table.specs.Mapped.{mapped_of};
ghost use Rattle.fx_table.specs.Shaped.{AreShaped};

use fx_base::NoMemory;
use fx_store::{Change, Changes, Filestore};
use fx_table::list_names;
use std::alloc::Global;

/// The filestore of files, directories and links, whose directories are to list them.
pub(crate) fn filestore_of(alloc: Global, mut found: Vec<Change>) -> Result<Filestore, NoMemory>
    requires { AreShaped found.items }
    ensures { IfOk result (λ s. s.nodes ≡ from_entries (listed (mapped_of found.items))) }
{
    list_names(alloc, &mut found)?;
    made_of(alloc, found)
}

/// The filestore that changes make of a root alone.
fn made_of(alloc: Global, found: Vec<Change>) -> Result<Filestore, NoMemory>
    requires ascending { IsChanges found.items }
    requires whole { IsWhole (over (get root_only) found.items) }
    ensures { IfOk result (λ s. s.nodes ≡ over_nodes root_only found.items) }
{
    Filestore::from_changes(alloc, Changes::from_vec(found))
}
