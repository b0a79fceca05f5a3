//! Room for new versions, and new versions.
ghost use Rattle.std.specs.Prelude.{◌≡◌, IfOk, OnOk};
ghost use Rattle.fx_store.specs.Changes.{IsChanges};
ghost use Rattle.fx_shared.specs.Tables.{HasRoom, HaveRoom, IsRoomier, HasOneMore, AreAdded};

use crate::versions::Version;
use fx_base::NoMemory;
use fx_store::{Change, Changes, Path};
use indexmap::IndexMap;
use std::alloc::Global;

/// The versions of each path that an entry has changed.
pub(crate) type Table = IndexMap<Path, Vec<Version>>;

/// Makes room for one version more at each path that changes, and copies the changes. No path's versions change.
pub(crate) fn prepare(
    alloc: Global,
    table: &mut Table,
    changes: &Changes,
) -> Result<Changes, NoMemory>
    ensures copied { IfOk result (λ copy. copy ≡ changes.now) }
    ensures ascending { IsChanges changes.now }
    ensures room { OnOk result (HaveRoom table.new.entries changes.now) }
    ensures roomier { IsRoomier table.old.entries table.new.entries }
{
    for change in changes.as_slice() {
        make_room(alloc, table, &change.path)?;
    }
    changes.copy(alloc)
}

/// Makes room for one version more at a path.
fn make_room(alloc: Global, table: &mut Table, path: &Path) -> Result<(), NoMemory>
    ensures room { OnOk result (HasRoom table.new.entries path.now) }
    ensures roomier { IsRoomier table.old.entries table.new.entries }
{
    match table.get_mut(path) {
        Some(versions) => {
            versions.reserve(1)?;
            Ok(())
        }
        None => {
            let path = path.copy(alloc)?;
            let mut versions = Vec::new(alloc);
            versions.reserve(1)?;
            let_go(table.insert(path, versions)?);
            Ok(())
        }
    }
}

fn let_go(_: Option<Vec<Version>>) {}

/// Adds what an entry has left at each path that it changed. It takes no memory, and needs room for each.
pub(crate) fn add_all(table: &mut Table, changes: Changes, entry: u64)
    requires { HaveRoom table.old.entries changes }
    ensures { AreAdded table.old.entries table.new.entries changes entry }
{
    for change in changes.into_vec() {
        let Change { path, node } = change;
        add_one(table, &path, Version { entry, node });
    }
}

fn add_one(table: &mut Table, path: &Path, version: Version)
    requires { HasRoom table.old.entries path.now }
    ensures { HasOneMore table.old.entries table.new.entries path.now version }
{
    match table.get_mut(path) {
        Some(versions) => versions.push(version).unwrap(),
        None => unreachable!(),
    }
}
