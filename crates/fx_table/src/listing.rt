//! Each directory lists the names that stand directly in it.
ghost use Rattle.std.specs.Prelude.{◌≡◌, ◌<◌, ◌+◌, [], true, map, drop, replicate, length, IfOk, OnOk, MatchOption, is_some, slice_get, Some};
ghost use Rattle.std.specs.Map.{keys_of};
ghost use Rattle.std.specs.List.Sorted.{IsStrictlySortedBy};
ghost use Rattle.fx_outside.specs.Path.{Parts, name_in};
ghost use Rattle.fx_store.specs.Names.{path_cmp};
ghost use Rattle.fx_store.specs.Kinds.{is_dir};
ghost use Rattle.fx_table.specs.Listed.{names_below, listed};
ghost use Rattle.fx_table.specs.Lists.{items_of, IsFolderAt, HasNoFolder, IsAddedAt, HasChildAdded};
ghost use Rattle.fx_table.specs.Shaped.{HaveNameSets, ListsAt, changes_of};
ghost use Rattle.fx_table.specs.Mapped.{mapped_of};

use fx_base::NoMemory;
use fx_store::{Change, Name, Names, Node, Path};
use std::alloc::Global;
use std::mem;

/// Each directory lists the names that stand directly in it, where the changes go by their paths.
pub fn list_names(alloc: Global, found: &mut Vec<Change>) -> Result<(), NoMemory>
    requires set { found.old.items ≡ changes_of (mapped_of found.old.items) }
    requires sets { HaveNameSets (mapped_of found.old.items) }
    ensures { OnOk result (found.new.items ≡ changes_of (listed (mapped_of found.old.items))) }
{
    let mut lists = lists_of(alloc, found)?;
    for i in 0..found.len() {
        let names = list_out(alloc, &mut lists, i);
        list_at(alloc, found, i, names)?;
    }
    Ok(())
}

/// The change at an index lists these names, which stand directly in its directory, if it makes one.
fn list_at(
    alloc: Global,
    found: &mut Vec<Change>,
    i: usize,
    names: Vec<Name>,
) -> Result<(), NoMemory>
    requires within { i < length found.old.items }
    requires sets { HaveNameSets (mapped_of found.old.items) }
    requires names { (path : Parts) → slice_get (keys_of (mapped_of found.old.items)) i ≡ Some path
        → names.items ≡ names_below (mapped_of found.old.items) path }
    ensures { OnOk result (ListsAt found.old.items i found.new.items) }
{
    if !is_dir(&found[i]) {
        return Ok(());
    }
    let names = Names::from_vec(alloc, names)?;
    let_go(mem::replace(&mut found[i].node, Some(Node::Dir(names))));
    Ok(())
}

/// The list at an index, which is taken out.
fn list_out(alloc: Global, lists: &mut Vec<Vec<Name>>, i: usize) -> Vec<Name>
    requires { i < length lists.old.items }
    ensures out { slice_get (map items_of lists.old.items) i ≡ Some result.items }
    ensures rest { drop (i + 1) lists.new.items ≡ drop (i + 1) lists.old.items }
    ensures len { length lists.new.items ≡ length lists.old.items }
{
    mem::replace(&mut lists[i], Vec::new(alloc))
}

/// Whether a change makes a directory.
fn is_dir(change: &Change) -> bool
    ensures { result ≡ is_dir change.now.node }
{
    matches!(&change.node, Some(Node::Dir(_)))
}

fn let_go(_node: Option<Node>) {}

/// For each path the names that stand directly in it, where the changes go by their paths. The directory of a path is
/// mostly the last one before it with one name fewer.
fn lists_of(alloc: Global, found: &[Change]) -> Result<Vec<Vec<Name>>, NoMemory>
    requires { IsStrictlySortedBy path_cmp (keys_of (mapped_of found.now)) }
    ensures { IfOk result (λ lists. map items_of lists.items
        ≡ map (names_below (mapped_of found.now)) (keys_of (mapped_of found.now))) }
{
    let mut lists = no_lists(alloc, found.len())?;
    let mut open: Vec<usize> = Vec::new(alloc);
    for j in 0..found.len() {
        let path = &found[j].path;
        open.truncate(path.len() as usize);
        let last = open.last().copied();
        open.push(j)?;
        add_child(alloc, found, last, path, &mut lists)?;
    }
    Ok(lists)
}

/// Adds the last name of a path to the list of the directory in which it stands directly, if there is one.
fn add_child(
    alloc: Global,
    found: &[Change],
    first: Option<usize>,
    path: &Path,
    lists: &mut Vec<Vec<Name>>,
) -> Result<(), NoMemory>
    requires sorted { IsStrictlySortedBy path_cmp (keys_of (mapped_of found.now)) }
    requires len { length lists.old.items ≡ length found.now }
    ensures { OnOk result (HasChildAdded (keys_of (mapped_of found.now)) path.now
        (map items_of lists.old.items) (map items_of lists.new.items)) }
{
    match folder_of(found, first, path) {
        Some(i) => {
            add_name(alloc, lists, i, path)?;
            Ok(())
        }
        None => Ok(()),
    }
}

/// So many empty lists.
fn no_lists(alloc: Global, n: usize) -> Result<Vec<Vec<Name>>, NoMemory>
    ensures { IfOk result (λ lists. map items_of lists.items ≡ replicate n []) }
{
    let mut lists = Vec::with_capacity(alloc, n)?;
    for i in 0..n {
        prove!(i < n);
        lists.push(Vec::new(alloc))?;
    }
    Ok(lists)
}

/// Where the directory stands in which a path stands directly: at the index that is tried first, or at another.
fn folder_of(found: &[Change], first: Option<usize>, path: &Path) -> Option<usize>
    ensures { MatchOption result (HasNoFolder (keys_of (mapped_of found.now)) path.now)
        (λ i. IsFolderAt (keys_of (mapped_of found.now)) i path.now) }
{
    if let Some(i) = first {
        if i < found.len() && is_child(&found[i].path, path) {
            return Some(i);
        }
    }
    for i in 0..found.len() {
        if is_child(&found[i].path, path) {
            return Some(i);
        }
    }
    None
}

/// Adds a path's last name to the list at an index.
fn add_name(
    alloc: Global,
    lists: &mut Vec<Vec<Name>>,
    i: usize,
    path: &Path,
) -> Result<(), NoMemory>
    requires within { i < length lists.old.items }
    requires long { 0 < length path.now }
    ensures { OnOk result (IsAddedAt i path.now
        (map items_of lists.old.items) (map items_of lists.new.items)) }
{
    let Some(name) = path.last() else {
        unreachable!()
    };
    let name = name.copy(alloc)?;
    lists[i].push(name)?;
    Ok(())
}

/// Whether a path stands directly in a directory.
fn is_child(dir: &Path, path: &Path) -> bool
    ensures { result ≡ is_some (name_in dir.now path.now) }
{
    path.len() == dir.len() + 1 && path.starts_with(dir)
}
