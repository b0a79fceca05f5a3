//! Bytes, names, paths and filestores, where memory is ample.

use fx_base::NoMemory;
use fx_store::{
    Bytes, Change, Changes, Filestore, LinkText, Name, NameList, Names, Node, Path, Paths,
};
use std::alloc::Global;
use std::fmt::Write;

fn some_bytes(alloc: Global) -> Result<Bytes, NoMemory> {
    let bytes = Bytes::from_vec(Vec::from_slice(alloc, b"h")?);
    bytes.copy(alloc)
}

/// Whether a copy has the bytes, and how many a clone of it has.
fn bytes_told(alloc: Global) -> Result<(bool, u64), NoMemory> {
    let bytes = some_bytes(alloc)?;
    let same = bytes.as_slice() == b"h".as_slice();
    Ok((same, bytes.clone()?.len()))
}

fn some_name(alloc: Global) -> Result<Name, NoMemory> {
    match Name::read(alloc, b"a") {
        Ok(name) => Ok(name),
        Err(_) => Err(NoMemory),
    }
}

fn some_names(alloc: Global, name: &Name) -> Result<Names, NoMemory> {
    let copy = name.copy(alloc)?;
    let mut names = Names::new(alloc);
    if names.is_next(&copy) {
        names.add(alloc, copy)?;
    }
    names.copy(alloc)
}

fn some_list(alloc: Global, name: &Name) -> Result<NameList, NoMemory> {
    let copy = name.copy(alloc)?;
    let mut names = NameList::new(alloc);
    names.add(alloc, copy)?;
    Ok(names)
}

/// Whether a clone of a name is the name, whether a set of names has it, and how many a clone of the set has.
fn names_told(alloc: Global) -> Result<(bool, bool, u64), NoMemory> {
    let name = some_name(alloc)?;
    let same = name.clone()? == name;
    let names = some_names(alloc, &name)?;
    Ok((same, names.has(&name), names.clone()?.len()))
}

fn list_told(alloc: Global) -> Result<u64, NoMemory> {
    let name = some_name(alloc)?;
    Ok(some_list(alloc, &name)?.len())
}

fn some_paths(alloc: Global, path: &Path) -> Result<Paths, NoMemory> {
    let copy = path.copy(alloc)?;
    let mut paths = Paths::new(alloc);
    if paths.is_next(&copy) {
        paths.add(alloc, copy)?;
    }
    Ok(paths)
}

fn one_change(alloc: Global, path: Path, node: Option<Node>) -> Result<Changes, NoMemory> {
    let mut changes = Changes::new(alloc);
    if changes.is_next(&path) {
        changes.add(alloc, Change { path, node })?;
    }
    Ok(changes)
}

/// How many names a clone of the root has, and whether a set of paths has the root.
fn paths_told(alloc: Global) -> Result<(u32, bool), NoMemory> {
    let root = Path::root(alloc);
    let names = root.clone()?.len();
    Ok((names, some_paths(alloc, &root)?.has(&root)))
}

fn changes_told(alloc: Global) -> Result<u64, NoMemory> {
    let changes = one_change(alloc, Path::root(alloc), None)?;
    Ok(changes.copy(alloc)?.len())
}

fn some_path(alloc: Global) -> Result<Path, NoMemory> {
    match Path::read(alloc, b"/a") {
        Ok(path) => Ok(path),
        Err(_) => Err(NoMemory),
    }
}

fn size_of(node: Option<&Node>) -> u64 {
    match node {
        Some(Node::File { bytes, .. }) => bytes.len(),
        Some(Node::Dir(names)) => names.len(),
        _ => 0,
    }
}

/// How many places there are, the size of what stands at the root, and whether there is a node at the first place and at the
/// second.
fn counts(store: &Filestore, root: &Path) -> (u64, u64, bool, bool) {
    (
        store.places(),
        size_of(store.get(root)),
        store.at(0).is_some(),
        store.at(1).is_some(),
    )
}

fn store_told(alloc: Global) -> Result<(u64, u64, bool, bool), NoMemory> {
    let root = Path::root(alloc);
    let store = Filestore::new(alloc)?;
    Ok(counts(&store.copy(alloc)?, &root))
}

fn reserved(alloc: Global, changes: &Changes) -> Result<Filestore, NoMemory> {
    let mut store = Filestore::new(alloc)?;
    store.reserve(alloc, changes)?;
    Ok(store)
}

/// How many places there are, and whether something stands at the path.
fn places_of(alloc: Global, changes: &Changes, path: &Path) -> Result<(u64, bool), NoMemory> {
    let store = reserved(alloc, changes)?;
    Ok((store.places(), store.get(path).is_some()))
}

/// The same where a place is reserved for each change: none, and a directory.
fn places_told(alloc: Global) -> Result<[(u64, bool); 2], NoMemory> {
    let path = some_path(alloc)?;
    let node = Some(Node::Dir(Names::new(alloc)));
    let changes = one_change(alloc, path.copy(alloc)?, node)?;
    Ok([
        places_of(alloc, &Changes::new(alloc), &path)?,
        places_of(alloc, &changes, &path)?,
    ])
}

fn some_link(alloc: Global) -> Result<LinkText, NoMemory> {
    match LinkText::read(alloc, b"b") {
        Ok(text) => Ok(text),
        Err(_) => Err(NoMemory),
    }
}

/// Whether a clone of a link's text is as the text.
fn link_told(alloc: Global) -> Result<bool, NoMemory> {
    let text = some_link(alloc)?;
    Ok(text.clone()?.as_slice() == b"b".as_slice())
}

fn copied_node(alloc: Global) -> Result<Node, NoMemory> {
    let text = some_link(alloc)?;
    let node = Node::Link(text.copy(alloc)?);
    node.copy(alloc)
}

fn copied_change(alloc: Global) -> Result<Change, NoMemory> {
    let node = Some(copied_node(alloc)?);
    let path = Path::root(alloc);
    let change = Change { path, node };
    change.copy(alloc)
}

fn is_link(node: &Option<Node>) -> bool {
    matches!(node, Some(Node::Link(_)))
}

/// Whether a clone of a clone of the change's node is a link.
fn is_cloned_link(change: &Change) -> Result<bool, NoMemory> {
    let clone = change.clone()?;
    Ok(is_link(&clone.node.clone()?))
}

/// How many names the path of a change has, whether its node is a link, and whether a clone's is one.
fn change_told(alloc: Global) -> Result<(u32, bool, bool), NoMemory> {
    let change = copied_change(alloc)?;
    Ok((
        change.path.len(),
        is_link(&change.node),
        is_cloned_link(&change)?,
    ))
}

/// Tells what is added to names, paths and filestores, and what copies and clones of them are.
pub fn tell_stores(alloc: Global, out: &mut String) -> Result<(), NoMemory> {
    writeln!(out, "> bytes {:?}", bytes_told(alloc)?)?;
    writeln!(out, "> names {:?}", names_told(alloc)?)?;
    writeln!(out, "> list {:?}", list_told(alloc)?)?;
    writeln!(out, "> paths {:?}", paths_told(alloc)?)?;
    writeln!(out, "> changes {:?}", changes_told(alloc)?)?;
    writeln!(out, "> store {:?}", store_told(alloc)?)?;
    writeln!(out, "> places {:?}", places_told(alloc)?)?;
    writeln!(out, "> link {:?}", link_told(alloc)?)?;
    writeln!(out, "> change {:?}", change_told(alloc)?)?;
    Ok(())
}
