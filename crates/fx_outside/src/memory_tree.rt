//! The tree of a host in memory.
ghost use Rattle.std.specs.Prelude.{◌≡◌, ◌<◌, ◌≤◌, length, option_map, IfOk, OnOk, OnErr, IfSome, IsSome};
ghost use Rattle.std.specs.FinMap.{get, insert};
ghost use Rattle.fx_outside.specs.Tree.{has_folder, is_free, Lists};
ghost use Rattle.fx_outside.specs.Host.{ReadsAt};
ghost use Rattle.fx_outside.specs.Memory.{tree_of};

use crate::parts::Parts;
use crate::{HostKind, Listing};
use fx_base::NoMemory;
use std::alloc::Global;
use std::collections::BTreeMap;
use std::marker::Model;

/// An entry; only a file has bytes.
#[derive(Debug)]
pub struct Stored {
    pub kind: HostKind,
    pub bytes: Vec<u8>,
}

/// It is written out, so that its parts are dropped in this crate alone.
impl Drop for Stored {
    fn drop(self) {
        let Stored {
            kind: _kind,
            bytes: _bytes,
        } = self;
    }
}

impl Model for Stored {
    ghost use Rattle.fx_outside.specs.Tree.{Entry};

    ghost Value = { Entry };

    ghost view = { λ s. record { kind = s.kind; bytes = s.bytes.items } };
}

impl Stored {
    fn kind(&self) -> HostKind
        ensures { result ≡ self.now.kind }
    {
        self.kind
    }

    fn bytes(&self) -> &[u8]
        ensures { result.now ≡ self.now.bytes }
    {
        &self.bytes
    }
}

/// The entries of a tree, each by its parts.
pub type Entries = BTreeMap<Parts, Stored>;

/// The kind of the entry at these parts.
pub fn kind_at(tree: &Entries, names: &Parts) -> Option<HostKind>
    ensures { result ≡ option_map (λ e. e.kind) (get (tree_of tree.now.entries) names.now) }
{
    match tree.get(names) {
        None => None,
        Some(stored) => Some(stored.kind()),
    }
}

/// Whether a folder stands at these parts; the root, with no parts, is one.
pub fn has_folder(tree: &Entries, names: &Parts) -> bool
    ensures { result ≡ has_folder (tree_of tree.now.entries) names.now }
{
    if names.is_root() {
        return true;
    }
    match kind_at(tree, names) {
        None => false,
        Some(kind) => kind == HostKind::Folder,
    }
}

/// Whether nothing stands at these parts and a folder stands above.
pub fn is_free(alloc: Global, tree: &Entries, names: &Parts) -> Result<bool, NoMemory>
    ensures { IfOk result (λ free. free ≡ is_free (tree_of tree.now.entries) names.now) }
{
    if kind_at(tree, names).is_some() {
        return Ok(false);
    }
    let above = names.above(alloc)?;
    Ok(has_folder(tree, &above))
}

/// Adds an entry. A refusal changes nothing.
pub fn add(tree: &mut Entries, names: Parts, kind: HostKind, bytes: Vec<u8>) -> Result<(), NoMemory>
    ensures added { OnOk result (tree_of tree.new.entries
        ≡ insert (tree_of tree.old.entries) names (record { kind = kind; bytes = bytes.items })) }
    ensures same { OnErr result (tree_of tree.new.entries ≡ tree_of tree.old.entries) }
{
    tree.insert(names, Stored { kind, bytes })?;
    Ok(())
}

/// Reads the bytes of an entry from a place on into the front of a buffer.
pub fn read_at(tree: &Entries, names: &Parts, from: u64, buf: &mut [u8]) -> usize
    requires there { IsSome (get (tree_of tree.now.entries) names.now) }
    requires room { 0 < length buf.old }
    ensures bound { result ≤ length buf.new }
    ensures read { IfSome (get (tree_of tree.now.entries) names.now)
        (λ e. ReadsAt e.bytes from result buf.new) }
{
    match tree.get(names) {
        None => unreachable!(),
        Some(stored) => copy_front(stored.bytes(), from, buf),
    }
}

fn copy_front(bytes: &[u8], from: u64, buf: &mut [u8]) -> usize
    requires { 0 < length buf.old }
    ensures bound { result ≤ length buf.new }
    ensures read { ReadsAt bytes.now from result buf.new }
{
    let start = (from as usize).min(bytes.len());
    let rest = &bytes[start..];
    let count = rest.len().min(buf.len());
    buf[..count].copy_from_slice(&rest[..count]);
    count
}

/// The names directly in the folder at these parts.
pub fn names_in(alloc: Global, tree: &Entries, folder: &Parts) -> Result<Listing, NoMemory>
    ensures { IfOk result (λ names. Lists (tree_of tree.now.entries) folder.now names) }
{
    let mut names = Listing::new(alloc);
    for (place, stored) in tree {
        if let Some(name) = place.name_in(folder) {
            names.add(alloc, name.copy(alloc)?, stored.kind())?;
        }
    }
    Ok(names)
}
