//! Filestores: a table of places, with a node at some of them.
ghost use Rattle.std.specs.Prelude.{◌≡◌, [], ◌∷◌, length, IsTrue, IsSome, IfOk, OnOk, option_copied, option_map};
ghost use Rattle.std.specs.FinMap.{get};
ghost use Rattle.std.specs.Map.Iter.{deref_pair};
ghost use Rattle.std.specs.Ordering.{eq_by_cmp};
ghost use Rattle.indexmap.specs.IndexMap.{keys, IsUnique};
ghost use Rattle.fx_store.specs.Names.{path_cmp, has_path};
ghost use Rattle.fx_store.specs.Whole.{IsWhole, over, over_nodes, set_node};
ghost use Rattle.fx_store.specs.Filestore.{nodes_of, root_only, place_at, IsTable, HasEachOnce, HavePlaces, KeepsPlaces};

use crate::changes::{Change, Changes};
use crate::names::Names;
use crate::node::Node;
use crate::path::Path;
use fx_base::NoMemory;
use indexmap::IndexMap;
use std::alloc::Global;
use std::marker::Model;

/// A map from path to node, which is always whole: the root is a directory, and a longer path is mapped exactly
/// where its parent is a directory that lists its last name. Its table may have places without a node.
pub struct Filestore {
    table: IndexMap<Path, Option<Node>>,
}

/// It is written out, so that its parts are dropped in this crate alone.
impl Drop for Filestore {
    fn drop(self) {
        let Filestore { table: _table } = self;
    }
}

impl Model for Filestore {
    ghost use Rattle.fx_store.specs.Filestore.{Table, table_code, table_of, IsTable};

    ghost Value = { Table };

    ghost coded = { table_code };

    ghost view = { λ f. table_of f.table.entries };

    ghost invariant = { λ f. IsTable (table_of f.table.entries) };
}

impl Filestore {
    /// The root alone, with no names.
    pub fn new(alloc: Global) -> Result<Filestore, NoMemory>
        ensures nodes { IfOk result (λ s. s.nodes ≡ root_only) }
        ensures places { IfOk result (λ s. s.places ≡ [] ∷ []) }
    {
        let mut table = IndexMap::new(alloc);
        let root = Some(Node::Dir(Names::new(alloc)));
        let_go(table.insert(Path::root(alloc), root)?);
        Ok(Filestore { table })
    }

    /// The filestore that changes make of a root alone, which needs a whole result. Each change takes one look-up.
    pub fn from_changes(alloc: Global, changes: Changes) -> Result<Filestore, NoMemory>
        requires { IsWhole (over (get root_only) changes) }
        ensures { IfOk result (λ s. s.nodes ≡ over_nodes root_only changes) }
    {
        let mut table = IndexMap::new(alloc);
        let root = Some(Node::Dir(Names::new(alloc)));
        let_go(table.insert(Path::root(alloc), root)?);
        set_all(&mut table, changes.into_vec())?;
        Ok(Filestore { table })
    }

    /// Lets go of the filestore.
    pub fn let_go(self) {}

    /// What stands at a path.
    pub fn get(&self, path: &Path) -> Option<&Node>
        ensures node { option_copied result ≡ get self.now.nodes path.now }
        ensures table { IsTable self.now }
    {
        self.table.get(path)?.as_ref()
    }

    /// The number of places in the table.
    pub fn places(&self) -> u64
        ensures places { result ≡ length self.now.places }
        ensures each { HasEachOnce self.now }
        ensures table { IsTable self.now }
    {
        self.table.len() as u64
    }

    /// The path and the node at a place, counted from 0: `None` at a place without a node, and from `places` on.
    pub fn at(&self, i: u64) -> Option<(&Path, &Node)>
        ensures place { option_map deref_pair result ≡ place_at self.now i }
        ensures table { IsTable self.now }
    {
        let (path, slot) = self.table.get_index(i as usize)?;
        let node = slot.as_ref()?;
        Some((path, node))
    }

    /// Makes a place for each path at which the changes set a node. What stands at each path stays; where memory is
    /// refused, some of the places may have been made.
    pub fn reserve(&mut self, alloc: Global, changes: &Changes) -> Result<(), NoMemory>
        ensures places { OnOk result (HavePlaces self.new.places changes.now) }
        ensures nodes { self.new.nodes ≡ self.old.nodes }
        ensures kept { KeepsPlaces self.old.places self.new.places }
    {
        make_places(alloc, &mut self.table, changes.as_slice())
    }

    /// Makes the changes, which takes no memory. It needs a place for each path at which they set a node, and a whole
    /// result.
    pub fn apply(&mut self, changes: Changes)
        requires places { HavePlaces self.old.places changes }
        requires whole { IsWhole (over (get self.old.nodes) changes) }
        ensures nodes { self.new.nodes ≡ over_nodes self.old.nodes changes }
        ensures places { self.new.places ≡ self.old.places }
    {
        put_all(&mut self.table, changes.into_vec());
    }

    /// An equal filestore, with the same places. It shares its names with this one, and what its files hold where that is
    /// shared.
    pub fn copy(&self, _alloc: Global) -> Result<Filestore, NoMemory>
        ensures copied { IfOk result (λ s. s ≡ self.now) }
        ensures table { IsTable self.now }
    {
        Ok(Filestore {
            table: self.table.clone()?,
        })
    }
}

fn make_places(
    alloc: Global,
    table: &mut IndexMap<Path, Option<Node>>,
    changes: &[Change],
) -> Result<(), NoMemory>
    ensures places { OnOk result (HavePlaces (keys table.new) changes.now) }
    ensures nodes { nodes_of table.new.entries ≡ nodes_of table.old.entries }
    ensures kept { KeepsPlaces (keys table.old) (keys table.new) }
    ensures unique { IsUnique (eq_by_cmp path_cmp) table.old
        → IsUnique (eq_by_cmp path_cmp) table.new }
{
    for change in changes {
        make_place(alloc, table, change)?;
    }
    Ok(())
}

/// Makes a place for the path of a change that sets a node, if it has none.
fn make_place(
    alloc: Global,
    table: &mut IndexMap<Path, Option<Node>>,
    change: &Change,
) -> Result<(), NoMemory>
    ensures place { OnOk result
        (IsSome change.now.node → IsTrue (has_path (keys table.new) change.now.path)) }
    ensures nodes { nodes_of table.new.entries ≡ nodes_of table.old.entries }
    ensures kept { KeepsPlaces (keys table.old) (keys table.new) }
    ensures unique { IsUnique (eq_by_cmp path_cmp) table.old
        → IsUnique (eq_by_cmp path_cmp) table.new }
{
    if change.node.is_none() {
        return Ok(());
    }
    if table.contains_key(&change.path) {
        return Ok(());
    }
    let place = change.path.copy(alloc)?;
    let_go(table.insert(place, None)?);
    Ok(())
}

/// Sets what stands at each path of the changes.
fn set_all(table: &mut IndexMap<Path, Option<Node>>, changes: Vec<Change>) -> Result<(), NoMemory>
    ensures nodes { OnOk result (nodes_of table.new.entries
        ≡ over_nodes (nodes_of table.old.entries) changes.items) }
    ensures unique { IsUnique (eq_by_cmp path_cmp) table.old
        → IsUnique (eq_by_cmp path_cmp) table.new }
{
    for change in changes {
        set(table, change)?;
    }
    Ok(())
}

/// Sets what stands at a path, which gets a place.
fn set(table: &mut IndexMap<Path, Option<Node>>, change: Change) -> Result<(), NoMemory>
    ensures nodes { OnOk result (nodes_of table.new.entries
        ≡ set_node (nodes_of table.old.entries) change.path change.node) }
    ensures unique { IsUnique (eq_by_cmp path_cmp) table.old
        → IsUnique (eq_by_cmp path_cmp) table.new }
{
    let Change { path, node } = change;
    let_go(table.insert(path, node)?);
    Ok(())
}

fn put_all(table: &mut IndexMap<Path, Option<Node>>, changes: Vec<Change>)
    requires { HavePlaces (keys table.old) changes.items }
    ensures nodes { nodes_of table.new.entries
        ≡ over_nodes (nodes_of table.old.entries) changes.items }
    ensures places { keys table.new ≡ keys table.old }
{
    for change in changes {
        put(table, change);
    }
}

/// Sets what stands at a path. Where it has no place, nothing stands there before and after.
fn put(table: &mut IndexMap<Path, Option<Node>>, change: Change)
    requires { IsSome change.node → IsTrue (has_path (keys table.old) change.path) }
    ensures nodes { nodes_of table.new.entries
        ≡ set_node (nodes_of table.old.entries) change.path change.node }
    ensures places { keys table.new ≡ keys table.old }
{
    let Change { path, node } = change;
    if !table.contains_key(&path) {
        return let_go(Some(node));
    }
    let_go(table.insert(path, node).unwrap());
}

fn let_go(_: Option<Option<Node>>) {}
