//! A walk over a filestore in the order of paths, from directory to directory over what each lists.
ghost use Rattle.std.specs.Prelude.{◌≡◌, ◌<◌, ◌++◌, suc, Some, ◌∷◌, [], length, drop, IfOk, OnOk, MatchOption, option_copied};
ghost use Rattle.std.specs.FinMap.{get};
ghost use Rattle.fx_store.specs.Whole.{Nodes, IsWhole};
ghost use Rattle.fx_table.specs.Places.{StandsIn};
ghost use Rattle.fx_table.specs.Remaining.{EntersDirectory, IsNextPath, IsLevel, AreLevels, left_of, from_names, names_in, TakesNext, TakesEntry, IsLeftBelow};

use crate::parent::Parent;
use fx_base::NoMemory;
use fx_store::{Filestore, Names, Node, Path};
use std::alloc::Global;

/// A directory, and which of its names comes next.
#[derive(Drop)]
struct Level {
    parent: Parent,
    names: Names,
    next: u64,
}

/// What stands at a path of a filestore, and the directory in which it stands.
#[derive(Drop)]
pub struct Entry<'a> {
    pub parent: Parent,
    pub path: Path,
    pub node: &'a Node,
}

/// A walk over all that stands below the root of a filestore. What stands in a directory comes just after it.
#[derive(Drop)]
pub struct Descent {
    levels: Vec<Level>,
}

impl Descent {
    /// The walk from the root on.
    pub fn new(alloc: Global, store: &Filestore) -> Result<Descent, NoMemory>
        ensures whole { IsWhole (get store.now.nodes) }
        ensures levels { IfOk result (λ d. AreLevels store.now.nodes d.levels.items) }
        ensures left { IfOk result (λ d.
            IsLeftBelow store.now.nodes (left_of store.now.nodes d.levels.items)) }
    {
        let mut levels = Vec::new(alloc);
        enter(alloc, &mut levels, None, &Path::root(alloc), store)?;
        Ok(Descent { levels })
    }

    /// What comes next, unless there is nothing left.
    pub fn next<'a>(
        &mut self,
        alloc: Global,
        store: &'a Filestore,
    ) -> Result<Option<Entry<'a>>, NoMemory>
        requires whole { IsWhole (get store.now.nodes) }
        requires levels { AreLevels store.now.nodes self.old.levels.items }
        ensures levels { OnOk result (AreLevels store.now.nodes self.new.levels.items) }
        ensures next { IfOk result (TakesNext store.now.nodes
            (left_of store.now.nodes self.old.levels.items)
            (left_of store.now.nodes self.new.levels.items)) }
    {
        match self.levels.pop() {
            Some(level) => Ok(Some(step(alloc, &mut self.levels, level, store)?)),
            None => Ok(None),
        }
    }
}

/// What comes next in the directory last entered, of which what is left below stays to be walked.
fn step<'a>(
    alloc: Global,
    levels: &mut Vec<Level>,
    level: Level,
    store: &'a Filestore,
) -> Result<Entry<'a>, NoMemory>
    requires whole { IsWhole (get store.now.nodes) }
    requires level { IsLevel store.now.nodes level }
    requires levels { AreLevels store.now.nodes levels.old.items }
    ensures levels { OnOk result (AreLevels store.now.nodes levels.new.items) }
    ensures next { IfOk result (TakesEntry store.now.nodes
        (left_of store.now.nodes (levels.old.items ++ level ∷ []))
        (left_of store.now.nodes levels.new.items)) }
{
    let parent = level.parent.copy()?;
    let path = child(alloc, &level)?;
    go_on(levels, level)?;
    match enter(alloc, levels, Some(&parent), &path, store)? {
        Some(node) => Ok(Entry { parent, path, node }),
        None => unreachable!(),
    }
}

/// The path of a directory's next name.
fn child(alloc: Global, level: &Level) -> Result<Path, NoMemory>
    requires room { length level.now.parent < 64 }
    requires more { level.now.next < length level.now.names }
    ensures { IfOk result (IsNextPath level.now) }
{
    let Some(name) = level.names.at(level.next) else {
        unreachable!()
    };
    level.parent.path().child(alloc, name)
}

/// Goes back to a directory behind its next name, unless that was its last.
fn go_on(levels: &mut Vec<Level>, mut level: Level) -> Result<(), NoMemory>
    requires { level.next < length level.names }
    ensures levels { (nodes : Nodes) → OnOk result (IsLevel nodes level
        → AreLevels nodes levels.old.items → AreLevels nodes levels.new.items) }
    ensures left { (nodes : Nodes) → OnOk result (left_of nodes levels.new.items
        ≡ from_names nodes level.parent (drop (suc level.next) level.names)
        ++ left_of nodes levels.old.items) }
{
    let count = level.names.len();
    level.next += 1;
    if level.next >= count {
        return Ok(());
    }
    levels.push(level)?;
    Ok(())
}

/// Enters what stands at a path, if it is a directory that lists something, and gives it. The path has one name more than
/// that of this directory, or is the root.
fn enter<'a>(
    alloc: Global,
    levels: &mut Vec<Level>,
    parent: Option<&Parent>,
    path: &Path,
    store: &'a Filestore,
) -> Result<Option<&'a Node>, NoMemory>
    requires { MatchOption parent (path.now ≡ []) (λ p. StandsIn p.now path.now) }
    ensures node { IfOk result (λ node. option_copied node ≡ get store.now.nodes path.now) }
    ensures levels { OnOk result (AreLevels store.now.nodes levels.old.items
        → AreLevels store.now.nodes levels.new.items) }
    ensures left { OnOk result (left_of store.now.nodes levels.new.items
        ≡ from_names store.now.nodes path.now (names_in (get store.now.nodes path.now))
        ++ left_of store.now.nodes levels.old.items) }
    ensures whole { IsWhole (get store.now.nodes) }
{
    let node = store.get(path);
    match node {
        Some(Node::Dir(names)) => {
            push(alloc, levels, directory(alloc, parent, path)?, names)?;
            Ok(node)
        }
        Some(Node::File { .. }) => Ok(node),
        Some(Node::Link(_)) => Ok(node),
        None => Ok(node),
    }
}

/// The directory at a path, which has one name more than that of this directory, or is the root.
fn directory(alloc: Global, parent: Option<&Parent>, path: &Path) -> Result<Parent, NoMemory>
    requires { MatchOption parent (path.now ≡ []) (λ p. StandsIn p.now path.now) }
    ensures { IfOk result (λ directory. directory ≡ path.now) }
{
    match parent {
        Some(parent) => parent.child(alloc, path),
        None => Parent::root(alloc),
    }
}

/// Goes into a directory that lists something.
fn push(
    alloc: Global,
    levels: &mut Vec<Level>,
    parent: Parent,
    names: &Names,
) -> Result<(), NoMemory>
    ensures { OnOk result (EntersDirectory levels.old.items parent names.now levels.new.items) }
{
    if names.len() == 0 {
        return Ok(());
    }
    let level = Level {
        parent,
        names: names.copy(alloc)?,
        next: 0,
    };
    levels.push(level)?;
    Ok(())
}
