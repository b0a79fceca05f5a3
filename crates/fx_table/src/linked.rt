//! The links and flags of a table among what a filestore holds.
ghost use Rattle.std.specs.Prelude.{◌≡◌, ◌++◌, ◌∷◌, [], map, true, IfOk, IfErr, OnOk, IsSome, Some};
ghost use Rattle.std.specs.FinMap.{get, entries};
ghost use Rattle.fx_store.specs.Whole.{IsWhole, over_nodes};
ghost use Rattle.fx_table.specs.Lines.{AreLines, lines_in};
ghost use Rattle.fx_table.specs.Table.{over};
ghost use Rattle.fx_table.specs.Linked.{MakesTable, TableCause, linked_nodes, bare, kept_of, Keeps, KeepsFlag, AddsBare, flag_in};
ghost use Rattle.fx_table.specs.Shaped.{changes_of};

use crate::LoadFault;
use crate::descent::Descent;
use crate::lines::{Room, read_lines};
use crate::listing::list_names;
use crate::merging::merged;
use fx_base::NoMemory;
use fx_store::{Bytes, Change, Changes, Filestore, Names, Node, Path};
use std::alloc::Global;

/// The changes that make the links and flags of a table's text among what a filestore holds: the links, the directories,
/// which list them too, and the files whose flag is another. A file that no line names is not executable. The text is refused
/// at its first bad line.
pub fn read_table(alloc: Global, text: &[u8], store: &Filestore) -> Result<Changes, LoadFault>
    ensures read { IfOk result (MakesTable store.now.nodes text.now) }
    ensures cause { IfErr result (TableCause store.now.nodes text.now) }
{
    let room = Room {
        links: text.len() as u64,
        bytes: text.len() as u64,
    };
    let lines = read_lines(alloc, text, store, room)?;
    Ok(changes_by(alloc, store, lines)?)
}

/// The changes that make the links and flags of lines.
fn changes_by(alloc: Global, store: &Filestore, lines: Changes) -> Result<Changes, NoMemory>
    requires { AreLines (over (get store.now.nodes) true) lines }
    ensures { IfOk result (λ changes.
        over_nodes store.now.nodes changes ≡ linked_nodes store.now.nodes (lines_in lines)) }
{
    let bare = bare_nodes(alloc, store)?;
    let mut all = merged(alloc, bare, lines)?;
    list_names(alloc, &mut all)?;
    Ok(Changes::from_vec(kept_of(alloc, all, store)?))
}

/// Each path of a filestore, with a directory without names or an empty file.
fn bare_nodes(alloc: Global, store: &Filestore) -> Result<Vec<Change>, NoMemory>
    ensures bare { IfOk result
        (λ all. all.items ≡ changes_of (map bare (entries store.now.nodes))) }
    ensures whole { IsWhole (get store.now.nodes) }
{
    let mut descent = Descent::new(alloc, store)?;
    let mut all = Vec::new(alloc);
    all.push(Change {
        path: Path::root(alloc),
        node: Some(Node::Dir(Names::new(alloc))),
    })?;
    'going: while let Some(entry) = descent.next(alloc, store)? {
        add_bare(alloc, entry.path, entry.node, &mut all)?;
    }
    Ok(all)
}

/// Adds a path with a directory without names, or with an empty file.
fn add_bare(alloc: Global, path: Path, node: &Node, all: &mut Vec<Change>) -> Result<(), NoMemory>
    ensures { OnOk result (AddsBare path node.now all.old.items all.new.items) }
{
    let node = match node {
        Node::Dir(_) => Node::Dir(Names::new(alloc)),
        Node::File { .. } => Node::File {
            bytes: Bytes::new(alloc),
            exec: false,
        },
        Node::Link(_) => Node::File {
            bytes: Bytes::new(alloc),
            exec: false,
        },
    };
    all.push(Change {
        path,
        node: Some(node),
    })?;
    Ok(())
}

/// The changes without those of files whose flag stays. The others of files have the bytes that stand there.
fn kept_of(alloc: Global, all: Vec<Change>, store: &Filestore) -> Result<Vec<Change>, NoMemory>
    ensures { IfOk result (λ kept. kept.items ≡ kept_of store.now.nodes all.items) }
{
    let mut kept = Vec::new(alloc);
    for change in all {
        keep(alloc, &mut kept, change, store)?;
    }
    Ok(kept)
}

/// Adds a change, of a file only where its flag is another.
fn keep(
    alloc: Global,
    kept: &mut Vec<Change>,
    change: Change,
    store: &Filestore,
) -> Result<(), NoMemory>
    ensures { OnOk result (Keeps store.now.nodes change kept.old.items kept.new.items) }
{
    match flag_in(&change) {
        Some(exec) => keep_flag(alloc, kept, &change.path, exec, store),
        None => {
            kept.push(change)?;
            Ok(())
        }
    }
}

/// The flag of the file that a change makes, if it makes one.
fn flag_in(change: &Change) -> Option<bool>
    ensures { result ≡ flag_in change.now.node }
{
    match &change.node {
        Some(Node::File { exec, .. }) => Some(*exec),
        Some(Node::Dir(_)) => None,
        Some(Node::Link(_)) => None,
        None => None,
    }
}

/// Adds a change of a file's flag, unless it has this one or no file stands there.
fn keep_flag(
    alloc: Global,
    kept: &mut Vec<Change>,
    path: &Path,
    exec: bool,
    store: &Filestore,
) -> Result<(), NoMemory>
    ensures { OnOk result (KeepsFlag exec path.now (get store.now.nodes path.now)
        kept.old.items kept.new.items) }
{
    match store.get(path) {
        Some(Node::File { bytes, exec: was }) => {
            if exec == *was {
                return Ok(());
            }
            add_file(alloc, kept, path, bytes, exec)
        }
        Some(Node::Dir(_)) => Ok(()),
        Some(Node::Link(_)) => Ok(()),
        None => Ok(()),
    }
}

/// Adds a change that makes a file.
fn add_file(
    alloc: Global,
    kept: &mut Vec<Change>,
    path: &Path,
    bytes: &Bytes,
    exec: bool,
) -> Result<(), NoMemory>
    ensures { OnOk result (kept.new.items ≡ kept.old.items
        ++ record { path = path.now; node = Some (Node.File bytes.now exec) } ∷ []) }
{
    let path = path.copy(alloc)?;
    let node = Node::File {
        bytes: bytes.copy(alloc)?,
        exec,
    };
    kept.push(Change {
        path,
        node: Some(node),
    })?;
    Ok(())
}
