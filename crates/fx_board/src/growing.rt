//! What takes memory when an attempt becomes an entry, and what takes none.
ghost use Rattle.std.specs.Prelude.{◌≡◌, ◌≤◌, ◌++◌, [], ◌∷◌, IfOk, IfErr, OnOk, OnErr, length};
ghost use Rattle.indexmap.specs.IndexMap.{spare};
ghost use Rattle.fx_store.specs.Changes.{IsChanges, changed_paths};
ghost use Rattle.fx_store.specs.Whole.{Nodes, over_nodes};
ghost use Rattle.fx_board.specs.Growing.{entry_of, nodes_by, HasRoom, StaysWhole};

use fx_base::NoMemory;
use fx_machine::{Attempt, Entry};
use fx_store::{Changes, Filestore, Path, Paths};
use fx_view::Reads;
use indexmap::IndexMap;
use std::alloc::Global;

/// The changes of an attempt whose entry was added, and the keys for the index: the paths that they change; and what the
/// attempt had read.
#[derive(Drop)]
pub(crate) struct Grown {
    pub changes: Changes,
    pub keys: Vec<Path>,
    pub reads: Reads,
}

/// The paths that changes change, for an entry and for the index.
#[derive(Drop)]
struct Changed {
    paths: Paths,
    keys: Vec<Path>,
}

/// Adds the attempt's entry, and makes room for its changes in the log's filestore and in the index. The changes are handed
/// out with its reads. A refusal hands the attempt back, and adds no entry.
pub(crate) fn grow(
    alloc: Global,
    entries: &mut Vec<Entry>,
    loaded: &Filestore,
    own: &mut Option<Filestore>,
    index: &mut IndexMap<Path, u64>,
    attempt: Attempt,
) -> Result<Grown, Attempt>
    ensures changes { IfOk result (λ grown. grown.changes ≡ attempt.changes) }
    ensures keys { IfOk result (λ grown. grown.keys.items ≡ changed_paths attempt.changes) }
    ensures reads { IfOk result (λ grown. grown.reads ≡ attempt.reads) }
    ensures entry { OnOk result (entries.new.items ≡ entries.old.items ++ entry_of attempt ∷ []) }
    ensures places { OnOk result (HasRoom own.new attempt.changes) }
    ensures room { IfOk result (λ grown. length grown.keys.items ≤ spare index.new) }
    ensures ascending { IsChanges attempt.changes }
    ensures back { IfErr result (λ back. back ≡ attempt) }
    ensures same { OnErr result (entries.new.items ≡ entries.old.items) }
    ensures nodes { nodes_by loaded.now.nodes own.new ≡ nodes_by loaded.now.nodes own.old }
    ensures index { index.new.entries ≡ index.old.entries }
{
    match prepare(alloc, loaded, own, index, &attempt.changes) {
        Ok(changed) => add_entry(entries, changed, attempt),
        Err(NoMemory) => Err(attempt),
    }
}

/// Makes the changes, which takes no memory. It needs room for them, and a whole result.
pub(crate) fn make(own: &mut Option<Filestore>, changes: Changes)
    requires room { HasRoom own.old changes }
    requires whole { StaysWhole own.old changes }
    ensures { (loaded : Nodes)
        → nodes_by loaded own.new ≡ over_nodes (nodes_by loaded own.old) changes }
{
    match own {
        Some(store) => store.apply(changes),
        None => drop(changes),
    }
}

/// The paths of the changes, with room for them in the log's filestore and in the index.
fn prepare(
    alloc: Global,
    loaded: &Filestore,
    own: &mut Option<Filestore>,
    index: &mut IndexMap<Path, u64>,
    changes: &Changes,
) -> Result<Changed, NoMemory>
    ensures paths { IfOk result (λ changed. changed.paths ≡ changed_paths changes.now) }
    ensures keys { IfOk result (λ changed. changed.keys.items ≡ changed_paths changes.now) }
    ensures ascending { IsChanges changes.now }
    ensures places { OnOk result (HasRoom own.new changes.now) }
    ensures room { IfOk result (λ changed. length changed.keys.items ≤ spare index.new) }
    ensures nodes { nodes_by loaded.now.nodes own.new ≡ nodes_by loaded.now.nodes own.old }
    ensures index { index.new.entries ≡ index.old.entries }
{
    let changed = changed_by(alloc, changes)?;
    index.reserve(changed.keys.len())?;
    make_room(alloc, loaded, own, changes)?;
    Ok(changed)
}

/// Makes room for changes: unless there are none, the log's filestore is its own from then on.
fn make_room(
    alloc: Global,
    loaded: &Filestore,
    own: &mut Option<Filestore>,
    changes: &Changes,
) -> Result<(), NoMemory>
    ensures room { OnOk result (HasRoom own.new changes.now) }
    ensures nodes { nodes_by loaded.now.nodes own.new ≡ nodes_by loaded.now.nodes own.old }
{
    if let Some(store) = own {
        return store.reserve(alloc, changes);
    }
    if changes.len() == 0 {
        return Ok(());
    }
    let mut store = loaded.copy(alloc)?;
    store.reserve(alloc, changes)?;
    *own = Some(store);
    Ok(())
}

fn changed_by(alloc: Global, changes: &Changes) -> Result<Changed, NoMemory>
    ensures ascending { IsChanges changes.now }
    ensures paths { IfOk result (λ changed. changed.paths ≡ changed_paths changes.now) }
    ensures keys { IfOk result (λ changed. changed.keys.items ≡ changed_paths changes.now) }
{
    let mut paths = Paths::new(alloc);
    let mut keys = Vec::new(alloc);
    for change in changes.as_slice() {
        keys.push(change.path.copy(alloc)?)?;
        paths.add(alloc, change.path.copy(alloc)?)?;
    }
    Ok(Changed { paths, keys })
}

/// Adds the attempt's entry, which changed these paths, and hands out its changes and reads with the keys; or hands the
/// attempt back.
fn add_entry(entries: &mut Vec<Entry>, changed: Changed, attempt: Attempt) -> Result<Grown, Attempt>
    requires { changed.paths ≡ changed_paths attempt.changes }
    ensures changes { IfOk result (λ grown. grown.changes ≡ attempt.changes) }
    ensures keys { IfOk result (λ grown. grown.keys.items ≡ changed.keys.items) }
    ensures reads { IfOk result (λ grown. grown.reads ≡ attempt.reads) }
    ensures entry { OnOk result (entries.new.items ≡ entries.old.items ++ entry_of attempt ∷ []) }
    ensures back { IfErr result (λ back. back ≡ attempt) }
    ensures same { OnErr result (entries.new.items ≡ entries.old.items) }
{
    let Changed { paths, keys } = changed;
    let Attempt {
        shell,
        txn,
        reads,
        changes,
        outputs,
        end,
    } = attempt;
    let entry = Entry {
        shell,
        txn,
        changed: paths,
        outputs,
        end,
    };
    match entries.push(entry) {
        Ok(()) => Ok(Grown {
            changes,
            keys,
            reads,
        }),
        Err(refused) => Err(Attempt {
            shell,
            txn,
            reads,
            changes,
            outputs: refused.value.outputs,
            end: refused.value.end,
        }),
    }
}
