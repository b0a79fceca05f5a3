//! `store`: a value becomes the content of the node where a place's path lands.
ghost use Rattle.std.specs.Prelude.{◌≡◌, IfOk, take};
ghost use Rattle.fx_store.specs.declared.node.Node.TheVariants.{File, Dir};
ghost use Rattle.fx_store.specs.Rule as rule;
ghost use Rattle.fx_expr.specs.Views.{tree_of};
ghost use Rattle.fx_spec.specs.Edit as edit;
ghost use Rattle.fx_session.specs.Implements.{Answers};
ghost use Rattle.fx_view.specs.Own.{own_at, SameOver};
ghost use Rattle.fx_session.specs.Places.{place_tree};
ghost use Rattle.fx_edit.specs.Edits as says;
ghost use Rattle.fx_edit.specs.Edits.{done, IsNextSet};
ghost use Rattle.fx_store.specs.Kinds.{is_file, is_dir, is_link};
ghost use Rattle.fx_edit.specs.Kinds.{is_alike, old_file};
ghost use Rattle.fx_edit.specs.Rules.{store_there};

use crate::edits::Edits;
use crate::lookups::names_in;
use crate::making::make;
use crate::nodes::{is_flag, stored_node};
use crate::relisting::{Relist, relisted};
use fx_expr::Value;
use fx_session::{Halt, Session};
use fx_spec::{Place, Refusal};
use fx_store::limits::MAX_PATH_NAMES;
use fx_store::{Bytes, Landing, Names, Node, Path};
use fx_view::{Overlay, Reader, Reads};
use std::alloc::Global;
use std::sync::ledger::Ledger;

/// Makes the value the content of the node at a place: a text at a file or a link, a truth value as a file's flag, a set of
/// names at a directory, whose new names are empty files from then on, and whose dropped ones are gone with all below. A text
/// leaves a file its flag, and a flag leaves it its bytes. A node that is missing is made, with the directories on the way: a
/// file with the flag false, or with no bytes. A last link is followed, unless the place is a link's. Refused: WrongForm,
/// BadName, TooDeep, Blocked. After a refusal the own changes are as before. Answers how many of the reader's first reads are at
/// none of the changed paths.
pub fn store<R: Reader, L: Ledger>(
    session: &mut Session<'_, R, L>,
    place: &Place,
    value: &Value,
) -> Result<u64, Halt>
    ensures edits { says.Edits R.meaning session.old session.new
        (edit.store_at (tree_of value.now) (place_tree place.now)) (done result) }
    ensures untouched { IfOk result (λ n. SameOver (take n (R.meaning.reads session.new.reader.now))
        (own_at session.old.own) (own_at session.new.own)) }
    ensures next { IfOk result
        (IsNextSet (R.meaning.reads session.new.reader.now) session.new.own) }
{
    // The place's path is within its limits.
    prove!(place.path.len() as usize <= MAX_PATH_NAMES);
    let edits = stored(session, place, value)?;
    let untouched = edits.untouched(session.reader.reads());
    edits.put_all(session.alloc, &mut session.own)?;
    Ok(untouched)
}

/// The changes of a store.
fn stored<R: Reader, L: Ledger>(
    session: &mut Session<'_, R, L>,
    place: &Place,
    value: &Value,
) -> Result<Edits, Halt>
    ensures follows { Answers R.meaning (λ e. e) session.old session.new
        (edit.store_at (tree_of value.now) (place_tree place.now)) result }
{
    let none = Names::new(session.alloc);
    let likely = likely_names(
        value,
        session.reader.reads(),
        &session.own,
        place.path,
        &none,
    );
    let node = stored_node(session.alloc, &place.part(), value, likely)?;
    store_node(session, place.path, is_flag(value), node)
}

/// Where the value is a set: the names of a directory at a path when it was last changed or looked at, for which no look is
/// needed; or else none.
fn likely_names<'a>(
    value: &Value,
    reads: &'a Reads,
    overlay: &'a Overlay,
    path: &Path,
    none: &'a Names,
) -> &'a Names {
    match value {
        Value::Names(_) => known_names(reads, overlay, path, none),
        _ => none,
    }
}

fn known_names<'a>(
    reads: &'a Reads,
    overlay: &'a Overlay,
    path: &Path,
    none: &'a Names,
) -> &'a Names {
    match overlay.get(path) {
        Some(node) => listed_names(node, none),
        None => match reads.get(path) {
            Some((node, _)) => listed_names(node, none),
            None => none,
        },
    }
}

fn listed_names<'a>(node: &'a Option<Node>, none: &'a Names) -> &'a Names {
    match node {
        Some(Node::Dir(names)) => names,
        Some(Node::File { .. }) | Some(Node::Link(_)) | None => none,
    }
}

/// The changes of a store of a node at a path.
fn store_node<R: Reader, L: Ledger>(
    session: &mut Session<'_, R, L>,
    path: &Path,
    flag: bool,
    node: Node,
) -> Result<Edits, Halt>
    ensures follows { Answers R.meaning (λ e. e) session.old session.new
        (store_there flag path.now node) result }
{
    let landing = session.resolve(path, follows_last(&node))?;
    store_landed(session, path, flag, landing, node)
}

fn follows_last(node: &Node) -> bool
    ensures { result ≡ edit.follows_last node.now }
{
    match node {
        Node::File { .. } => true,
        Node::Dir(_) => true,
        Node::Link(_) => false,
    }
}

/// The changes of a store by where the place's path lands.
fn store_landed<R: Reader, L: Ledger>(
    session: &mut Session<'_, R, L>,
    path: &Path,
    flag: bool,
    landing: Landing,
    node: Node,
) -> Result<Edits, Halt>
    ensures follows { Answers R.meaning (λ e. e) session.old session.new
        (edit.store_landed flag path.now node landing) result }
{
    match landing {
        Landing::At(at) => replace(session, at, flag, node),
        Landing::Absent(here, names) => make(session, &here, &names, &node),
        Landing::Blocked(at) => Err(Halt::Refused(Refusal::Blocked(at))),
        Landing::TooManyLinks => Err(Halt::Refused(Refusal::Blocked(path.copy(session.alloc)?))),
    }
}

/// The changes of a store where a node stands.
fn replace<R: Reader, L: Ledger>(
    session: &mut Session<'_, R, L>,
    path: Path,
    flag: bool,
    node: Node,
) -> Result<Edits, Halt>
    ensures follows { Answers R.meaning (λ e. e) session.old session.new
        (rule.Look path (edit.replaced flag path node)) result }
{
    let found = session.look(&path)?;
    replaced(session, path, flag, node, found)
}

/// The changes of a store where this was found: a node of the same kind alone is replaced.
fn replaced<R: Reader, L: Ledger>(
    session: &mut Session<'_, R, L>,
    path: Path,
    flag: bool,
    node: Node,
    found: Option<Node>,
) -> Result<Edits, Halt>
    ensures follows { Answers R.meaning (λ e. e) session.old session.new
        (edit.replaced flag path node found) result }
{
    if !is_alike(&node, &found) {
        return Err(Halt::Refused(Refusal::Blocked(path)));
    }
    match node {
        Node::File { bytes, exec } => {
            let file = renewed(session.alloc, flag, bytes, exec, found);
            Ok(Edits::of(session.alloc, path, file)?)
        }
        Node::Link(text) => Ok(Edits::of(session.alloc, path, Node::Link(text))?),
        Node::Dir(new) => {
            let old = names_in(session.alloc, found);
            relist(session, Relist { path, old, new })
        }
    }
}

/// The changes of a directory's new names, for which it needs room below it.
fn relist<R: Reader, L: Ledger>(
    session: &mut Session<'_, R, L>,
    list: Relist,
) -> Result<Edits, Halt>
    ensures follows { Answers R.meaning (λ e. e) session.old session.new
        (edit.unless_deep (edit.lacks_room list.path (Dir list.new))
        (edit.new_names list.path list.old list.new)) result }
{
    if lacks_room(&list.path, &list.new) {
        return Err(Halt::Refused(Refusal::TooDeep));
    }
    Ok(relisted(session, &list)?)
}

/// Whether the names would be below a path of 64 names.
fn lacks_room(path: &Path, names: &Names) -> bool
    ensures { result ≡ edit.lacks_room path.now (Dir names.now) }
{
    path.len() as usize >= MAX_PATH_NAMES && names.len() > 0
}

/// The file that was found, with this flag, or else with these bytes.
fn renewed(alloc: Global, flag: bool, bytes: Bytes, exec: bool, found: Option<Node>) -> Node
    ensures { result ≡ edit.renewed flag (File bytes exec) (old_file found) }
{
    let (old, was) = file_in(alloc, found);
    if flag {
        let_go(bytes);
        Node::File { bytes: old, exec }
    } else {
        let_go(old);
        Node::File { bytes, exec: was }
    }
}

/// The bytes and the flag of a file.
fn file_in(alloc: Global, found: Option<Node>) -> (Bytes, bool)
    ensures { File result.0 result.1 ≡ old_file found }
{
    match found {
        Some(Node::File { bytes, exec }) => (bytes, exec),
        Some(Node::Dir(_)) | Some(Node::Link(_)) | None => (Bytes::new(alloc), false),
    }
}

fn let_go(_: Bytes) {}

fn is_alike(node: &Node, found: &Option<Node>) -> bool
    ensures { result ≡ is_alike node.now found.now }
{
    match node {
        Node::File { .. } => is_file(found),
        Node::Dir(_) => is_dir(found),
        Node::Link(_) => is_link(found),
    }
}

fn is_file(found: &Option<Node>) -> bool
    ensures { result ≡ is_file found.now }
{
    matches!(found, Some(Node::File { .. }))
}

fn is_dir(found: &Option<Node>) -> bool
    ensures { result ≡ is_dir found.now }
{
    matches!(found, Some(Node::Dir(_)))
}

fn is_link(found: &Option<Node>) -> bool
    ensures { result ≡ is_link found.now }
{
    matches!(found, Some(Node::Link(_)))
}
