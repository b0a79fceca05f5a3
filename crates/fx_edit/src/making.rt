//! A node that is made where directories are missing on the way to it.
ghost use Rattle.std.specs.Prelude.{◌≡◌, ◌++◌, ◌∷◌, ◌+◌, ◌≤◌, ◌<◌, [], Some, false, length, drop, map, slice_get, IfOk, OnOk};
ghost use Rattle.fx_store.specs.declared.node.Node.TheVariants.{File, Dir};
ghost use Rattle.fx_store.specs.Resolve.{◌/ₚ◌};
ghost use Rattle.fx_store.specs.declared.limits.TheConstants.{MAX_PATH_NAMES};
ghost use Rattle.fx_spec.specs.Edit as edit;
ghost use Rattle.fx_session.specs.Implements.{Answers, Implements};
ghost use Rattle.fx_edit.specs.Kinds.{lists_some};
ghost use Rattle.fx_edit.specs.Rules.{made_in, made_node, made_along, made_all, IsNextMade};

use crate::edits::Edits;
use crate::lookups::names_at;
use crate::nodes::empty_file;
use fx_base::NoMemory;
use fx_session::{Halt, Session};
use fx_spec::Refusal;
use fx_store::limits::MAX_PATH_NAMES;
use fx_store::{Name, NameList, Names, Node, Path};
use fx_view::{Reader, Stop};
use std::alloc::Global;
use std::sync::ledger::Ledger;

/// The edit that makes a node at missing names of a directory, unless its path or its entries would be too deep.
pub(crate) fn make<R: Reader, L: Ledger>(
    session: &mut Session<'_, R, L>,
    here: &Path,
    names: &NameList,
    node: &Node,
) -> Result<Edits, Halt>
    ensures follows { Answers R.meaning (λ e. e) session.old session.new
        (edit.unless_deep (edit.is_too_deep here.now names.now node.now)
        (edit.make here.now names.now node.now)) result }
{
    if is_too_deep(here, names, node) {
        return Err(Halt::Refused(Refusal::TooDeep));
    }
    match names.at(0) {
        Some(name) => Ok(make_in(session, here, names, name, node)?),
        None => Err(Halt::Refused(Refusal::Blocked(here.copy(session.alloc)?))),
    }
}

/// Whether the node's path, or that of an entry that it lists, would have more than 64 names.
#[tactic(auto, using(crate::proofs::Makes::deep_over, crate::proofs::Makes::deep_under, crate::proofs::Makes::deep_at))]
fn is_too_deep(here: &Path, names: &NameList, node: &Node) -> bool
    ensures { result ≡ edit.is_too_deep here.now names.now node.now }
{
    let more = names.len() as usize;
    if more > MAX_PATH_NAMES {
        return true;
    }
    let depth = here.len() as usize + more;
    if depth > MAX_PATH_NAMES {
        return true;
    }
    if depth < MAX_PATH_NAMES {
        return false;
    }
    lists_some(node)
}

fn lists_some(node: &Node) -> bool
    ensures { result ≡ lists_some node.now }
{
    match node {
        Node::Dir(names) => names.len() > 0,
        Node::File { .. } => false,
        Node::Link(_) => false,
    }
}

/// The changes that make a node at a first name, with room for all.
fn make_in<R: Reader, L: Ledger>(
    session: &mut Session<'_, R, L>,
    here: &Path,
    names: &NameList,
    name: &Name,
    node: &Node,
) -> Result<Edits, Stop>
    requires first { slice_get names.now 0 ≡ Some name.now }
    requires room { edit.is_too_deep here.now names.now node.now ≡ false }
    ensures follows { Implements R.meaning (λ e. e) session.old session.new
        (made_in here.now name.now (made_all here.now names.now node.now)) result }
{
    let listed = names_at(session, here)?;
    let more = listed.with(session.alloc, name)?;
    let edits = made(session.alloc, here, more, names, node)?;
    edits.look_at_rest(session)?;
    Ok(edits)
}

/// The directory with these names, and what is made in it.
fn made(
    alloc: Global,
    here: &Path,
    listed: Names,
    names: &NameList,
    node: &Node,
) -> Result<Edits, NoMemory>
    requires room { edit.is_too_deep here.now names.now node.now ≡ false }
    ensures { IfOk result (λ edits. edits ≡ edit.set_to here.now (Dir listed)
        ∷ made_all here.now names.now node.now) }
{
    let mut edits = Edits::of(alloc, here.copy(alloc)?, Node::Dir(listed))?;
    let path = add_along(alloc, &mut edits, here, names, node)?;
    add_children(alloc, &mut edits, &path, node)?;
    Ok(edits)
}

/// Adds the missing directories at the names, from a directory on, and the node at the last one, whose path is given.
fn add_along(
    alloc: Global,
    edits: &mut Edits,
    here: &Path,
    names: &NameList,
    node: &Node,
) -> Result<Path, NoMemory>
    requires { length here.now + length names.now ≤ MAX_PATH_NAMES }
    ensures path { IfOk result (λ path. path ≡ here.now ++ names.now) }
    ensures edits { OnOk result (edits.new ≡ edits.old ++ made_along here.now names.now node.now) }
{
    let mut path = here.copy(alloc)?;
    for i in 0..names.len() {
        path = add_next(alloc, edits, &path, names, i, node)?;
    }
    Ok(path)
}

/// Adds what is made at the name of a place, below a path, and gives the longer path.
fn add_next(
    alloc: Global,
    edits: &mut Edits,
    path: &Path,
    names: &NameList,
    i: u64,
    node: &Node,
) -> Result<Path, NoMemory>
    requires within { i < length names.now }
    requires short { length path.now < MAX_PATH_NAMES }
    ensures { IfOk result
        (λ more. IsNextMade names.now i node.now path.now more edits.old edits.new) }
{
    // The next place fits.
    prove!(i < names.len());
    let Some(name) = names.at(i) else {
        unreachable!()
    };
    let more = path.child(alloc, name)?;
    edits.set(more.copy(alloc)?, node_before(alloc, names, i + 1, node)?)?;
    Ok(more)
}

/// What is made before the names from a place on.
fn node_before(alloc: Global, names: &NameList, i: u64, node: &Node) -> Result<Node, NoMemory>
    ensures { IfOk result (λ made. made ≡ made_node (drop i names.now) node.now) }
{
    match names.at(i) {
        Some(name) => Ok(Node::Dir(one(alloc, name)?)),
        None => node.copy(alloc),
    }
}

/// The set of one name.
fn one(alloc: Global, name: &Name) -> Result<Names, NoMemory>
    ensures { IfOk result (λ names. names ≡ name.now ∷ []) }
{
    Names::new(alloc).with(alloc, name)
}

/// Adds the empty files that a new directory lists.
fn add_children(alloc: Global, edits: &mut Edits, path: &Path, node: &Node) -> Result<(), NoMemory>
    requires { edit.lacks_room path.now node.now ≡ false }
    ensures { OnOk result (edits.new ≡ edits.old ++ edit.children path.now node.now) }
{
    match node {
        Node::Dir(names) => add_files(alloc, edits, path, names),
        Node::File { .. } => Ok(()),
        Node::Link(_) => Ok(()),
    }
}

fn add_files(alloc: Global, edits: &mut Edits, path: &Path, names: &Names) -> Result<(), NoMemory>
    requires { edit.lacks_room path.now (Dir names.now) ≡ false }
    ensures { OnOk result (edits.new ≡ edits.old
        ++ map (λ n. edit.set_to (path.now /ₚ n) (File [] false)) names.now) }
{
    for name in names.iter() {
        edits.set(path.child(alloc, name)?, empty_file(alloc))?;
    }
    Ok(())
}
