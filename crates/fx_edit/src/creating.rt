//! `create`: an empty file or directory, where nothing is yet.
ghost use Rattle.std.specs.Prelude.{false, take, IfOk};
ghost use Rattle.fx_spec.specs.Edit as edit;
ghost use Rattle.fx_session.specs.Implements.{Answers};
ghost use Rattle.fx_view.specs.Own.{own_at, SameOver};
ghost use Rattle.fx_session.specs.Places.{place_tree};
ghost use Rattle.fx_edit.specs.Edits as says;
ghost use Rattle.fx_edit.specs.Edits.{done, IsNextSet};
ghost use Rattle.fx_edit.specs.Rules.{create_there};

use crate::edits::Edits;
use crate::making::make;
use crate::nodes::bare_node;
use fx_session::{Halt, Session};
use fx_spec::{Place, Refusal};
use fx_store::limits::MAX_PATH_NAMES;
use fx_store::{Landing, Node, Path};
use fx_view::Reader;
use std::sync::ledger::Ledger;

/// Makes an empty file or directory at a place, with the missing directories on the way; the bare form of an option is that of
/// its part, and of a pair that of its first part. A file has the flag false. A last link is not followed. Refused: NoDefault,
/// Exists, Blocked, TooDeep. After a refusal the own changes are as before. Answers how many of the reader's first reads are at
/// none of the changed paths.
pub fn create<R: Reader, L: Ledger>(
    session: &mut Session<'_, R, L>,
    place: &Place,
) -> Result<u64, Halt>
    ensures edits { says.Edits R.meaning session.old session.new
        (edit.create_at (place_tree place.now)) (done result) }
    ensures untouched { IfOk result (λ n. SameOver (take n (R.meaning.reads session.new.reader.now))
        (own_at session.old.own) (own_at session.new.own)) }
    ensures next { IfOk result
        (IsNextSet (R.meaning.reads session.new.reader.now) session.new.own) }
{
    // The place's path is within its limits.
    prove!(place.path.len() as usize <= MAX_PATH_NAMES);
    let edits = created(session, place)?;
    let untouched = edits.untouched(session.reader.reads());
    edits.put_all(session.alloc, &mut session.own)?;
    Ok(untouched)
}

/// The changes of a creation.
fn created<R: Reader, L: Ledger>(
    session: &mut Session<'_, R, L>,
    place: &Place,
) -> Result<Edits, Halt>
    ensures follows { Answers R.meaning (λ e. e) session.old session.new
        (edit.create_at (place_tree place.now)) result }
{
    let node = bare_node(session.alloc, &place.part())?;
    create_node(session, place.path, &node)
}

/// The changes of a creation of a node at a path.
fn create_node<R: Reader, L: Ledger>(
    session: &mut Session<'_, R, L>,
    path: &Path,
    node: &Node,
) -> Result<Edits, Halt>
    ensures follows { Answers R.meaning (λ e. e) session.old session.new
        (create_there path.now node.now) result }
{
    let landing = session.resolve(path, false)?;
    create_landed(session, path, landing, node)
}

/// The changes of a creation by where the place's path lands.
fn create_landed<R: Reader, L: Ledger>(
    session: &mut Session<'_, R, L>,
    path: &Path,
    landing: Landing,
    node: &Node,
) -> Result<Edits, Halt>
    ensures follows { Answers R.meaning (λ e. e) session.old session.new
        (edit.create_landed path.now node.now landing) result }
{
    match landing {
        Landing::At(_) => Err(Halt::Refused(Refusal::Exists)),
        Landing::Absent(here, names) => make(session, &here, &names, node),
        Landing::Blocked(at) => Err(Halt::Refused(Refusal::Blocked(at))),
        Landing::TooManyLinks => Err(Halt::Refused(Refusal::Blocked(path.copy(session.alloc)?))),
    }
}
