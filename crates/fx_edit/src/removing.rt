//! `remove`: the entry at a place's own path goes, with all below it.
ghost use Rattle.std.specs.Prelude.{false, take, IfOk};
ghost use Rattle.fx_spec.specs.Edit as edit;
ghost use Rattle.fx_session.specs.Implements.{Answers, Implements};
ghost use Rattle.fx_view.specs.Own.{own_at, SameOver};
ghost use Rattle.fx_session.specs.Places.{place_tree};
ghost use Rattle.fx_edit.specs.Edits as says;
ghost use Rattle.fx_edit.specs.Edits.{done, IsNextSet};
ghost use Rattle.fx_edit.specs.Rules.{HasLast, removing, remove_there};

use crate::clearing::clear;
use crate::edits::Edits;
use crate::lookups::names_at;
use fx_session::{Halt, Session};
use fx_spec::{Place, Refusal};
use fx_store::limits::MAX_PATH_NAMES;
use fx_store::{Landing, Name, Node, Path};
use fx_view::{Reader, Stop};
use std::sync::ledger::Ledger;

/// Removes the entry at a place's own path, with all below it and with its name in the directory above, whatever the place's
/// form is. A last link is not followed. Refused: Blocked, at the root too, and Absent. After a refusal the own changes are as
/// before. Answers how many of the reader's first reads are at none of the changed paths.
pub fn remove<R: Reader, L: Ledger>(
    session: &mut Session<'_, R, L>,
    place: &Place,
) -> Result<u64, Halt>
    ensures edits { says.Edits R.meaning session.old session.new
        (edit.remove_at (place_tree place.now)) (done result) }
    ensures untouched { IfOk result (λ n. SameOver (take n (R.meaning.reads session.new.reader.now))
        (own_at session.old.own) (own_at session.new.own)) }
    ensures next { IfOk result
        (IsNextSet (R.meaning.reads session.new.reader.now) session.new.own) }
{
    // The place's path is within its limits.
    prove!(place.path.len() as usize <= MAX_PATH_NAMES);
    let edits = gone(session, place.path)?;
    let untouched = edits.untouched(session.reader.reads());
    edits.put_all(session.alloc, &mut session.own)?;
    Ok(untouched)
}

/// The changes of a removal.
fn gone<R: Reader, L: Ledger>(session: &mut Session<'_, R, L>, path: &Path) -> Result<Edits, Halt>
    ensures follows { Answers R.meaning (λ e. e) session.old session.new
        (remove_there path.now) result }
{
    let landing = session.resolve(path, false)?;
    remove_landed(session, path, landing)
}

/// The changes of a removal by where the place's path lands.
fn remove_landed<R: Reader, L: Ledger>(
    session: &mut Session<'_, R, L>,
    path: &Path,
    landing: Landing,
) -> Result<Edits, Halt>
    ensures follows { Answers R.meaning (λ e. e) session.old session.new
        (edit.remove_landed path.now landing) result }
{
    match landing {
        Landing::At(at) => remove_entry(session, at),
        Landing::Absent(_, _) => Err(Halt::Refused(Refusal::Absent)),
        Landing::Blocked(at) => Err(Halt::Refused(Refusal::Blocked(at))),
        Landing::TooManyLinks => Err(Halt::Refused(Refusal::Blocked(path.copy(session.alloc)?))),
    }
}

/// The changes of the removal of an entry; the root stays.
fn remove_entry<R: Reader, L: Ledger>(
    session: &mut Session<'_, R, L>,
    path: Path,
) -> Result<Edits, Halt>
    ensures follows { Answers R.meaning (λ e. e) session.old session.new
        (edit.remove_entry path) result }
{
    match path.last() {
        Some(name) => Ok(remove_named(session, &path, name)?),
        None => Err(Halt::Refused(Refusal::Blocked(path))),
    }
}

/// The changes of the removal of an entry with this last name. The directory above is without the name, and then the
/// entry and all below it go.
fn remove_named<R: Reader, L: Ledger>(
    session: &mut Session<'_, R, L>,
    path: &Path,
    name: &Name,
) -> Result<Edits, Stop>
    requires { HasLast path.now name.now }
    ensures follows { Implements R.meaning (λ e. e) session.old session.new
        (removing path.now name.now) result }
{
    let above = path.parent(session.alloc)?;
    let names = names_at(session, &above)?;
    let mut edits = Edits::of(
        session.alloc,
        above,
        Node::Dir(names.without(session.alloc, name)?),
    )?;
    clear(session, path, &mut edits)?;
    Ok(edits)
}
