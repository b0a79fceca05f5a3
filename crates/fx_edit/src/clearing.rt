//! The removal of an entry with all below it.
ghost use Rattle.fx_store.specs.Resolve.{◌/ₚ◌};
ghost use Rattle.fx_spec.specs.Edit as edit;
ghost use Rattle.fx_session.specs.Implements.{Implements};
ghost use Rattle.fx_edit.specs.Rules.{adding};

use crate::edits::Edits;
use crate::lookups::listing;
use fx_session::Session;
use fx_store::limits::MAX_PATH_NAMES;
use fx_store::{Name, Names, Path};
use fx_view::{Reader, Stop};
use std::sync::ledger::Ledger;

/// Adds the removal of the entry at a path and of all below it, in ascending order; each path is looked at.
#[cycle(clear)]
pub(crate) fn clear<R: Reader, L: Ledger>(
    session: &mut Session<'_, R, L>,
    path: &Path,
    edits: &mut Edits,
) -> Result<(), Stop>
    ensures follows { Implements R.meaning (λ u. edits.new) session.old session.new
        (adding edits.old (edit.clear path.now)) result }
{
    // A path has at most 64 names, so no more levels than that are below it.
    prove!(path.len() as usize <= MAX_PATH_NAMES);
    match listing(session, path)? {
        None => Ok(()),
        Some(names) => {
            edits.remove(path.copy(session.alloc)?)?;
            clear_names(session, path, &names, edits)
        }
    }
}

/// Adds the removal of each entry of these names and of all below them.
#[cycle(clear)]
fn clear_names<R: Reader, L: Ledger>(
    session: &mut Session<'_, R, L>,
    path: &Path,
    names: &Names,
    edits: &mut Edits,
) -> Result<(), Stop>
    ensures follows { Implements R.meaning (λ u. edits.new) session.old session.new
        (adding edits.old (edit.entries (λ n. edit.clear (path.now /ₚ n)) names.now)) result }
{
    for name in names.iter() {
        clear_entry(session, path, name, edits)?;
    }
    Ok(())
}

/// Adds the removal of the entry of one name and of all below it. Nothing is below a path of 64 names.
#[cycle(clear)]
pub(crate) fn clear_entry<R: Reader, L: Ledger>(
    session: &mut Session<'_, R, L>,
    path: &Path,
    name: &Name,
    edits: &mut Edits,
) -> Result<(), Stop>
    ensures follows { Implements R.meaning (λ u. edits.new) session.old session.new
        (adding edits.old (edit.clear (path.now /ₚ name.now))) result }
{
    if path.len() as usize >= MAX_PATH_NAMES {
        return Ok(());
    }
    let entry = path.child(session.alloc, name)?;
    clear(session, &entry, edits)
}
