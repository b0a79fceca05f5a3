//! A directory that lists other names from now on.
ghost use Rattle.std.specs.Prelude.{◌≡◌, ◌<◌, ◌∷◌, [], true, false, length, IfOk, MatchOption};
ghost use Rattle.fx_store.specs.declared.node.Node.TheVariants.{Dir};
ghost use Rattle.fx_store.specs.Resolve.{◌/ₚ◌};
ghost use Rattle.fx_expr.specs.Sets.{IsAscending};
ghost use Rattle.fx_spec.specs.Edit as edit;
ghost use Rattle.fx_session.specs.Implements.{Implements};
ghost use Rattle.fx_edit.specs.Rules.{adding, added_file, changed_entries, changed_name, AreAlike, AreLeft, IsNextChange};

use crate::clearing::clear_entry;
use crate::edits::Edits;
use crate::nodes::empty_file;
use fx_base::{Items, NoMemory};
use fx_session::Session;
use fx_store::{Name, Names, Node, Path};
use fx_view::{Reader, Stop};
use std::alloc::Global;
use std::cmp::Ordering;
use std::sync::ledger::Ledger;

/// A directory's path, the names that it lists, and those that it is to list.
#[derive(Drop)]
pub(crate) struct Relist {
    pub(crate) path: Path,
    pub(crate) old: Names,
    pub(crate) new: Names,
}

/// The directory with its new names, and then the changes of its entries, each looked at: a new name is an empty file, and a
/// dropped one is removed with all below.
pub(crate) fn relisted<R: Reader, L: Ledger>(
    session: &mut Session<'_, R, L>,
    list: &Relist,
) -> Result<Edits, Stop>
    requires { edit.lacks_room list.now.path (Dir list.now.new) ≡ false }
    ensures follows { Implements R.meaning (λ e. e) session.old session.new
        (adding (edit.set_to list.now.path (Dir list.now.new) ∷ [])
        (changed_entries list.now.path list.now.old list.now.new)) result }
{
    let mut edits = relisting(session.alloc, list)?;
    change_entries(session, list, &mut edits)?;
    Ok(edits)
}

/// The change of the directory itself.
fn relisting(alloc: Global, list: &Relist) -> Result<Edits, NoMemory>
    ensures { IfOk result (λ edits. edits ≡ edit.set_to list.now.path (Dir list.now.new) ∷ []) }
{
    let path = list.path.copy(alloc)?;
    Edits::of(alloc, path, Node::Dir(list.new.copy(alloc)?))
}

/// Adds the changes of the entries, in ascending order: both sets of names are gone through side by side.
fn change_entries<R: Reader, L: Ledger>(
    session: &mut Session<'_, R, L>,
    list: &Relist,
    edits: &mut Edits,
) -> Result<(), Stop>
    requires { edit.lacks_room list.now.path (Dir list.now.new) ≡ false }
    ensures follows { Implements R.meaning (λ u. edits.new) session.old session.new
        (adding edits.old (changed_entries list.now.path list.now.old list.now.new)) result }
{
    let mut olds = list.old.iter();
    let mut news = list.new.iter();
    while let Some((name, is_new)) = next_change(&mut olds, &mut news) {
        change_entry(session, list, name, is_new, edits)?;
    }
    Ok(())
}

/// The least name that one of two sets has and the other lacks, and whether it is a new one. Both sets go on behind it, or to
/// their ends.
fn next_change<'a>(
    olds: &mut Items<'a, Name>,
    news: &mut Items<'a, Name>,
) -> Option<(&'a Name, bool)>
    requires olds { IsAscending olds.old }
    requires news { IsAscending news.old }
    ensures left { AreLeft news.old olds.new news.new }
    ensures next { MatchOption result (AreAlike olds.old news.old)
        (λ r. IsNextChange olds.old news.old r.0.now r.1 olds.new news.new) }
{
    while let Some((name, rest)) = olds.split_first() {
        match news.split_first() {
            None => {
                *olds = rest;
                return Some((name, false));
            }
            Some((other, others)) => match name.cmp(other) {
                Ordering::Less => {
                    *olds = rest;
                    return Some((name, false));
                }
                Ordering::Equal => {
                    *olds = rest;
                    *news = others;
                }
                Ordering::Greater => {
                    *news = others;
                    return Some((other, true));
                }
            },
        }
    }
    match news.split_first() {
        None => None,
        Some((other, others)) => {
            *news = others;
            Some((other, true))
        }
    }
}

/// Adds the changes of an entry that only the new names have, or only the old ones.
fn change_entry<R: Reader, L: Ledger>(
    session: &mut Session<'_, R, L>,
    list: &Relist,
    name: &Name,
    is_new: bool,
    edits: &mut Edits,
) -> Result<(), Stop>
    requires room { edit.lacks_room list.now.path (Dir list.now.new) ≡ false }
    requires new { is_new ≡ true → 0 < length list.now.new }
    ensures follows { Implements R.meaning (λ u. edits.new) session.old session.new
        (adding edits.old (changed_name list.now.path name.now is_new)) result }
{
    if is_new {
        add_file(session, list, name, edits)
    } else {
        clear_entry(session, &list.path, name, edits)
    }
}

/// Adds an empty file at a new name.
fn add_file<R: Reader, L: Ledger>(
    session: &mut Session<'_, R, L>,
    list: &Relist,
    name: &Name,
    edits: &mut Edits,
) -> Result<(), Stop>
    requires room { edit.lacks_room list.now.path (Dir list.now.new) ≡ false }
    requires new { 0 < length list.now.new }
    ensures follows { Implements R.meaning (λ u. edits.new) session.old session.new
        (adding edits.old (added_file (list.now.path /ₚ name.now))) result }
{
    let path = list.path.child(session.alloc, name)?;
    let_go(session.look(&path)?);
    edits.set(path, empty_file(session.alloc))?;
    Ok(())
}

fn let_go(_: Option<Node>) {}
