//! Where a step leads from a place. A step to a second part needs the value of the first, and stands elsewhere.
ghost use Rattle.std.specs.Prelude.{◌≡◌, ℕ, false, true, IfOk, MatchOption};
ghost use Rattle.fx_expr.specs.Sets.{has_text};
ghost use Rattle.fx_spec.specs.Describe.{Bindings};
ghost use Rattle.fx_spec.specs.Place as place;
ghost use Rattle.fx_spec.specs.Parts.{part_of};
ghost use Rattle.fx_session.specs.Scopes.{HasScope};
ghost use Rattle.fx_steps.specs.Spots.{LeadsTo, LeadsAt, BindsText};
ghost use Rattle.fx_steps.specs.Telling.{OnlyCounts};

use crate::evaluating::{if_given, inner_path, names_of, set_of};
use crate::forms::{call_of, comp_of, focus_of, option_of, pair_of};
use crate::frame::{Spot, body_spot, element_spot, spot_at};
use fx_base::NoMemory;
use fx_expr::{Env, Text, TextSet, Word};
use fx_session::{Session, exists};
use fx_spec::Part;
use fx_store::Path;
use fx_view::{Reader, Stop};
use std::alloc::Global;
use std::sync::ledger::Ledger;

/// The spot at a first part; none if the form is no pair.
pub fn first(alloc: Global, path: &Path, spec: &Part<'_>) -> Result<Option<Spot>, Stop>
    ensures leads { (env : Bindings) (n : ℕ)
        → LeadsAt place.First path.now env (part_of spec.now) n n result }
{
    match pair_of(spec) {
        Some(_) => Ok(Some(spot_at(path.copy(alloc)?, 0))),
        None => Ok(None),
    }
}

/// The spot inside an entry; none if the form is no option, or if the entry does not exist.
pub fn inside<R: Reader, L: Ledger>(
    session: &mut Session<'_, R, L>,
    path: &Path,
    spec: &Part<'_>,
) -> Result<Option<Spot>, Stop>
    ensures leads { (env : Bindings) → LeadsTo R.meaning place.Inside
        path.now env (part_of spec.now) session.old session.new result }
{
    match option_of(spec) {
        Some(_) => {
            if exists(session, path)? {
                Ok(Some(spot_at(path.copy(session.alloc)?, session.reader.reads().len())))
            } else {
                Ok(None)
            }
        }
        None => Ok(None),
    }
}

/// The spot at the path of a focus; none if the form is no focus, or if its expression gives no path.
pub fn down<R: Reader, L: Ledger>(
    session: &mut Session<'_, R, L>,
    path: &Path,
    env: &Env,
    spec: &Part<'_>,
) -> Result<Option<Spot>, Stop>
    requires described { HasScope env.now (part_of spec.now) }
    ensures leads { LeadsAt place.Down path.now env.now (part_of spec.now)
        session.old.steps session.new.steps result }
    ensures still { OnlyCounts session.old session.new }
{
    match focus_of(spec) {
        Some((text, _)) => match if_given(inner_path(session, path, env, text))? {
            Some(inner) => Ok(Some(spot_at(inner, 0))),
            None => Ok(None),
        },
        None => Ok(None),
    }
}

/// The spot in a call's body; none if the form is no call, or if an argument faults.
pub fn body<R: Reader, L: Ledger>(
    session: &mut Session<'_, R, L>,
    path: &Path,
    env: &Env,
    spec: &Part<'_>,
) -> Result<Option<Spot>, Stop>
    requires described { HasScope env.now (part_of spec.now) }
    ensures leads { LeadsAt place.Body path.now env.now (part_of spec.now)
        session.old.steps session.new.steps result }
    ensures still { OnlyCounts session.old session.new }
{
    match call_of(spec) {
        Some((args, params, _)) => match if_given(names_of(session, env, params, args))? {
            Some(names) => Ok(Some(body_spot(session.alloc, path, names)?)),
            None => Ok(None),
        },
        None => Ok(None),
    }
}

/// The spot at an element; none if the form is no comprehension, or if its set lacks the element.
pub fn element<R: Reader, L: Ledger>(
    session: &mut Session<'_, R, L>,
    path: &Path,
    env: &Env,
    spec: &Part<'_>,
    text: &Text,
) -> Result<Option<Spot>, Stop>
    requires described { HasScope env.now (part_of spec.now) }
    ensures leads { LeadsAt (place.Elem text.now) path.now env.now (part_of spec.now)
        session.old.steps session.new.steps result }
    ensures still { OnlyCounts session.old session.new }
{
    match comp_of(spec) {
        Some((_, name, set)) => match if_given(set_of(session, env, set))? {
            Some(set) => Ok(spot_in(session.alloc, path, name, text, &set)?),
            None => Ok(None),
        },
        None => Ok(None),
    }
}

fn spot_in(
    alloc: Global,
    path: &Path,
    name: &Word,
    text: &Text,
    set: &TextSet,
) -> Result<Option<Spot>, NoMemory>
    ensures { IfOk result (λ o. MatchOption o (has_text text.now set.now ≡ false) (λ spot.
        (has_text text.now set.now ≡ true) × BindsText path.now name.now text.now set.now spot)) }
{
    if set.has(text) {
        Ok(Some(element_spot(alloc, path, name, text, set)?))
    } else {
        Ok(None)
    }
}
