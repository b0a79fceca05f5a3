//! Where a move leads from a place.
ghost use Rattle.std.specs.Prelude.{◌≡◌, List, ℕ, Ok, Some};
ghost use Rattle.std.specs.Option.{option_copied};
ghost use Rattle.fx_expr.specs.Eval.{eval_of};
ghost use Rattle.fx_expr.specs.ShapeTree.{ShapeTree};
ghost use Rattle.fx_expr.specs.Shapes.{IsWellShaped};
ghost use Rattle.fx_spec.specs.Describe.{Bindings};
ghost use Rattle.fx_spec.specs.Move as move;
ghost use Rattle.fx_spec.specs.Place as place;
ghost use Rattle.fx_spec.specs.SpecTree.{SpecTree};
ghost use Rattle.fx_spec.specs.Parts.{part_of};
ghost use Rattle.fx_session.specs.Arguments.{HaveShapes};
ghost use Rattle.fx_session.specs.Scopes.{HasScope};
ghost use Rattle.fx_steps.specs.Around.{IsSetOf};
ghost use Rattle.fx_steps.specs.Telling.{OnlyCounts, AreWellShaped, set_answer};
ghost use Rattle.fx_steps.specs.Spots.{EntersBy, StepsBy, Chooses, as_entry, chosen_entry, down_entry, inner_entry};

use crate::evaluating::{inner_path, names_of, set_again, try_arguments};
use crate::forms::{comp_of, focus_of};
use crate::frame::{Chosen, Inner};
use fx_expr::{Env, Formula, Text, TextSet, Word};
use fx_session::{Halt, Session, exists};
use fx_spec::{Exprs, Form, Params, Part, Refusal};
use fx_store::Path;
use fx_view::Reader;
use std::alloc::Global;
use std::sync::ledger::Ledger;

/// The path of a focus, to which its step leads.
pub fn down<R: Reader, L: Ledger>(
    session: &mut Session<'_, R, L>,
    path: &Path,
    env: &Env,
    spec: &Part<'_>,
) -> Result<Path, Halt>
    requires described { HasScope env.now (part_of spec.now) }
    ensures enters { StepsBy move.go_down path.now env.now (part_of spec.now)
        session.old.steps session.new.steps (as_entry down_entry result) }
    ensures still { OnlyCounts session.old session.new }
{
    match focus_of(spec) {
        Some((text, _)) => inner_path(session, path, env, text),
        None => Err(Halt::Refused(Refusal::NoStep)),
    }
}

/// The element that is asked for.
pub fn to<R: Reader, L: Ledger>(
    session: &mut Session<'_, R, L>,
    env: &Env,
    spec: &Part<'_>,
    kept: Option<&TextSet>,
    text: &Text,
) -> Result<Chosen, Halt>
    requires described { HasScope env.now (part_of spec.now) }
    requires kept { IsSetOf (option_copied kept) env.now (part_of spec.now) }
    ensures enters { (p : List (List ℕ)) → StepsBy (move.go_to text.now) p env.now (part_of spec.now)
        session.old.steps session.new.steps (as_entry (chosen_entry p) result) }
    ensures still { OnlyCounts session.old session.new }
{
    match comp_of(spec) {
        Some((_, name, set)) => {
            let set = set_again(session, kept, env, set)?;
            let choice = this_if(text, set.has(text));
            chosen(session.alloc, name, &set, choice)
        }
        None => Err(Halt::Refused(Refusal::NoStep)),
    }
}

/// What stands inside a place: a first part, a least element, an entry, or a call's body.
pub fn into<R: Reader, L: Ledger>(
    session: &mut Session<'_, R, L>,
    path: &Path,
    env: &Env,
    spec: &Part<'_>,
    kept: Option<&TextSet>,
) -> Result<Inner, Halt>
    requires described { HasScope env.now (part_of spec.now) }
    requires kept { IsSetOf (option_copied kept) env.now (part_of spec.now) }
    ensures enters { EntersBy R.meaning move.go_into path.now env.now (part_of spec.now)
        session.old session.new (as_entry (inner_entry path.now) result) }
{
    match spec.form() {
        Form::Pair(_, _, _) => Ok(Inner::First),
        Form::Comp(_, name, set) => least(session, env, name, set, kept),
        Form::Opt(_) => inside(session, path),
        Form::Call(args, params, _) => body(session, env, params, args),
        Form::Last(args) => too_unfolded(session, env, args),
        Form::File => Err(Halt::Refused(Refusal::NoStep)),
        Form::Dir => Err(Halt::Refused(Refusal::NoStep)),
        Form::Link => Err(Halt::Refused(Refusal::NoStep)),
        Form::Focus(_, _) => Err(Halt::Refused(Refusal::NoStep)),
        Form::Pred(_) => Err(Halt::Refused(Refusal::NoStep)),
    }
}

fn body<R: Reader, L: Ledger>(
    session: &mut Session<'_, R, L>,
    env: &Env,
    params: &Params,
    args: &Exprs,
) -> Result<Inner, Halt>
    requires shaped { HaveShapes env.now params.now args.now }
    ensures enters { (p : List (List ℕ)) (inner : SpecTree) → StepsBy move.go_into p env.now
        (SpecTree.call args.now params.now inner)
        session.old.steps session.new.steps (as_entry (inner_entry p) result) }
    ensures still { OnlyCounts session.old session.new }
{
    Ok(Inner::Body(names_of(session, env, params, args)?))
}

/// At a call inside 64 others the arguments are evaluated too.
fn too_unfolded<R: Reader, L: Ledger>(
    session: &mut Session<'_, R, L>,
    env: &Env,
    args: &Exprs,
) -> Result<Inner, Halt>
    requires shaped { AreWellShaped env.now args.now }
    ensures enters { (path : List (List ℕ)) (params : List (List ℕ × ShapeTree))
        → StepsBy move.go_into path env.now (SpecTree.last args.now params)
        session.old.steps session.new.steps (as_entry (inner_entry path) result) }
    ensures still { OnlyCounts session.old session.new }
{
    try_arguments(session, env, args)?;
    Err(Halt::Refused(Refusal::TooUnfolded))
}

fn least<R: Reader, L: Ledger>(
    session: &mut Session<'_, R, L>,
    env: &Env,
    name: &Word,
    set: &Formula,
    kept: Option<&TextSet>,
) -> Result<Inner, Halt>
    requires shaped { IsWellShaped env.now set.now }
    requires kept { (known : List (List ℕ)) → option_copied kept ≡ Some known
        → set_answer (eval_of env.now set.now) ≡ Ok known }
    ensures enters { (p : List (List ℕ)) (part : SpecTree) → StepsBy move.go_into p env.now
        (SpecTree.comp part name.now set.now)
        session.old.steps session.new.steps (as_entry (inner_entry p) result) }
    ensures still { OnlyCounts session.old session.new }
{
    let set = set_again(session, kept, env, set)?;
    Ok(Inner::Element(chosen(session.alloc, name, &set, set.first())?))
}

fn inside<R: Reader, L: Ledger>(session: &mut Session<'_, R, L>, path: &Path) -> Result<Inner, Halt>
    ensures enters { (env : Bindings) (part : SpecTree) → EntersBy R.meaning move.go_into path.now
        env (SpecTree.opt part) session.old session.new (as_entry (inner_entry path.now) result) }
{
    if exists(session, path)? {
        Ok(Inner::Inside(session.reader.reads().len()))
    } else {
        Err(Halt::Refused(Refusal::Lacks))
    }
}

/// The chosen element of a set, where there is one.
pub fn chosen(
    alloc: Global,
    name: &Word,
    set: &TextSet,
    choice: Option<&Text>,
) -> Result<Chosen, Halt>
    ensures { (p : List (List ℕ)) → Chooses p name.now set.now (option_copied choice.entry)
        (as_entry (chosen_entry p) result) }
{
    match choice {
        Some(text) => Ok(Chosen {
            name: name.copy(alloc)?,
            text: text.copy(alloc)?,
            set: set.copy(alloc)?,
        }),
        None => Err(Halt::Refused(Refusal::NoElement)),
    }
}

fn this_if(text: &Text, holds: bool) -> Option<&Text>
    ensures { option_copied result ≡ place.where_true holds text.now }
{
    if holds { Some(text) } else { None }
}
