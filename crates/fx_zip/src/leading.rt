//! Where a step leads from a place.
ghost use Rattle.std.specs.Prelude.{◌≡◌, length, IfOk};
ghost use Rattle.std.specs.Option.{IfSome, option_map};
ghost use Rattle.fx_spec.specs.Describe.{value};
ghost use Rattle.fx_spec.specs.Place as place;
ghost use Rattle.fx_spec.specs.Parts.{part_of};
ghost use Rattle.fx_session.specs.Implements.{Implements};
ghost use Rattle.fx_session.specs.Scopes.{HasScope};
ghost use Rattle.fx_steps.specs.Spots.{LeadsTo, BindsValue, bound_value};
ghost use Rattle.fx_steps.specs.Steps.{step_tree};

use fx_expr::{Env, Word};
use fx_session::Session;
use fx_spec::Part;
use fx_steps::leading::{body, down, element, first, inside};
use fx_steps::{Spot, Step, pair_of, second_spot};
use fx_store::Path;
use fx_view::{Reader, Stop};
use fx_walk::value_in;
use std::sync::ledger::Ledger;

/// The spot to which a step leads, where it leads to one. The environment is as before on every way out.
pub(crate) fn led<R: Reader, L: Ledger>(
    session: &mut Session<'_, R, L>,
    step: &Step,
    path: &Path,
    env: &mut Env,
    spec: &Part<'_>,
) -> Result<Option<Spot>, Stop>
    requires described { HasScope env.old (part_of spec.now) }
    ensures env { env.new ≡ env.old }
    ensures leads { LeadsTo R.meaning (step_tree step.now) path.now env.old
        (part_of spec.now) session.old session.new result }
{
    match step {
        Step::First => first(session.alloc, path, spec),
        Step::Second => second(session, path, env, spec),
        Step::Inside => inside(session, path, spec),
        Step::Down => down(session, path, env, spec),
        Step::Body => body(session, path, env, spec),
        Step::Elem(text) => element(session, path, env, spec, text),
    }
}

fn second<R: Reader, L: Ledger>(
    session: &mut Session<'_, R, L>,
    path: &Path,
    env: &mut Env,
    spec: &Part<'_>,
) -> Result<Option<Spot>, Stop>
    requires described { HasScope env.old (part_of spec.now) }
    ensures env { env.new ≡ env.old }
    ensures leads { LeadsTo R.meaning place.Second path.now env.old
        (part_of spec.now) session.old session.new result }
{
    match pair_of(spec) {
        Some((name, first, _)) => { after_first(session, path, env, name, &first) }
        None => Ok(None),
    }
}

/// The spot at the second part of a pair, where the first part has a value.
pub(crate) fn after_first<R: Reader, L: Ledger>(
    session: &mut Session<'_, R, L>,
    path: &Path,
    env: &mut Env,
    name: &Word,
    first: &Part<'_>,
) -> Result<Option<Spot>, Stop>
    requires described { HasScope env.old (part_of first.now) }
    ensures env { env.new ≡ env.old }
    ensures follows { Implements R.meaning (option_map bound_value)
        session.old session.new
        (value path.now env.old (part_of first.now)) result }
    ensures spot { IfOk result (λ o. IfSome o (λ spot.
        BindsValue path.now name.now (bound_value spot) spot
        × (spot.reads ≡ length (R.meaning.reads session.new.reader.now)))) }
{
    match value_in(session, path, env, first)? {
        Some(value) => {
            let reads = session.reader.reads().len();
            Ok(Some(second_spot(session.alloc, path, name, value, reads)?))
        }
        None => Ok(None),
    }
}
