//! What expressions of a description give, with their faults.
ghost use Rattle.std.specs.Prelude.{◌≡◌, ◌+◌, ◌≤◌, ◌<◌, List, ℕ, Ok, Some, length, slice_get};
ghost use Rattle.std.specs.Option.{option_copied};
ghost use Rattle.fx_expr.specs.Eval as eval;
ghost use Rattle.fx_expr.specs.Eval.{eval_of};
ghost use Rattle.fx_expr.specs.Shapes.{IsWellShaped};
ghost use Rattle.fx_expr.specs.Views.{tree_of};
ghost use Rattle.fx_store.specs.Faults as paths;
ghost use Rattle.fx_spec.specs.Describe as describe;
ghost use Rattle.fx_spec.specs.Move.{evaluated};
ghost use Rattle.fx_session.specs.Answering.{answered};
ghost use Rattle.fx_session.specs.Halts.{split};
ghost use Rattle.fx_session.specs.Implements.{ticked};
ghost use Rattle.fx_session.specs.Arguments.{HaveShapes, inner_names};
ghost use Rattle.fx_steps.specs.Telling.{OnlyCounts, Says, AreWellShaped, set_answer, names_answer, arguments_tried, given};

use fx_expr::{Env, Formula, TextSet, Value};
use fx_session::{Halt, Session, inner_env};
use fx_spec::{Exprs, Params};
use fx_store::Path;
use fx_view::{Reader, Stop};
use std::alloc::Global;
use std::sync::ledger::Ledger;

/// The value of an expression.
pub fn evaluate<R: Reader, L: Ledger>(
    session: &mut Session<'_, R, L>,
    env: &Env,
    formula: &Formula,
) -> Result<Value, Halt>
    requires { IsWellShaped env.now formula.now }
    ensures value { Says (answered tree_of)
        (Some (evaluated (eval_of env.now formula.now))) (split result) }
    ensures tick { session.new ≡ ticked session.old }
{
    Ok(session.work_out(formula, env)?)
}

/// The set of a comprehension.
pub(crate) fn set_of<R: Reader, L: Ledger>(
    session: &mut Session<'_, R, L>,
    env: &Env,
    formula: &Formula,
) -> Result<TextSet, Halt>
    requires { IsWellShaped env.now formula.now }
    ensures set { Says (answered (λ set. set))
        (Some (set_answer (eval_of env.now formula.now))) (split result) }
    ensures tick { session.new ≡ ticked session.old }
{
    let value = session.work_out(formula, env)?;
    Ok(value.into_names(session.alloc))
}

/// The set of a comprehension: the one that is kept, or else its expression's value.
pub(crate) fn set_again<R: Reader, L: Ledger>(
    session: &mut Session<'_, R, L>,
    kept: Option<&TextSet>,
    env: &Env,
    formula: &Formula,
) -> Result<TextSet, Halt>
    requires shaped { IsWellShaped env.now formula.now }
    requires kept { (set : List (List ℕ)) → option_copied kept ≡ Some set
        → set_answer (eval_of env.now formula.now) ≡ Ok set }
    ensures set { Says (answered (λ set. set))
        (Some (set_answer (eval_of env.now formula.now))) (split result) }
    ensures most { session.new.steps ≤ session.old.steps + 1 }
    ensures still { OnlyCounts session.old session.new }
{
    match kept {
        Some(set) => Ok(set.copy(session.alloc)?),
        None => set_of(session, env, formula),
    }
}

/// The path of a focus.
pub(crate) fn inner_path<R: Reader, L: Ledger>(
    session: &mut Session<'_, R, L>,
    path: &Path,
    env: &Env,
    formula: &Formula,
) -> Result<Path, Halt>
    requires { IsWellShaped env.now formula.now }
    ensures path { Says (answered (λ q. q))
        (Some (describe.focus_path path.now (eval_of env.now formula.now)))
        (split result) }
    ensures tick { session.new ≡ ticked session.old }
{
    let value = session.work_out(formula, env)?;
    extended(session.alloc, path, &value)
}

fn extended(alloc: Global, path: &Path, value: &Value) -> Result<Path, Halt>
    ensures { Says (answered (λ q. q)) (Some (describe.extension
        (paths.extended path.now (eval.text_in (tree_of value.now))))) (split result) }
{
    Ok(path.extend(alloc, value.text_bytes())?)
}

/// The names in a call's body: its parameters, with the values of the arguments.
pub(crate) fn names_of<R: Reader, L: Ledger>(
    session: &mut Session<'_, R, L>,
    env: &Env,
    params: &Params,
    args: &Exprs,
) -> Result<Env, Halt>
    requires { HaveShapes env.now params.now args.now }
    ensures names { Says (answered (λ names. names))
        (Some (names_answer (inner_names env.now params.now args.now))) (split result) }
    ensures most { session.new.steps
        ≤ session.old.steps + describe.argument_evals env.now args.now }
    ensures still { OnlyCounts session.old session.new }
{
    Ok(inner_env(session, env, params, args)?)
}

/// Evaluates the arguments of a call, up to the first that faults.
pub(crate) fn try_arguments<R: Reader, L: Ledger>(
    session: &mut Session<'_, R, L>,
    env: &Env,
    args: &Exprs,
) -> Result<(), Halt>
    requires { AreWellShaped env.now args.now }
    ensures faults { Says (answered (λ u. u))
        (Some (arguments_tried (describe.arguments env.now args.now))) (split result) }
    ensures most { session.new.steps
        ≤ session.old.steps + describe.argument_evals env.now args.now }
    ensures still { OnlyCounts session.old session.new }
{
    for i in 0..args.len() {
        let value = evaluate(session, env, argument(args, i))?;
        let_go(value);
    }
    Ok(())
}

fn argument(args: &Exprs, i: u64) -> &Formula
    requires { i < length args.now }
    ensures { slice_get args.now i ≡ Some result.now }
{
    match args.at(i) {
        Some(argument) => argument,
        None => unreachable!(),
    }
}

/// What there is where a call is not refused.
pub(crate) fn if_given<T: Drop>(answer: Result<T, Halt>) -> Result<Option<T>, Stop>
    ensures { result ≡ given answer }
{
    match answer {
        Ok(value) => Ok(Some(value)),
        Err(Halt::Refused(_)) => Ok(None),
        Err(Halt::Stopped(stop)) => Err(stop),
    }
}

fn let_go(_: Value) {}
