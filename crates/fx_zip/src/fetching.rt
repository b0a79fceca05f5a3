//! What is answered at a place: what is fetched, the value, or whether there is one.
ghost use Rattle.std.specs.Prelude.{◌≡◌, IfOk, is_some};
ghost use Rattle.std.specs.Option.{option_map};
ghost use Rattle.fx_expr.specs.ShapeTree.{ShapeTree};
ghost use Rattle.fx_expr.specs.Shapes.{ValueHas};
ghost use Rattle.fx_expr.specs.Views.{shape_tree, tree_of};
ghost use Rattle.fx_spec.specs.Describe.{Bindings};
ghost use Rattle.fx_spec.specs.Move as move;
ghost use Rattle.fx_spec.specs.Place.{placed};
ghost use Rattle.fx_spec.specs.SpecTree.{SpecTree};
ghost use Rattle.fx_spec.specs.Parts.{part_of};
ghost use Rattle.fx_session.specs.Implements.{Answers};
ghost use Rattle.fx_session.specs.Scopes.{HasScope};
ghost use Rattle.fx_zip.specs.Asking.{asked_at, IsTruth};
ghost use Rattle.fx_zip.specs.Calls.{value_needed};

use crate::question::Question;
use fx_expr::{Env, Shape, Value};
use fx_session::{Halt, Session, exists};
use fx_spec::{Form, Part, Refusal};
use fx_steps::{asks_flag, evaluate, has_fetch_shape, has_value_shape};
use fx_store::Path;
use fx_view::Reader;
use fx_walk::{file_flag, value_in};
use std::sync::ledger::Ledger;

/// The answer to a question at a place. The environment is as before on every way out.
pub(crate) fn answer_at<R: Reader, L: Ledger>(
    session: &mut Session<'_, R, L>,
    path: &Path,
    env: &mut Env,
    spec: &Part<'_>,
    question: &Question<'_>,
) -> Result<Value, Halt>
    requires described { HasScope env.old (part_of spec.now) }
    ensures env { env.new ≡ env.old }
    ensures follows { Answers R.meaning tree_of session.old session.new
        (asked_at question.now (placed path.now env.old (part_of spec.now))) result }
    ensures truth { IfOk result (λ value. IsTruth question.now (tree_of value)) }
{
    match question {
        Question::Fetch(shape) => fetch_at(session, path, env, spec, shape),
        Question::Whole(shape) => whole_at(session, path, env, spec, shape),
        Question::Validate => validate_at(session, path, env, spec),
    }
}

/// What the form gives, where that has the shape; a file gives its flag too. The environment is as before on every way out.
fn fetch_at<R: Reader, L: Ledger>(
    session: &mut Session<'_, R, L>,
    path: &Path,
    env: &mut Env,
    spec: &Part<'_>,
    shape: &Shape,
) -> Result<Value, Halt>
    requires described { HasScope env.old (part_of spec.now) }
    ensures env { env.new ≡ env.old }
    ensures follows { Answers R.meaning tree_of session.old session.new
        (move.fetch_at (shape_tree shape.now) (placed path.now env.old (part_of spec.now)))
        result }
{
    if asks_flag(spec, shape) {
        flag_at(session, path)
    } else if has_fetch_shape(spec, shape) {
        fetched(session, path, env, spec)
    } else {
        Err(Halt::Refused(Refusal::WrongForm))
    }
}

/// The value of the description, where that has the shape. The environment is as before on every way out.
fn whole_at<R: Reader, L: Ledger>(
    session: &mut Session<'_, R, L>,
    path: &Path,
    env: &mut Env,
    spec: &Part<'_>,
    shape: &Shape,
) -> Result<Value, Halt>
    requires described { HasScope env.old (part_of spec.now) }
    ensures env { env.new ≡ env.old }
    ensures follows { Answers R.meaning tree_of session.old session.new
        (move.whole_at (shape_tree shape.now) (placed path.now env.old (part_of spec.now)))
        result }
{
    if has_value_shape(spec, shape) {
        value_at(session, path, env, spec)
    } else {
        Err(Halt::Refused(Refusal::WrongForm))
    }
}

/// Whether the description has a value. The environment is as before on every way out.
fn validate_at<R: Reader, L: Ledger>(
    session: &mut Session<'_, R, L>,
    path: &Path,
    env: &mut Env,
    spec: &Part<'_>,
) -> Result<Value, Halt>
    requires described { HasScope env.old (part_of spec.now) }
    ensures env { env.new ≡ env.old }
    ensures follows { Answers R.meaning tree_of session.old session.new
        (move.validate_at (placed path.now env.old (part_of spec.now))) result }
    ensures truth { IfOk result (λ value. ValueHas (tree_of value) ShapeTree.bool) }
{
    let value = value_in(session, path, env, spec)?;
    Ok(Value::Bool(is_there(value)))
}

fn fetched<R: Reader, L: Ledger>(
    session: &mut Session<'_, R, L>,
    path: &Path,
    env: &mut Env,
    spec: &Part<'_>,
) -> Result<Value, Halt>
    requires described { HasScope env.old (part_of spec.now) }
    ensures env { env.new ≡ env.old }
    ensures follows { Answers R.meaning tree_of session.old session.new
        (move.fetched path.now env.old (part_of spec.now)) result }
{
    match spec.form() {
        Form::File => value_at(session, path, env, spec),
        Form::Dir => value_at(session, path, env, spec),
        Form::Link => value_at(session, path, env, spec),
        Form::Focus(text, _) => evaluate(session, env, text),
        Form::Comp(_, _, set) => evaluate(session, env, set),
        Form::Pred(test) => evaluate(session, env, test),
        Form::Opt(_) => entry_at(session, path),
        Form::Pair(_, _, _) => Err(Halt::Refused(Refusal::WrongForm)),
        Form::Call(_, _, _) => Err(Halt::Refused(Refusal::WrongForm)),
        Form::Last(_) => Err(Halt::Refused(Refusal::WrongForm)),
    }
}

/// Whether there is an entry, as a value.
fn entry_at<R: Reader, L: Ledger>(
    session: &mut Session<'_, R, L>,
    path: &Path,
) -> Result<Value, Halt>
    ensures follows { (env : Bindings) (part : SpecTree) → Answers R.meaning tree_of session.old
        session.new
        (move.fetched path.now env (SpecTree.opt part)) result }
{
    let there = exists(session, path)?;
    Ok(Value::Bool(there))
}

/// The flag of the file, which has to be there.
fn flag_at<R: Reader, L: Ledger>(
    session: &mut Session<'_, R, L>,
    path: &Path,
) -> Result<Value, Halt>
    ensures follows { Answers R.meaning tree_of session.old session.new (move.flag_at path.now)
        result }
{
    match file_flag(session, path)? {
        Some(flag) => Ok(flag),
        None => Err(Halt::Refused(Refusal::Lacks)),
    }
}

/// The value of the description, which has to be there.
fn value_at<R: Reader, L: Ledger>(
    session: &mut Session<'_, R, L>,
    path: &Path,
    env: &mut Env,
    spec: &Part<'_>,
) -> Result<Value, Halt>
    requires described { HasScope env.old (part_of spec.now) }
    ensures env { env.new ≡ env.old }
    ensures follows { Answers R.meaning tree_of session.old session.new
        (value_needed path.now env.old (part_of spec.now)) result }
{
    match value_in(session, path, env, spec)? {
        Some(value) => Ok(value),
        None => Err(Halt::Refused(Refusal::Lacks)),
    }
}

fn is_there(value: Option<Value>) -> bool
    ensures { result ≡ is_some (option_map tree_of value) }
{
    value.is_some()
}
