//! The value of a command's own expression.
ghost use Rattle.std.specs.Prelude.{◌≡◌};
ghost use Rattle.fx_expr.specs.Eval as eval;
ghost use Rattle.fx_expr.specs.Eval.{eval_of};
ghost use Rattle.fx_expr.specs.Shapes.{IsWellShaped};
ghost use Rattle.fx_expr.specs.Views.{expr_tree, tree_of};
ghost use Rattle.fx_spec.specs.Move as move;
ghost use Rattle.fx_session.specs.Implements.{ticked};
ghost use Rattle.fx_edit.specs.Values.{Tells};
ghost use Rattle.fx_run.specs.Leaving.{OrStops, answer_part};

use crate::leave::{Leave, or_stop};
use fx_expr::{Env, Expr, TextSet, Value};
use fx_session::{Halt, Session};
use fx_view::Reader;
use std::sync::ledger::Ledger;

/// The value of the expression.
pub(crate) fn evaluated<R: Reader, L: Ledger>(
    session: &mut Session<'_, R, L>,
    expr: &Expr,
    variables: &Env,
) -> Result<Value, Halt>
    requires { IsWellShaped variables.now (expr_tree expr.now) }
    ensures value { Tells tree_of
        (move.evaluated (eval_of variables.now (expr_tree expr.now))) result }
    ensures tick { session.new ≡ ticked session.old }
{
    Ok(session.evaluate(expr, variables)?)
}

/// The value of the expression of the command with this number.
pub(crate) fn value_of<R: Reader, L: Ledger>(
    session: &mut Session<'_, R, L>,
    number: u32,
    expr: &Expr,
    variables: &Env,
) -> Result<Value, Leave>
    requires { IsWellShaped variables.now (expr_tree expr.now) }
    ensures value { OrStops number tree_of
        (move.evaluated (eval_of variables.now (expr_tree expr.now))) result }
    ensures tick { session.new ≡ ticked session.old }
{
    or_stop(number, evaluated(session, expr, variables))
}

/// Whether the expression is true.
pub(crate) fn truth_of<R: Reader, L: Ledger>(
    session: &mut Session<'_, R, L>,
    number: u32,
    expr: &Expr,
    variables: &Env,
) -> Result<bool, Leave>
    requires { IsWellShaped variables.now (expr_tree expr.now) }
    ensures value { OrStops number (λ b. b)
        (answer_part eval.truth_in (move.evaluated (eval_of variables.now (expr_tree expr.now)))) result }
    ensures tick { session.new ≡ ticked session.old }
{
    Ok(value_of(session, number, expr, variables)?.is_true())
}

/// The set that the expression gives.
pub(crate) fn names_of<R: Reader, L: Ledger>(
    session: &mut Session<'_, R, L>,
    number: u32,
    expr: &Expr,
    variables: &Env,
) -> Result<TextSet, Leave>
    requires { IsWellShaped variables.now (expr_tree expr.now) }
    ensures value { OrStops number (λ s. s)
        (answer_part eval.names_in (move.evaluated (eval_of variables.now (expr_tree expr.now)))) result }
    ensures tick { session.new ≡ ticked session.old }
{
    let value = value_of(session, number, expr, variables)?;
    Ok(value.into_names(session.alloc))
}
