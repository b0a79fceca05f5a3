//! The value of an expression for callers that count no evaluations.
ghost use Rattle.std.specs.Prelude.{◌≡◌, ◌<◌};
ghost use Rattle.fx_expr.specs.Eval.{eval_of};
ghost use Rattle.fx_expr.specs.Gives.{Gives};
ghost use Rattle.fx_expr.specs.Shapes.{IsWellShaped};
ghost use Rattle.fx_expr.specs.Views.{expr_tree, tree_of};

use fx_base::Steps;
use fx_eval::eval;
use fx_expr::{Env, EvalFault, Expr, Value};
use std::alloc::Global;
use std::marker::Brand;
use std::sync::ledger::{Blank, Ledger};

/// The value of an expression, or its fault.
pub fn evaluated(alloc: Global, expr: &Expr, env: &Env) -> Result<Value, EvalFault>
    requires { IsWellShaped env.now (expr_tree expr.now) }
    ensures { Gives tree_of result (eval_of env.now (expr_tree expr.now)) }
{
    evaluated_by::<Brand>(alloc, expr, env, Blank::new(1))
}

fn evaluated_by<L: Ledger>(
    alloc: Global,
    expr: &Expr,
    env: &Env,
    blank: Blank,
) -> Result<Value, EvalFault>
    requires name { blank.name ≡ L.name }
    requires parts { blank.parts ≡ L.parts }
    requires some { 0 < L.parts }
    requires shaped { IsWellShaped env.now (expr_tree expr.now) }
    ensures { Gives tree_of result (eval_of env.now (expr_tree expr.now)) }
{
    let mut steps = Steps::<L>::open(blank);
    eval(alloc, expr, env, &mut steps)
}
