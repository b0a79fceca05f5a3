//! Expressions that are evaluated often, and whose value is kept where no name stands in them.
ghost use Rattle.std.specs.Prelude.{◌≡◌, ◌+◌, List, ℕ, true, IfOk};
ghost use Rattle.std.specs.Option.{option_map};
ghost use Rattle.fx_expr.specs.Closed.{IsKept, IsShaped, is_closed};
ghost use Rattle.fx_expr.specs.Eval.{eval_of};
ghost use Rattle.fx_expr.specs.ExprTree.{ExprTree};
ghost use Rattle.fx_expr.specs.Gives.{Gives};
ghost use Rattle.fx_expr.specs.Shapes.{IsWellShaped};
ghost use Rattle.fx_expr.specs.Tree.{Tree};
ghost use Rattle.fx_expr.specs.Views.{expr_tree, tree_of};

use crate::evaluation::evaluated;
use fx_base::{NoMemory, Steps};
use fx_expr::{Env, EvalFault, Expr, Formula, Value};
use std::alloc::Global;
use std::sync::ledger::Ledger;

/// The same expression, evaluated once and for all where no name stands in it and it has a value.
pub fn settled_formula(alloc: Global, formula: Formula) -> Result<Formula, NoMemory>
    requires { IsShaped formula }
    ensures { IfOk result (λ settled. settled ≡ formula) }
{
    let value = value_alone(alloc, formula.expr())?;
    Ok(formula.with_value(value))
}

/// What `eval` gives of the expression; a value that is kept is given at once. It counts as one step.
pub fn eval_formula<L: Ledger>(
    alloc: Global,
    formula: &Formula,
    env: &Env,
    steps: &mut Steps<L>,
) -> Result<Value, EvalFault>
    requires { IsWellShaped env.now formula.now }
    ensures value { Gives tree_of result (eval_of env.now formula.now) }
    ensures tick { steps.new ≡ steps.old + 1 }
{
    steps.tick();
    match formula.kept_value() {
        Some(value) => Ok(value.copy(alloc)?),
        None => evaluated(alloc, formula.expr(), env),
    }
}

// Whether no name stands in the expression.
fn is_closed(expr: &Expr) -> bool
    ensures { result ≡ is_closed (expr_tree expr.now) }
{
    match expr {
        Expr::Str(_) | Expr::Int(_) | Expr::Bool(_) | Expr::Empty => true,
        Expr::Var(_) => false,
        Expr::Bin(_, a, b) => is_closed(a) && is_closed(b),
        Expr::Un(_, a) => is_closed(a),
        Expr::Choose(test, a, b) => is_closed(test) && is_closed(a) && is_closed(b),
        Expr::Only(a, _) => is_closed(a),
    }
}

// The value that an expression has whatever is bound around it; None where a name stands in it, or where it faults.
fn value_alone(alloc: Global, expr: &Expr) -> Result<Option<Value>, NoMemory>
    ensures { IfOk result (λ value. IsKept (expr_tree expr.now) (option_map tree_of value)) }
{
    if is_closed(expr) {
        closed_value(alloc, expr)
    } else {
        Ok(None)
    }
}

// The value of an expression without names; None where it faults.
#[tactic(auto, using(crate::proofs::Closing::kept))]
fn closed_value(alloc: Global, expr: &Expr) -> Result<Option<Value>, NoMemory>
    requires { is_closed (expr_tree expr.now) ≡ true }
    ensures { IfOk result (λ value. IsKept (expr_tree expr.now) (option_map tree_of value)) }
{
    let env = Env::new(alloc);
    match evaluated(alloc, expr, &env) {
        Ok(value) => Ok(Some(value)),
        Err(EvalFault::Fault(_)) => Ok(None),
        Err(EvalFault::NoMemory) => Err(NoMemory),
    }
}

/// An expression in which no name stands has one value, whatever is bound around it.
#[tactic(auto, using(crate::proofs::Closing::one_value))]
pub fn an_expression_without_names_has_one_value()
    ensures { (e : ExprTree) → is_closed e ≡ true
        → (env other : List (List ℕ × Tree)) → eval_of env e ≡ eval_of other e }
{}
