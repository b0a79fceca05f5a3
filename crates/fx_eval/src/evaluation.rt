ghost use Rattle.std.specs.Prelude.{◌≡◌, ◌+◌, IfOk, Ok, false};
ghost use Rattle.std.specs.List.{filter};
ghost use Rattle.fx_expr.specs.Eval.{eval_of, names_in};
ghost use Rattle.fx_expr.specs.Gives.{Gives};
ghost use Rattle.fx_expr.specs.Globs.{glob_matches};
ghost use Rattle.fx_expr.specs.Shapes.{IsWellShaped};
ghost use Rattle.std.specs.Option.{unwrap_or};
ghost use Rattle.fx_expr.specs.Bindings.{bound};
ghost use Rattle.fx_expr.specs.Tree.{Tree};
ghost use Rattle.fx_expr.specs.Views.{expr_tree, tree_of};

use crate::glob::only;
use crate::operators::{apply_after, apply_one, decides};
use crate::parts::{into_truth, let_go};
use fx_base::{NoMemory, Steps};
use fx_expr::{Env, EvalFault, Expr, Value, Word};
use fx_text::{Text, TextSet};
use std::alloc::Global;
use std::sync::ledger::Ledger;

/// The value of an expression, or its fault. The parts of an operator are taken from left to right and the first fault
/// is the answer; `and`, `or` and a choice leave out what they need not know. The expression is well shaped where the
/// bound words have the shapes of their values. It counts as one step, however large the expression is.
pub fn eval<L: Ledger>(
    alloc: Global,
    expr: &Expr,
    env: &Env,
    steps: &mut Steps<L>,
) -> Result<Value, EvalFault>
    requires { IsWellShaped env.now (expr_tree expr.now) }
    ensures value { Gives tree_of result (eval_of env.now (expr_tree expr.now)) }
    ensures tick { steps.new ≡ steps.old + 1 }
{
    steps.tick();
    evaluated(alloc, expr, env)
}

// The value of an expression, or its fault, in steps that are not counted.
pub(crate) fn evaluated(alloc: Global, expr: &Expr, env: &Env) -> Result<Value, EvalFault>
    ensures { Gives tree_of result (eval_of env.now (expr_tree expr.now)) }
{
    match expr {
        Expr::Str(text) => Ok(Value::Str(text.copy(alloc)?)),
        Expr::Int(n) => Ok(Value::Int(*n)),
        Expr::Bool(b) => Ok(Value::Bool(*b)),
        Expr::Empty => Ok(Value::Names(TextSet::new(alloc))),
        Expr::Var(word) => Ok(bound_value(alloc, word, env)?),
        Expr::Bin(op, a, b) => {
            let first = evaluated(alloc, a, env)?;
            match decides(*op, &first) {
                Some(decided) => {
                    let_go(first);
                    Ok(Value::Bool(decided))
                }
                None => apply_after(alloc, *op, first, evaluated(alloc, b, env)),
            }
        }
        Expr::Un(op, a) => apply_one(alloc, *op, evaluated(alloc, a, env)?),
        Expr::Choose(test, a, b) => {
            if into_truth(evaluated(alloc, test, env)?) {
                evaluated(alloc, a, env)
            } else {
                evaluated(alloc, b, env)
            }
        }
        Expr::Only(a, glob) => matching(alloc, evaluated(alloc, a, env)?, glob),
    }
}

fn bound_value(alloc: Global, word: &Word, env: &Env) -> Result<Value, NoMemory>
    ensures { IfOk result
        (λ value. tree_of value ≡ unwrap_or (bound env.now word.now) (Tree.bool false)) }
{
    match env.get(word) {
        Some(value) => value.copy(alloc),
        None => Ok(Value::Bool(false)),
    }
}

// The elements of a set that match a glob.
fn matching(alloc: Global, set: Value, glob: &Text) -> Result<Value, EvalFault>
    ensures { Gives tree_of result
        (Ok (Tree.names (filter (λ x. glob_matches glob.now x) (names_in (tree_of set))))) }
{
    let names = set.into_names(alloc);
    Ok(Value::Names(only(alloc, &names, glob.as_slice())?))
}
