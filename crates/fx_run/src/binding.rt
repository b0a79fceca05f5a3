//! Commands that neither read nor change: they bind, bind again, or print.
ghost use Rattle.std.specs.Prelude.{◌≡◌, IfOk, pos};
ghost use Rattle.fx_expr.specs.Bindings as bindings;
ghost use Rattle.fx_expr.specs.Tree.{Tree};
ghost use Rattle.fx_expr.specs.Views.{expr_tree};
ghost use Rattle.fx_spec.specs.CommandTree.{CommandTree};
ghost use Rattle.fx_spec.specs.Transaction.{run};
ghost use Rattle.fx_run.specs.Scopes.{HasCommand, Scopes};
ghost use Rattle.fx_run.specs.Works.{IsQuiet, root_of, standing_of};

use crate::evaluating::value_of;
use crate::leave::Leave;
use crate::work::Work;
use fx_base::NoMemory;
use fx_expr::{Env, Expr, Text, Value, Word};
use fx_session::bind_value;
use fx_view::Reader;
use std::alloc::Global;
use std::sync::ledger::Ledger;

/// Binds a word to a text.
pub(crate) fn bind_text(
    alloc: Global,
    variables: &mut Env,
    word: &Word,
    text: &Text,
) -> Result<(), NoMemory>
    ensures { IfOk result (λ _.
        variables.new ≡ bindings.bind variables.old word.now (Tree.str text.now)) }
{
    let word = word.copy(alloc)?;
    let text = text.copy(alloc)?;
    variables.add(alloc, (word, Value::Str(text)))
}

/// Binds a word to a number.
pub(crate) fn bind_number(
    alloc: Global,
    variables: &mut Env,
    word: &Word,
    number: u32,
) -> Result<(), NoMemory>
    ensures { IfOk result (λ _.
        variables.new ≡ bindings.bind variables.old word.now (Tree.int (pos number))) }
{
    let word = word.copy(alloc)?;
    variables.add(alloc, (word, Value::Int(number as i64)))
}

/// `let x = e`: binds the value of `e` to `x`.
pub(crate) fn bind<R: Reader, L: Ledger>(
    work: &mut Work<'_, R, L>,
    number: u32,
    word: &Word,
    expr: &Expr,
) -> Result<(), Leave>
    requires { HasCommand work.old.variables (CommandTree.bind word.now (expr_tree expr.now)) }
    ensures quiet { IsQuiet (run (root_of work.old) number
        (CommandTree.bind word.now (expr_tree expr.now)) (standing_of work.old))
        work.old work.new result }
    ensures scope { Scopes (CommandTree.bind word.now (expr_tree expr.now))
        work.old.variables work.new.variables result }
{
    let value = value_of(&mut work.walk.session, number, expr, &work.variables)?;
    Ok(bind_value(work.walk.session.alloc, &mut work.variables, word, value)?)
}

/// `set x = e`: gives `x` the value of `e`.
pub(crate) fn assign<R: Reader, L: Ledger>(
    work: &mut Work<'_, R, L>,
    number: u32,
    word: &Word,
    expr: &Expr,
) -> Result<(), Leave>
    requires { HasCommand work.old.variables (CommandTree.assign word.now (expr_tree expr.now)) }
    ensures quiet { IsQuiet (run (root_of work.old) number
        (CommandTree.assign word.now (expr_tree expr.now)) (standing_of work.old))
        work.old work.new result }
    ensures scope { Scopes (CommandTree.assign word.now (expr_tree expr.now))
        work.old.variables work.new.variables result }
{
    let value = value_of(&mut work.walk.session, number, expr, &work.variables)?;
    work.variables.set(word, value);
    Ok(())
}

/// `print(e)`: the value of `e` is one output more.
pub(crate) fn print<R: Reader, L: Ledger>(
    work: &mut Work<'_, R, L>,
    number: u32,
    expr: &Expr,
) -> Result<(), Leave>
    requires { HasCommand work.old.variables (CommandTree.print (expr_tree expr.now)) }
    ensures quiet { IsQuiet (run (root_of work.old) number
        (CommandTree.print (expr_tree expr.now)) (standing_of work.old))
        work.old work.new result }
    ensures scope { Scopes (CommandTree.print (expr_tree expr.now))
        work.old.variables work.new.variables result }
{
    let value = value_of(&mut work.walk.session, number, expr, &work.variables)?;
    Ok(work.outputs.add(work.walk.session.alloc, value)?)
}
