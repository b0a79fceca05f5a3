//! The check of transactions.
ghost use Rattle.std.specs.Prelude.{◌≡◌, ◌≤◌, All};
ghost use Rattle.fx_base.specs.Limits.{txn_limit};
ghost use Rattle.fx_expr.specs.Views.{expr_tree, shape_tree};
ghost use Rattle.fx_spec.specs.CommandTree.{CommandTree, block};
ghost use Rattle.fx_spec.specs.Views.{act_tree, command_tree};
ghost use Rattle.fx_check.specs.Checked.{checked_act, assigned, with_name, checked_command, checked_block, checked_inner, checked_txns};
ghost use Rattle.fx_check.specs.Gives.{Gives, IsScriptAnswer, IsSmall};

use crate::expr::{needed, shape_of};
use crate::fault::CheckFault;
use crate::scope::{Scope, let_go};
use crate::spec::check_shape;
use fx_base::TXN_LIMIT;
use fx_expr::{Expr, Shape, Word};
use fx_spec::{Act, Command, Commands, Script, Txns};
use std::alloc::Global;

/// An act's own expression.
fn check_act(alloc: Global, scope: &Scope, act: &Act) -> Result<(), CheckFault>
    ensures { Gives (λ _. scope.now) result (checked_act scope.now (act_tree act.now)) }
{
    match act {
        Act::To(text) => {
            let_go(Some(check_shape(alloc, scope, Shape::Str, text)?));
            Ok(())
        }
        Act::Store(value) => {
            let_go(Some(shape_of(alloc, value, scope)?));
            Ok(())
        }
        Act::Into | Act::Next | Act::Prev | Act::Out | Act::Down | Act::Up | Act::Top => Ok(()),
        Act::Create | Act::Remove => Ok(()),
    }
}

/// Binds a name to the shape of an expression.
fn check_binding(
    alloc: Global,
    scope: &mut Scope,
    word: &Word,
    expr: &Expr,
) -> Result<(), CheckFault>
    ensures { Gives (λ _. scope.new) result
        (checked_command scope.old (CommandTree.bind word.now (expr_tree expr.now))) }
{
    let found = shape_of(alloc, expr, scope)?;
    scope.bind(alloc, word, found)
}

/// What `set` gives a name, which has the shape of its binding.
fn check_assignment(
    alloc: Global,
    scope: &Scope,
    word: &Word,
    expr: &Expr,
) -> Result<(), CheckFault>
    ensures { Gives (λ _. scope.now) result
        (checked_command scope.now (CommandTree.assign word.now (expr_tree expr.now))) }
{
    let found = shape_of(alloc, expr, scope)?;
    assign(alloc, scope, word, found)
}

fn assign(alloc: Global, scope: &Scope, word: &Word, found: Shape) -> Result<(), CheckFault>
    ensures { Gives (λ _. scope.now) result (assigned scope.now word.now (shape_tree found)) }
{
    match scope.shape(alloc, word) {
        Ok(expected) => {
            let_go(Some(needed(expected, found)?));
            Ok(())
        }
        Err(fault) => {
            let_go(Some(found));
            Err(fault)
        }
    }
}

/// Binds the name of an attempted act to an integer.
fn check_attempt(alloc: Global, scope: &mut Scope, word: &Word, act: &Act) -> Result<(), CheckFault>
    ensures { Gives (λ _. scope.new) result
        (checked_command scope.old (CommandTree.attempt word.now (act_tree act.now))) }
{
    check_act(alloc, scope, act)?;
    scope.bind(alloc, word, Shape::Int)
}

fn bind_copy(alloc: Global, scope: &mut Scope, word: &Word, shape: &Shape) -> Result<(), CheckFault>
    ensures { Gives (λ _. scope.new) result (with_name scope.old word.now (shape_tree shape.now)) }
{
    let shape = shape.copy(alloc)?;
    scope.bind(alloc, word, shape)
}

/// A command in the scope of those before it, which it may widen.
#[cycle(commands)]
fn check_command(alloc: Global, scope: &mut Scope, command: &Command) -> Result<(), CheckFault>
    ensures { Gives (λ _. scope.new) result (checked_command scope.old (command_tree command.now)) }
{
    match command {
        Command::Do(act) => check_act(alloc, scope, act),
        Command::Attempt(word, act) => check_attempt(alloc, scope, word, act),
        Command::Bind(word, expr) => check_binding(alloc, scope, word, expr),
        Command::Assign(word, expr) => check_assignment(alloc, scope, word, expr),
        Command::Fetch(word, shape) => bind_copy(alloc, scope, word, shape),
        Command::Whole(word, shape) => bind_copy(alloc, scope, word, shape),
        Command::Validate(word) => scope.bind(alloc, word, Shape::Bool),
        Command::Print(expr) => {
            let_go(Some(shape_of(alloc, expr, scope)?));
            Ok(())
        }
        Command::Branch(test, first, second) => {
            let_go(Some(check_shape(alloc, scope, Shape::Bool, test)?));
            check_inner(alloc, scope, first)?;
            check_inner(alloc, scope, second)
        }
        Command::Each(word, set, body) => {
            let_go(Some(check_shape(alloc, scope, Shape::Names, set)?));
            scope.bind(alloc, word, Shape::Str)?;
            check_inner(alloc, scope, body)?;
            let_go(scope.unbind());
            Ok(())
        }
        Command::Abort => Ok(()),
    }
}

/// Commands one after another, in the scope of those before them.
#[cycle(commands)]
fn check_block(alloc: Global, scope: &mut Scope, commands: &Commands) -> Result<(), CheckFault>
    ensures { Gives (λ _. scope.new) result (checked_block scope.old (block commands.now)) }
{
    for command in commands.iter() {
        check_command(alloc, scope, command)?;
    }
    Ok(())
}

/// A block, whose names end with it.
#[cycle(commands)]
fn check_inner(alloc: Global, scope: &mut Scope, commands: &Commands) -> Result<(), CheckFault>
    ensures { Gives (λ _. scope.new) result (checked_inner scope.old (block commands.now)) }
{
    let around = scope.len();
    check_block(alloc, scope, commands)?;
    scope.cut(around);
    Ok(())
}

/// The transactions, each by itself.
fn check_txns(alloc: Global, txns: &Txns) -> Result<(), CheckFault>
    ensures { Gives (λ _. txns.now) result (checked_txns txns.now) }
{
    for txn in txns.iter() {
        let mut scope = Scope::new(alloc);
        check_block(alloc, &mut scope, &txn.commands)?;
    }
    Ok(())
}

/// Well-shaped transactions, or their first fault; too many together with those before are refused first of all.
pub fn check_script(alloc: Global, txns: Txns, before: u32) -> Result<Script, CheckFault>
    requires few { before ≤ txn_limit }
    requires small { All IsSmall txns }
    ensures { IsScriptAnswer before txns result }
{
    if u64::from(before) + txns.len() > TXN_LIMIT {
        let_go_txns(txns);
        return Err(CheckFault::TooMany);
    }
    match check_txns(alloc, &txns) {
        Ok(()) => Ok(Script::of(txns)),
        Err(fault) => {
            let_go_txns(txns);
            Err(fault)
        }
    }
}

fn let_go_txns(_: Txns) {}
