//! The check of a description, with a text's definitions.
ghost use Rattle.std.specs.Prelude.{◌≡◌, ◌<◌, ℕ, List, length, Ok, OnOk};
ghost use Rattle.fx_expr.specs.Bindings.{bind};
ghost use Rattle.fx_expr.specs.ShapeTree.{ShapeTree};
ghost use Rattle.fx_expr.specs.Views.{expr_tree, shape_tree};
ghost use Rattle.fx_spec.specs.Views.{spec_tree};
ghost use Rattle.fx_spec.specs.Written.{WrittenTree};
ghost use Rattle.fx_check.specs.Checked.{checked, checked_arguments, shaped_as};
ghost use Rattle.fx_check.specs.Gives.{Gives};
ghost use Rattle.fx_spec.specs.WellShaped.{Scope};

use crate::expr::{boxed, needed, shape_of};
use crate::fault::CheckFault;
use crate::scope::{Scope, let_go};
use fx_expr::{Expr, Shape, Word};
use fx_spec::{Defs, Exprs, Params, Spec};
use std::alloc::Global;

/// The shape of an expression, where it is the one that is expected.
pub(crate) fn check_shape(
    alloc: Global,
    scope: &Scope,
    expected: Shape,
    expr: &Expr,
) -> Result<Shape, CheckFault>
    ensures { Gives shape_tree result
        (shaped_as scope.now (shape_tree expected) (expr_tree expr.now)) }
{
    match shape_of(alloc, expr, scope) {
        Ok(found) => needed(expected, found),
        Err(fault) => {
            let_go(Some(expected));
            Err(fault)
        }
    }
}

/// The shape of a pair, whose first part's shape is that of the newest name, which is taken off.
fn pair_shape(alloc: Global, scope: &mut Scope, second: Shape) -> Result<Shape, CheckFault>
    requires { 0 < length scope.old }
    ensures shape { (around : Scope) (word : List ℕ) (first : ShapeTree)
        → scope.old ≡ bind around word first
        → Gives shape_tree result (Ok (ShapeTree.pair first (shape_tree second))) }
    ensures around { (around : Scope) (word : List ℕ) (first : ShapeTree)
        → scope.old ≡ bind around word first → OnOk result (scope.new ≡ around) }
{
    let Some(first) = scope.unbind() else {
        unreachable!()
    };
    let first = boxed(alloc, first)?;
    let second = boxed(alloc, second)?;
    Ok(Shape::Pair(first, second))
}

/// The arguments of a call, each of which has the shape of its parameter, as far as there are parameters. The call has the
/// shape Bool.
fn arguments_shape(
    alloc: Global,
    scope: &Scope,
    args: &Exprs,
    params: &Params,
) -> Result<Shape, CheckFault>
    ensures { Gives shape_tree result (checked_arguments scope.now args.now params.now) }
{
    let mut left = params.iter();
    for arg in args.iter() {
        let Some(param) = left.next() else {
            return Ok(Shape::Bool);
        };
        let expected = param.1.copy(alloc)?;
        let_go(Some(check_shape(alloc, scope, expected, arg.expr())?));
    }
    Ok(Shape::Bool)
}

/// The shape of a call, which names a definition for as many arguments.
fn call_shape(
    alloc: Global,
    defs: &Defs,
    scope: &Scope,
    name: &Word,
    args: &Exprs,
) -> Result<Shape, CheckFault>
    ensures { Gives shape_tree result
        (checked defs.now scope.now (WrittenTree.call name.now args.now)) }
{
    let Some(def) = defs.get(name) else {
        return Err(CheckFault::Unknown(name.copy(alloc)?));
    };
    if args.len() != def.params.len() {
        return Err(CheckFault::Unknown(name.copy(alloc)?));
    }
    arguments_shape(alloc, scope, args, &def.params)
}

/// The shape of a description's value, or its first fault.
pub(crate) fn value_shape(
    alloc: Global,
    defs: &Defs,
    scope: &mut Scope,
    spec: &Spec,
) -> Result<Shape, CheckFault>
    ensures shape { Gives shape_tree result (checked defs.now scope.old (spec_tree spec.now)) }
    ensures same { OnOk result (scope.new ≡ scope.old) }
{
    match spec {
        Spec::File | Spec::Link => Ok(Shape::Str),
        Spec::Dir => Ok(Shape::Names),
        Spec::Focus(text, part) => {
            let_go(Some(check_shape(alloc, scope, Shape::Str, text.expr())?));
            value_shape(alloc, defs, scope, part)
        }
        Spec::Pair(word, first, second) => {
            let shape = value_shape(alloc, defs, scope, first)?;
            scope.bind(alloc, word, shape)?;
            let shape = value_shape(alloc, defs, scope, second)?;
            pair_shape(alloc, scope, shape)
        }
        Spec::Comp(part, word, set) => {
            let_go(Some(check_shape(alloc, scope, Shape::Names, set.expr())?));
            scope.bind(alloc, word, Shape::Str)?;
            let shape = value_shape(alloc, defs, scope, part)?;
            let_go(scope.unbind());
            Ok(Shape::Table(boxed(alloc, shape)?))
        }
        Spec::Opt(part) => {
            let shape = value_shape(alloc, defs, scope, part)?;
            Ok(Shape::Opt(boxed(alloc, shape)?))
        }
        Spec::Pred(test) => check_shape(alloc, scope, Shape::Bool, test.expr()),
        Spec::Call(name, args) => call_shape(alloc, defs, scope, name, args),
    }
}
