//! The shape of an expression.
ghost use Rattle.std.specs.Prelude.{◌≡◌, IfOk, Ok, Err, true};
ghost use Rattle.fx_expr.specs.ShapeTree.{ShapeTree};
ghost use Rattle.fx_expr.specs.Views.{expr_tree, shape_tree};
ghost use Rattle.fx_check.specs.Faults.{Fault, OrFault};
ghost use Rattle.fx_check.specs.Gives.{Gives};
ghost use Rattle.fx_check.specs.Shaped.{shaped, needed, allowed, is_comparable, is_ordered, is_sized, is_pair, is_table, is_option, first_part, second_needed, result_shape, two_shape, one_shape, followed_by, first_of, second_of, keys_of, present_of};

use crate::fault::CheckFault;
use crate::scope::{Scope, let_go};
use fx_base::NoMemory;
use fx_expr::{BinOp, Expr, Shape, UnOp};
use std::alloc::Global;

/// The shape of an expression, or its first fault.
pub(crate) fn shape_of(alloc: Global, expr: &Expr, scope: &Scope) -> Result<Shape, CheckFault>
    ensures { Gives shape_tree result (shaped scope.now (expr_tree expr.now)) }
{
    match expr {
        Expr::Str(_) => Ok(Shape::Str),
        Expr::Int(_) => Ok(Shape::Int),
        Expr::Bool(_) => Ok(Shape::Bool),
        Expr::Empty => Ok(Shape::Names),
        Expr::Var(word) => scope.shape(alloc, word),
        Expr::Bin(op, a, b) => {
            let found = shape_of(alloc, a, scope)?;
            let first = first_part(*op, found)?;
            let second = shape_of(alloc, b, scope)?;
            two_shape(*op, first, second)
        }
        Expr::Un(op, a) => {
            let found = shape_of(alloc, a, scope)?;
            one_shape(alloc, *op, found)
        }
        Expr::Choose(test, a, b) => {
            let found = shape_of(alloc, test, scope)?;
            let_go(Some(needed(Shape::Bool, found)?));
            let first = shape_of(alloc, a, scope)?;
            let second = shape_of(alloc, b, scope)?;
            needed(first, second)
        }
        Expr::Only(a, _) => {
            let found = shape_of(alloc, a, scope)?;
            needed(Shape::Names, found)
        }
    }
}

/// The shape that was found, where it is the one that is expected.
pub(crate) fn needed(expected: Shape, found: Shape) -> Result<Shape, CheckFault>
    ensures { Gives shape_tree result (needed (shape_tree expected) (shape_tree found)) }
{
    if found.same(&expected) {
        let_go(Some(expected));
        Ok(found)
    } else {
        Err(CheckFault::TypeDiffers { expected, found })
    }
}

/// The shape that was found, where it is one of several that are allowed.
fn allowed(fits: bool, found: Shape) -> Result<Shape, CheckFault>
    ensures { Gives shape_tree result (allowed fits (shape_tree found)) }
{
    if fits {
        Ok(found)
    } else {
        Err(CheckFault::TypeDiffers {
            expected: Shape::Str,
            found,
        })
    }
}

fn is_comparable(shape: &Shape) -> bool
    ensures { result ≡ is_comparable (shape_tree shape.now) }
{
    match shape {
        Shape::Str | Shape::Int | Shape::Bool | Shape::Names => true,
        Shape::Pair(_, _) | Shape::Opt(_) | Shape::Table(_) => false,
    }
}

fn is_ordered(shape: &Shape) -> bool
    ensures { result ≡ is_ordered (shape_tree shape.now) }
{
    match shape {
        Shape::Str | Shape::Int => true,
        Shape::Bool | Shape::Names => false,
        Shape::Pair(_, _) | Shape::Opt(_) | Shape::Table(_) => false,
    }
}

fn is_sized(shape: &Shape) -> bool
    ensures { result ≡ is_sized (shape_tree shape.now) }
{
    match shape {
        Shape::Str | Shape::Names => true,
        Shape::Int | Shape::Bool => false,
        Shape::Pair(_, _) | Shape::Opt(_) | Shape::Table(_) => false,
    }
}

/// The first part of an operator.
fn first_part(op: BinOp, found: Shape) -> Result<Shape, CheckFault>
    ensures { Gives shape_tree result (first_part op (shape_tree found)) }
{
    match op {
        BinOp::Join | BinOp::Member => needed(Shape::Str, found),
        BinOp::Plus | BinOp::Minus => needed(Shape::Int, found),
        BinOp::Equal => allowed(is_comparable(&found), found),
        BinOp::Less => allowed(is_ordered(&found), found),
        BinOp::And | BinOp::Or => needed(Shape::Bool, found),
        BinOp::Union | BinOp::Without => needed(Shape::Names, found),
    }
}

/// What the second part of an operator has to be.
fn second_needed(op: BinOp, first: Shape) -> Shape
    ensures { shape_tree result ≡ second_needed op (shape_tree first) }
{
    let needed = match op {
        BinOp::Equal | BinOp::Less => return first,
        BinOp::Join => Shape::Str,
        BinOp::Plus | BinOp::Minus => Shape::Int,
        BinOp::And | BinOp::Or => Shape::Bool,
        BinOp::Member | BinOp::Union | BinOp::Without => Shape::Names,
    };
    let_go(Some(first));
    needed
}

fn result_shape(op: BinOp) -> Shape
    ensures { shape_tree result ≡ result_shape op }
{
    match op {
        BinOp::Join => Shape::Str,
        BinOp::Plus | BinOp::Minus => Shape::Int,
        BinOp::Equal | BinOp::Less | BinOp::And | BinOp::Or | BinOp::Member => Shape::Bool,
        BinOp::Union | BinOp::Without => Shape::Names,
    }
}

/// The shape of an operator between two parts, the first of which may stand there.
fn two_shape(op: BinOp, first: Shape, second: Shape) -> Result<Shape, CheckFault>
    ensures { Gives shape_tree result (two_shape op (shape_tree first) (shape_tree second)) }
{
    let second = needed(second_needed(op, first), second)?;
    let_go(Some(second));
    Ok(result_shape(op))
}

/// The shape of an operator before one part.
fn one_shape(alloc: Global, op: UnOp, found: Shape) -> Result<Shape, CheckFault>
    ensures { Gives shape_tree result (one_shape op (shape_tree found)) }
{
    match op {
        UnOp::Not => given(needed(Shape::Bool, found), Shape::Bool),
        UnOp::One => given(needed(Shape::Str, found), Shape::Names),
        UnOp::Lines => given(needed(Shape::Str, found), Shape::Names),
        UnOp::Size => given(allowed(is_sized(&found), found), Shape::Int),
        UnOp::Int => given(needed(Shape::Str, found), Shape::Int),
        UnOp::Text => given(needed(Shape::Int, found), Shape::Str),
        UnOp::First => first_of(alloc, found),
        UnOp::Second => second_of(alloc, found),
        UnOp::Keys => keys_of(alloc, found),
        UnOp::Present => present_of(alloc, found),
    }
}

/// This shape, where the part has the shape that is needed.
fn given(part: Result<Shape, CheckFault>, shape: Shape) -> Result<Shape, CheckFault>
    ensures { (o : OrFault ShapeTree) → Gives shape_tree part o
        → Gives shape_tree result (followed_by (shape_tree shape) o) }
{
    let_go(Some(part?));
    Ok(shape)
}

fn is_pair(shape: &Shape) -> bool
    ensures { result ≡ is_pair (shape_tree shape.now) }
{
    match shape {
        Shape::Pair(_, _) => true,
        Shape::Str | Shape::Int | Shape::Bool | Shape::Names => false,
        Shape::Opt(_) | Shape::Table(_) => false,
    }
}

fn is_table(shape: &Shape) -> bool
    ensures { result ≡ is_table (shape_tree shape.now) }
{
    match shape {
        Shape::Table(_) => true,
        Shape::Str | Shape::Int | Shape::Bool | Shape::Names => false,
        Shape::Pair(_, _) | Shape::Opt(_) => false,
    }
}

fn is_option(shape: &Shape) -> bool
    ensures { result ≡ is_option (shape_tree shape.now) }
{
    match shape {
        Shape::Opt(_) => true,
        Shape::Str | Shape::Int | Shape::Bool | Shape::Names => false,
        Shape::Pair(_, _) | Shape::Table(_) => false,
    }
}

fn into_first(pair: Shape) -> Shape
    requires { is_pair (shape_tree pair) ≡ true }
    ensures { first_of (shape_tree pair) ≡ Ok (shape_tree result) }
{
    match pair {
        Shape::Pair(first, _) => Box::into_inner(first),
        Shape::Str | Shape::Int | Shape::Bool | Shape::Names => unreachable!(),
        Shape::Opt(_) | Shape::Table(_) => unreachable!(),
    }
}

fn into_second(pair: Shape) -> Shape
    requires { is_pair (shape_tree pair) ≡ true }
    ensures { second_of (shape_tree pair) ≡ Ok (shape_tree result) }
{
    match pair {
        Shape::Pair(_, second) => Box::into_inner(second),
        Shape::Str | Shape::Int | Shape::Bool | Shape::Names => unreachable!(),
        Shape::Opt(_) | Shape::Table(_) => unreachable!(),
    }
}

fn first_of(alloc: Global, found: Shape) -> Result<Shape, CheckFault>
    ensures { Gives shape_tree result (first_of (shape_tree found)) }
{
    if is_pair(&found) {
        Ok(into_first(found))
    } else {
        refused(pair_of_texts(alloc), found)
    }
}

fn second_of(alloc: Global, found: Shape) -> Result<Shape, CheckFault>
    ensures { Gives shape_tree result (second_of (shape_tree found)) }
{
    if is_pair(&found) {
        Ok(into_second(found))
    } else {
        refused(pair_of_texts(alloc), found)
    }
}

fn keys_of(alloc: Global, found: Shape) -> Result<Shape, CheckFault>
    ensures { Gives shape_tree result (keys_of (shape_tree found)) }
{
    if is_table(&found) {
        let_go(Some(found));
        Ok(Shape::Names)
    } else {
        refused(table_of_texts(alloc), found)
    }
}

fn present_of(alloc: Global, found: Shape) -> Result<Shape, CheckFault>
    ensures { Gives shape_tree result (present_of (shape_tree found)) }
{
    if is_option(&found) {
        let_go(Some(found));
        Ok(Shape::Bool)
    } else {
        refused(option_of_text(alloc), found)
    }
}

/// The refusal of a part, where this shape is expected.
fn refused(expected: Result<Shape, NoMemory>, found: Shape) -> Result<Shape, CheckFault>
    ensures { (e : ShapeTree) → IfOk expected (λ shape. shape_tree shape ≡ e)
        → Gives shape_tree result (Err (Fault.differs e (shape_tree found))) }
{
    match expected {
        Ok(expected) => Err(CheckFault::TypeDiffers { expected, found }),
        Err(NoMemory) => {
            let_go(Some(found));
            Err(CheckFault::NoMemory)
        }
    }
}

pub(crate) fn boxed(alloc: Global, shape: Shape) -> Result<Box<Shape>, NoMemory>
    ensures { IfOk result (λ b. b.value ≡ shape) }
{
    Ok(Box::new(alloc, shape)?)
}

fn pair_of_texts(alloc: Global) -> Result<Shape, NoMemory>
    ensures { IfOk result (λ shape. shape_tree shape ≡ ShapeTree.pair ShapeTree.str ShapeTree.str) }
{
    let first = boxed(alloc, Shape::Str)?;
    let second = boxed(alloc, Shape::Str)?;
    Ok(Shape::Pair(first, second))
}

fn table_of_texts(alloc: Global) -> Result<Shape, NoMemory>
    ensures { IfOk result (λ shape. shape_tree shape ≡ ShapeTree.table ShapeTree.str) }
{
    Ok(Shape::Table(boxed(alloc, Shape::Str)?))
}

fn option_of_text(alloc: Global) -> Result<Shape, NoMemory>
    ensures { IfOk result (λ shape. shape_tree shape ≡ ShapeTree.opt ShapeTree.str) }
{
    Ok(Shape::Opt(boxed(alloc, Shape::Str)?))
}
