ghost use Rattle.std.specs.Prelude.{◌≡◌, ◌↔◌, IfOk, IsTrue};
ghost use Rattle.fx_expr.specs.Views.{shape_tree};

use fx_base::NoMemory;
use std::alloc::Global;

/// What kind of value an expression or a description has.
#[derive(Debug, Drop)]
pub enum Shape {
    Str,
    Int,
    Bool,
    Names,
    Pair(Box<Shape>, Box<Shape>),
    Opt(Box<Shape>),
    Table(Box<Shape>),
}

impl Shape {
    /// An equal shape of its own.
    pub fn copy(&self, alloc: Global) -> Result<Shape, NoMemory>
        ensures { IfOk result (λ shape. shape_tree shape ≡ shape_tree self.now) }
    {
        match self {
            Shape::Str => Ok(Shape::Str),
            Shape::Int => Ok(Shape::Int),
            Shape::Bool => Ok(Shape::Bool),
            Shape::Names => Ok(Shape::Names),
            Shape::Pair(a, b) => {
                let first = boxed(alloc, a.copy(alloc)?)?;
                let second = boxed(alloc, b.copy(alloc)?)?;
                Ok(Shape::Pair(first, second))
            }
            Shape::Opt(a) => Ok(Shape::Opt(boxed(alloc, a.copy(alloc)?)?)),
            Shape::Table(a) => Ok(Shape::Table(boxed(alloc, a.copy(alloc)?)?)),
        }
    }

    /// Whether the shapes are equal.
    pub fn same(&self, other: &Shape) -> bool
        ensures { IsTrue result ↔ (shape_tree self.now ≡ shape_tree other.now) }
    {
        match self {
            Shape::Str => matches!(other, Shape::Str),
            Shape::Int => matches!(other, Shape::Int),
            Shape::Bool => matches!(other, Shape::Bool),
            Shape::Names => matches!(other, Shape::Names),
            Shape::Pair(a, b) => match other {
                Shape::Pair(c, d) => a.same(c) && b.same(d),
                Shape::Str | Shape::Int | Shape::Bool | Shape::Names => false,
                Shape::Opt(_) | Shape::Table(_) => false,
            },
            Shape::Opt(a) => match other {
                Shape::Opt(c) => a.same(c),
                Shape::Str | Shape::Int | Shape::Bool | Shape::Names => false,
                Shape::Pair(_, _) | Shape::Table(_) => false,
            },
            Shape::Table(a) => match other {
                Shape::Table(c) => a.same(c),
                Shape::Str | Shape::Int | Shape::Bool | Shape::Names => false,
                Shape::Pair(_, _) | Shape::Opt(_) => false,
            },
        }
    }
}

fn boxed(alloc: Global, shape: Shape) -> Result<Box<Shape>, NoMemory>
    ensures { IfOk result (λ b. b.value ≡ shape) }
{
    Ok(Box::new(alloc, shape)?)
}
