//! Whether what a description gives has a shape.
ghost use Rattle.std.specs.Prelude.{◌≡◌};
ghost use Rattle.fx_expr.specs.ShapeTree.{ShapeTree};
ghost use Rattle.fx_expr.specs.Views.{shape_tree};
ghost use Rattle.fx_spec.specs.Move as move;
ghost use Rattle.fx_spec.specs.Parts.{part_of};
ghost use Rattle.fx_spec.specs.Views.{spec_tree};
ghost use Rattle.fx_spec.specs.WellShaped.{written_shape};

use fx_expr::Shape;
use fx_spec::{Form, Part, Spec};

/// Whether what is fetched at a form has the shape; a pair and a call have no fetch, and a file's flag is apart.
pub fn has_fetch_shape(spec: &Part<'_>, shape: &Shape) -> bool
    ensures { result ≡ move.has_fetch_shape (shape_tree shape.now)
        (move.fetch_shape (part_of spec.now)) }
{
    match spec.form() {
        Form::File | Form::Link | Form::Focus(_, _) => is_str(shape),
        Form::Dir | Form::Comp(_, _, _) => is_names(shape),
        Form::Opt(_) | Form::Pred(_) => is_bool(shape),
        Form::Pair(_, _, _) | Form::Call(_, _, _) | Form::Last(_) => false,
    }
}

/// Whether a truth value is asked for at a file: the file's flag.
pub fn asks_flag(spec: &Part<'_>, shape: &Shape) -> bool
    ensures { result ≡ move.asks_flag (shape_tree shape.now) (part_of spec.now) }
{
    match shape {
        Shape::Bool => is_file(spec),
        Shape::Str | Shape::Int | Shape::Names => false,
        Shape::Pair(_, _) | Shape::Opt(_) | Shape::Table(_) => false,
    }
}

fn is_file(spec: &Part<'_>) -> bool
    ensures { result ≡ move.asks_flag ShapeTree.bool (part_of spec.now) }
{
    match spec.form() {
        Form::File => true,
        Form::Dir | Form::Link | Form::Focus(_, _) | Form::Pair(_, _, _) => false,
        Form::Comp(_, _, _) | Form::Opt(_) | Form::Pred(_) => false,
        Form::Call(_, _, _) | Form::Last(_) => false,
    }
}

/// Whether the value of a description has the shape.
pub fn has_value_shape(spec: &Part<'_>, shape: &Shape) -> bool
    ensures { result ≡ move.same_shape (move.value_shape (part_of spec.now))
        (shape_tree shape.now) }
{
    has_written_shape(spec.spec, shape)
}

/// Whether the value of a description has the shape, as it is written. What its calls mean makes no difference.
fn has_written_shape(spec: &Spec, shape: &Shape) -> bool
    ensures { result ≡ move.same_shape (written_shape (spec_tree spec.now))
        (shape_tree shape.now) }
{
    match spec {
        Spec::File | Spec::Link => is_str(shape),
        Spec::Dir => is_names(shape),
        Spec::Pred(_) | Spec::Call(_, _) => is_bool(shape),
        Spec::Focus(_, part) => has_written_shape(part, shape),
        Spec::Pair(_, first, second) => match shape {
            Shape::Pair(a, b) => has_written_shape(first, a) && has_written_shape(second, b),
            Shape::Str | Shape::Int | Shape::Bool | Shape::Names => false,
            Shape::Opt(_) | Shape::Table(_) => false,
        },
        Spec::Comp(part, _, _) => match shape {
            Shape::Table(row) => has_written_shape(part, row),
            Shape::Str | Shape::Int | Shape::Bool | Shape::Names => false,
            Shape::Pair(_, _) | Shape::Opt(_) => false,
        },
        Spec::Opt(part) => match shape {
            Shape::Opt(some) => has_written_shape(part, some),
            Shape::Str | Shape::Int | Shape::Bool | Shape::Names => false,
            Shape::Pair(_, _) | Shape::Table(_) => false,
        },
    }
}

fn is_str(shape: &Shape) -> bool
    ensures { result ≡ move.same_shape ShapeTree.str (shape_tree shape.now) }
{
    match shape {
        Shape::Str => true,
        Shape::Int | Shape::Bool | Shape::Names => false,
        Shape::Pair(_, _) | Shape::Opt(_) | Shape::Table(_) => false,
    }
}

fn is_names(shape: &Shape) -> bool
    ensures { result ≡ move.same_shape ShapeTree.names (shape_tree shape.now) }
{
    match shape {
        Shape::Names => true,
        Shape::Str | Shape::Int | Shape::Bool => false,
        Shape::Pair(_, _) | Shape::Opt(_) | Shape::Table(_) => false,
    }
}

fn is_bool(shape: &Shape) -> bool
    ensures { result ≡ move.same_shape ShapeTree.bool (shape_tree shape.now) }
{
    match shape {
        Shape::Bool => true,
        Shape::Str | Shape::Int | Shape::Names => false,
        Shape::Pair(_, _) | Shape::Opt(_) | Shape::Table(_) => false,
    }
}
