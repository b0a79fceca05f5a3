ghost use Rattle.std.specs.Prelude.{◌≡◌, IfOk};
ghost use Rattle.fx_expr.specs.Views.{shape_tree};
ghost use Rattle.fx_parse.specs.Reader.{kinds};
ghost use Rattle.fx_parse.specs.ShapeReader.{read_shape, pair_at, opt_at, table_at, shape_form_at};
ghost use Rattle.fx_parse.specs.Stuck.{Gives};

use crate::cursor::first_of;
use crate::shape_head::{ShapeStart, is_no_shape, shape_of};
use crate::sign::{Sign, behind};
use crate::stop::Stop;
use fx_base::NoMemory;
use fx_expr::Shape;
use fx_lex::Spanned;
use std::alloc::Global;

fn boxed_shape(alloc: Global, shape: Shape) -> Result<Box<Shape>, NoMemory>
    ensures { IfOk result (λ b. b.value ≡ shape) }
{
    Ok(Box::new(alloc, shape)?)
}

/// What follows `pair`.
#[cycle(shape)]
#[tactic(auto, unfolding(crate::specs::ShapeReader::pair_at))]
fn pair_at(alloc: Global, left: u32, tokens: &[Spanned]) -> Result<(Shape, &[Spanned]), Stop>
    ensures { Gives (λ x. (shape_tree x.0, kinds x.1.now)) result
        (pair_at (read_shape left) (kinds tokens.now)) }
{
    let rest = behind(tokens, Sign::LeftParen)?;
    let (first, rest) = shape_at(alloc, left, rest)?;
    let rest = behind(rest, Sign::Comma)?;
    let (second, rest) = shape_at(alloc, left, rest)?;
    let rest = behind(rest, Sign::RightParen)?;
    Ok((
        Shape::Pair(boxed_shape(alloc, first)?, boxed_shape(alloc, second)?),
        rest,
    ))
}

/// What follows `opt`.
#[cycle(shape)]
#[tactic(auto, unfolding(crate::specs::ShapeReader::opt_at))]
fn opt_at(alloc: Global, left: u32, tokens: &[Spanned]) -> Result<(Shape, &[Spanned]), Stop>
    ensures { Gives (λ x. (shape_tree x.0, kinds x.1.now)) result
        (opt_at (read_shape left) (kinds tokens.now)) }
{
    let rest = behind(tokens, Sign::LeftParen)?;
    let (inner, rest) = shape_at(alloc, left, rest)?;
    let rest = behind(rest, Sign::RightParen)?;
    Ok((Shape::Opt(boxed_shape(alloc, inner)?), rest))
}

/// What follows `table`.
#[cycle(shape)]
#[tactic(auto, unfolding(crate::specs::ShapeReader::table_at))]
fn table_at(alloc: Global, left: u32, tokens: &[Spanned]) -> Result<(Shape, &[Spanned]), Stop>
    ensures { Gives (λ x. (shape_tree x.0, kinds x.1.now)) result
        (table_at (read_shape left) (kinds tokens.now)) }
{
    let rest = behind(tokens, Sign::LeftParen)?;
    let (inner, rest) = shape_at(alloc, left, rest)?;
    let rest = behind(rest, Sign::RightParen)?;
    Ok((Shape::Table(boxed_shape(alloc, inner)?), rest))
}

/// What follows the first token of a shape.
#[cycle(shape)]
#[tactic(auto, unfolding(crate::specs::ShapeReader::shape_form_at))]
fn shape_form_at(
    alloc: Global,
    left: u32,
    start: ShapeStart,
    tokens: &[Spanned],
) -> Result<(Shape, &[Spanned]), Stop>
    ensures { Gives (λ x. (shape_tree x.0, kinds x.1.now)) result
        (shape_form_at (read_shape left) start (kinds tokens.now)) }
{
    match start {
        ShapeStart::Str => Ok((Shape::Str, tokens)),
        ShapeStart::Int => Ok((Shape::Int, tokens)),
        ShapeStart::Bool => Ok((Shape::Bool, tokens)),
        ShapeStart::Names => Ok((Shape::Names, tokens)),
        ShapeStart::Pair => pair_at(alloc, left, tokens),
        ShapeStart::Opt => opt_at(alloc, left, tokens),
        ShapeStart::Table => table_at(alloc, left, tokens),
        ShapeStart::Nothing => Err(Stop::Unexpected(tokens.len())),
    }
}

/// The shape at the front, with so many levels left, and what follows it.
#[cycle(shape)]
pub fn shape_at(alloc: Global, left: u32, tokens: &[Spanned]) -> Result<(Shape, &[Spanned]), Stop>
    ensures { Gives (λ x. (shape_tree x.0, kinds x.1.now)) result
        (read_shape left (kinds tokens.now)) }
{
    let Some((first, rest)) = first_of(tokens) else {
        return Err(Stop::Unexpected(0));
    };
    let start = shape_of(first);
    if is_no_shape(start) {
        return Err(Stop::Unexpected(tokens.len()));
    }
    if left == 0 {
        return Err(Stop::TooNested(tokens.len()));
    }
    shape_form_at(alloc, left - 1, start, rest)
}
