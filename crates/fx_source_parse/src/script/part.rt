//! Parts that several forms share.
ghost use Rattle.fx_expr.specs.Views.{expr_tree, shape_tree};
ghost use Rattle.fx_parse.specs.Reader.{kinds, read_expr};
ghost use Rattle.fx_parse.specs.ShapeReader.{read_shape};
ghost use Rattle.fx_parse.specs.Stuck.{Gives};
ghost use Rattle.fx_source_parse.specs.Scripts.Reader.{bracketed_at, valued_at, typed_at};

use fx_expr::{Expr, Shape, Word};
use fx_lex::Spanned;
use fx_parse::{Sign, Stop, behind, expr_at, name_at, shape_at};
use std::alloc::Global;

/// `( expr )`.
#[tactic(auto, unfolding(crate::specs::Scripts::Reader::bracketed_at))]
pub(crate) fn bracketed_at(
    alloc: Global,
    left: u32,
    tokens: &[Spanned],
) -> Result<(Expr, &[Spanned]), Stop>
    ensures { Gives (λ x. (expr_tree x.0, kinds x.1.now)) result
        (bracketed_at (read_expr left) (kinds tokens.now)) }
{
    let rest = behind(tokens, Sign::LeftParen)?;
    let (expr, rest) = expr_at(alloc, left, rest)?;
    let rest = behind(rest, Sign::RightParen)?;
    Ok((expr, rest))
}

/// `NAME = expr`.
#[tactic(auto, unfolding(crate::specs::Scripts::Reader::valued_at))]
pub(crate) fn valued_at(
    alloc: Global,
    left: u32,
    tokens: &[Spanned],
) -> Result<(Word, Expr, &[Spanned]), Stop>
    ensures { Gives (λ x. (x.0, expr_tree x.1, kinds x.2.now)) result
        (valued_at (read_expr left) (kinds tokens.now)) }
{
    let (name, rest) = name_at(alloc, tokens)?;
    let rest = behind(rest, Sign::Equal)?;
    let (expr, rest) = expr_at(alloc, left, rest)?;
    Ok((name, expr, rest))
}

/// `NAME : shape`.
#[tactic(auto, unfolding(crate::specs::Scripts::Reader::typed_at))]
pub(crate) fn typed_at(
    alloc: Global,
    left: u32,
    tokens: &[Spanned],
) -> Result<(Word, Shape, &[Spanned]), Stop>
    ensures { Gives (λ x. (x.0, shape_tree x.1, kinds x.2.now)) result
        (typed_at (read_shape left) (kinds tokens.now)) }
{
    let (name, rest) = name_at(alloc, tokens)?;
    let rest = behind(rest, Sign::Colon)?;
    let (shape, rest) = shape_at(alloc, left, rest)?;
    Ok((name, shape, rest))
}
