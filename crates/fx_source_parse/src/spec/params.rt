//! The parameters of a definition.
ghost use Rattle.std.specs.Prelude.{◌≡◌};
ghost use Rattle.fx_parse.specs.Reader.{kinds};
ghost use Rattle.fx_parse.specs.ShapeReader.{read_shape};
ghost use Rattle.fx_parse.specs.Stuck.{Gives};
ghost use Rattle.fx_spec.specs.ParamViews.{param_tree};
ghost use Rattle.fx_source_parse.specs.Descriptions.Lists.{added_at, another_at, rest_at, listed_at};
ghost use Rattle.fx_source_parse.specs.Descriptions.Reader.{param_at};

use fx_expr::{Shape, Word};
use fx_lex::Spanned;
use fx_parse::{Sign, Stop, behind, closed, name_at, shape_at};
use fx_spec::Params;
use std::alloc::Global;

/// `NAME : shape`.
#[tactic(auto, unfolding(crate::specs::Descriptions::Reader::param_at))]
fn param_at(
    alloc: Global,
    left: u32,
    tokens: &[Spanned],
) -> Result<((Word, Shape), &[Spanned]), Stop>
    ensures { Gives (λ x. (param_tree x.0, kinds x.1.now)) result
        (param_at (read_shape left) (kinds tokens.now)) }
{
    let (name, rest) = name_at(alloc, tokens)?;
    let rest = behind(rest, Sign::Colon)?;
    let (shape, rest) = shape_at(alloc, left, rest)?;
    Ok(((name, shape), rest))
}

/// Adds the parameter at the front, and gives what follows it. A refusal leaves the list.
#[tactic(auto, unfolding(crate::specs::Descriptions::Lists::added_at))]
fn added_at<'a>(
    alloc: Global,
    left: u32,
    params: &mut Params,
    tokens: &'a [Spanned],
) -> Result<&'a [Spanned], Stop>
    ensures { Gives (λ r. (params.new, kinds r.now)) result
        (added_at (param_at (read_shape left)) params.old (kinds tokens.now)) }
{
    let (param, rest) = param_at(alloc, left, tokens)?;
    params.add(alloc, param)?;
    Ok(rest)
}

/// Adds the parameter behind a comma at the front, and gives what follows it.
#[tactic(auto, unfolding(crate::specs::Descriptions::Lists::another_at))]
fn another_at<'a>(
    alloc: Global,
    left: u32,
    params: &mut Params,
    tokens: &'a [Spanned],
) -> Result<&'a [Spanned], Stop>
    ensures { Gives (λ r. (params.new, kinds r.now)) result
        (another_at (param_at (read_shape left)) params.old (kinds tokens.now)) }
{
    let rest = behind(tokens, Sign::Comma)?;
    added_at(alloc, left, params, rest)
}

/// Adds the parameters behind the first, and gives what follows the bracket that closes them.
fn rest_at<'a>(
    alloc: Global,
    left: u32,
    params: &mut Params,
    tokens: &'a [Spanned],
) -> Result<&'a [Spanned], Stop>
    ensures { Gives (λ r. (params.new, kinds r.now)) result
        (rest_at (param_at (read_shape left)) params.old (kinds tokens.now)) }
{
    let mut rest = tokens;
    for _i in 0..tokens.len() {
        if let Some(behind) = closed(rest, Sign::RightParen) {
            return Ok(behind);
        }
        rest = another_at(alloc, left, params, rest)?;
    }
    Err(Stop::Unexpected(rest.len()))
}

/// The parameters up to the bracket that closes them, and what follows it.
pub(crate) fn params_at(
    alloc: Global,
    left: u32,
    tokens: &[Spanned],
) -> Result<(Params, &[Spanned]), Stop>
    ensures { Gives (λ x. (x.0, kinds x.1.now)) result
        (listed_at (param_at (read_shape left)) (kinds tokens.now)) }
{
    let mut params = Params::new(alloc);
    if let Some(behind) = closed(tokens, Sign::RightParen) {
        return Ok((params, behind));
    }
    let rest = added_at(alloc, left, &mut params, tokens)?;
    let rest = rest_at(alloc, left, &mut params, rest)?;
    Ok((params, rest))
}
