//! The arguments of a call.
ghost use Rattle.std.specs.Prelude.{◌≡◌};
ghost use Rattle.fx_parse.specs.Reader.{kinds, read_expr};
ghost use Rattle.fx_parse.specs.Stuck.{Gives};
ghost use Rattle.fx_source_parse.specs.Descriptions.Lists.{added_at, another_at, rest_at, listed_at};

use fx_expr::Formula;
use fx_lex::Spanned;
use fx_parse::{Sign, Stop, behind, closed, expr_at};
use fx_spec::Exprs;
use std::alloc::Global;

/// Adds the argument at the front, and gives what follows it. A refusal leaves the list.
#[tactic(auto, unfolding(crate::specs::Descriptions::Lists::added_at))]
fn added_at<'a>(
    alloc: Global,
    left: u32,
    args: &mut Exprs,
    tokens: &'a [Spanned],
) -> Result<&'a [Spanned], Stop>
    ensures { Gives (λ r. (args.new, kinds r.now)) result
        (added_at (read_expr left) args.old (kinds tokens.now)) }
{
    let (expr, rest) = expr_at(alloc, left, tokens)?;
    args.add(alloc, Formula::of(expr))?;
    Ok(rest)
}

/// Adds the argument behind a comma at the front, and gives what follows it.
#[tactic(auto, unfolding(crate::specs::Descriptions::Lists::another_at))]
fn another_at<'a>(
    alloc: Global,
    left: u32,
    args: &mut Exprs,
    tokens: &'a [Spanned],
) -> Result<&'a [Spanned], Stop>
    ensures { Gives (λ r. (args.new, kinds r.now)) result
        (another_at (read_expr left) args.old (kinds tokens.now)) }
{
    let rest = behind(tokens, Sign::Comma)?;
    added_at(alloc, left, args, rest)
}

/// Adds the arguments behind the first, and gives what follows the bracket that closes them.
fn rest_at<'a>(
    alloc: Global,
    left: u32,
    args: &mut Exprs,
    tokens: &'a [Spanned],
) -> Result<&'a [Spanned], Stop>
    ensures { Gives (λ r. (args.new, kinds r.now)) result
        (rest_at (read_expr left) args.old (kinds tokens.now)) }
{
    let mut rest = tokens;
    for _i in 0..tokens.len() {
        if let Some(behind) = closed(rest, Sign::RightParen) {
            return Ok(behind);
        }
        rest = another_at(alloc, left, args, rest)?;
    }
    Err(Stop::Unexpected(rest.len()))
}

/// The arguments up to the bracket that closes them, and what follows it.
pub(crate) fn args_at(
    alloc: Global,
    left: u32,
    tokens: &[Spanned],
) -> Result<(Exprs, &[Spanned]), Stop>
    ensures { Gives (λ x. (x.0, kinds x.1.now)) result
        (listed_at (read_expr left) (kinds tokens.now)) }
{
    let mut args = Exprs::new(alloc);
    if let Some(behind) = closed(tokens, Sign::RightParen) {
        return Ok((args, behind));
    }
    let rest = added_at(alloc, left, &mut args, tokens)?;
    let rest = rest_at(alloc, left, &mut args, rest)?;
    Ok((args, rest))
}
