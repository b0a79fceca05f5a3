//! Moves and edits.
ghost use Rattle.fx_parse.specs.Reader.{kinds, read_expr};
ghost use Rattle.fx_parse.specs.Stuck.{Gives};
ghost use Rattle.fx_spec.specs.Views.{act_tree};
ghost use Rattle.fx_source_parse.specs.Scripts.Reader.{to_at, store_at, act_form_at, act_at};

use crate::script::part::bracketed_at;
use crate::script::start::{ActStart, act_start, plain_act, start_of};
use fx_lex::Spanned;
use fx_parse::{Stop, first_of};
use fx_spec::Act;
use std::alloc::Global;

/// What follows `to`: `( expr )`.
#[tactic(auto, unfolding(crate::specs::Scripts::Reader::to_at))]
fn to_at(alloc: Global, left: u32, tokens: &[Spanned]) -> Result<(Act, &[Spanned]), Stop>
    ensures { Gives (λ x. (act_tree x.0, kinds x.1.now)) result
        (to_at (read_expr left) (kinds tokens.now)) }
{
    let (text, rest) = bracketed_at(alloc, left, tokens)?;
    Ok((Act::To(text), rest))
}

/// What follows `store`: `( expr )`.
#[tactic(auto, unfolding(crate::specs::Scripts::Reader::store_at))]
fn store_at(alloc: Global, left: u32, tokens: &[Spanned]) -> Result<(Act, &[Spanned]), Stop>
    ensures { Gives (λ x. (act_tree x.0, kinds x.1.now)) result
        (store_at (read_expr left) (kinds tokens.now)) }
{
    let (value, rest) = bracketed_at(alloc, left, tokens)?;
    Ok((Act::Store(value), rest))
}

/// What follows the first token of an act.
#[tactic(auto, unfolding(crate::specs::Scripts::Reader::act_form_at))]
pub(crate) fn act_form_at(
    alloc: Global,
    left: u32,
    start: ActStart,
    tokens: &[Spanned],
) -> Result<(Act, &[Spanned]), Stop>
    ensures { Gives (λ x. (act_tree x.0, kinds x.1.now)) result
        (act_form_at (read_expr left) start (kinds tokens.now)) }
{
    match start {
        ActStart::Plain(plain) => Ok((plain_act(plain), tokens)),
        ActStart::To => to_at(alloc, left, tokens),
        ActStart::Store => store_at(alloc, left, tokens),
    }
}

/// An act that stands behind the first token of its command.
pub(crate) fn act_at(
    alloc: Global,
    left: u32,
    tokens: &[Spanned],
) -> Result<(Act, &[Spanned]), Stop>
    ensures { Gives (λ x. (act_tree x.0, kinds x.1.now)) result
        (act_at (read_expr left) (kinds tokens.now)) }
{
    match first_of(tokens) {
        Some((first, rest)) => match act_start(start_of(first)) {
            Some(start) => act_form_at(alloc, left, start, rest),
            None => Err(Stop::Unexpected(tokens.len())),
        },
        None => Err(Stop::Unexpected(0)),
    }
}
