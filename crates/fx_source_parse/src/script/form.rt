//! The commands that hold no others.
ghost use Rattle.fx_parse.specs.Reader.{kinds, read_expr};
ghost use Rattle.fx_parse.specs.ShapeReader.{read_shape};
ghost use Rattle.fx_parse.specs.Stuck.{Gives};
ghost use Rattle.fx_spec.specs.Views.{command_tree};
ghost use Rattle.fx_source_parse.specs.Scripts.Reader.{do_at, try_at, let_at, set_at, fetch_at, value_at, validate_at, print_at};

use crate::script::act::{act_at, act_form_at};
use crate::script::part::{bracketed_at, typed_at, valued_at};
use crate::script::start::ActStart;
use fx_lex::Spanned;
use fx_parse::{Stop, name_at};
use fx_spec::Command;
use std::alloc::Global;

/// What follows the first token of an act that is a command.
#[tactic(auto, unfolding(crate::specs::Scripts::Reader::do_at))]
pub(crate) fn do_at(
    alloc: Global,
    left: u32,
    start: ActStart,
    tokens: &[Spanned],
) -> Result<(Command, &[Spanned]), Stop>
    ensures { Gives (λ x. (command_tree x.0, kinds x.1.now)) result
        (do_at (read_expr left) start (kinds tokens.now)) }
{
    let (act, rest) = act_form_at(alloc, left, start, tokens)?;
    Ok((Command::Do(act), rest))
}

/// What follows `try`: `NAME act`.
#[tactic(auto, unfolding(crate::specs::Scripts::Reader::try_at))]
pub(crate) fn try_at(
    alloc: Global,
    left: u32,
    tokens: &[Spanned],
) -> Result<(Command, &[Spanned]), Stop>
    ensures { Gives (λ x. (command_tree x.0, kinds x.1.now)) result
        (try_at (read_expr left) (kinds tokens.now)) }
{
    let (name, rest) = name_at(alloc, tokens)?;
    let (act, rest) = act_at(alloc, left, rest)?;
    Ok((Command::Attempt(name, act), rest))
}

/// What follows `let`: `NAME = expr`.
#[tactic(auto, unfolding(crate::specs::Scripts::Reader::let_at))]
pub(crate) fn let_at(
    alloc: Global,
    left: u32,
    tokens: &[Spanned],
) -> Result<(Command, &[Spanned]), Stop>
    ensures { Gives (λ x. (command_tree x.0, kinds x.1.now)) result
        (let_at (read_expr left) (kinds tokens.now)) }
{
    let (name, value, rest) = valued_at(alloc, left, tokens)?;
    Ok((Command::Bind(name, value), rest))
}

/// What follows `set`: `NAME = expr`.
#[tactic(auto, unfolding(crate::specs::Scripts::Reader::set_at))]
pub(crate) fn set_at(
    alloc: Global,
    left: u32,
    tokens: &[Spanned],
) -> Result<(Command, &[Spanned]), Stop>
    ensures { Gives (λ x. (command_tree x.0, kinds x.1.now)) result
        (set_at (read_expr left) (kinds tokens.now)) }
{
    let (name, value, rest) = valued_at(alloc, left, tokens)?;
    Ok((Command::Assign(name, value), rest))
}

/// What follows `fetch`: `NAME : shape`.
#[tactic(auto, unfolding(crate::specs::Scripts::Reader::fetch_at))]
pub(crate) fn fetch_at(
    alloc: Global,
    left: u32,
    tokens: &[Spanned],
) -> Result<(Command, &[Spanned]), Stop>
    ensures { Gives (λ x. (command_tree x.0, kinds x.1.now)) result
        (fetch_at (read_shape left) (kinds tokens.now)) }
{
    let (name, shape, rest) = typed_at(alloc, left, tokens)?;
    Ok((Command::Fetch(name, shape), rest))
}

/// What follows `value`: `NAME : shape`.
#[tactic(auto, unfolding(crate::specs::Scripts::Reader::value_at))]
pub(crate) fn value_at(
    alloc: Global,
    left: u32,
    tokens: &[Spanned],
) -> Result<(Command, &[Spanned]), Stop>
    ensures { Gives (λ x. (command_tree x.0, kinds x.1.now)) result
        (value_at (read_shape left) (kinds tokens.now)) }
{
    let (name, shape, rest) = typed_at(alloc, left, tokens)?;
    Ok((Command::Whole(name, shape), rest))
}

/// What follows `validate`: `NAME`.
#[tactic(auto, unfolding(crate::specs::Scripts::Reader::validate_at))]
pub(crate) fn validate_at(alloc: Global, tokens: &[Spanned]) -> Result<(Command, &[Spanned]), Stop>
    ensures { Gives (λ x. (command_tree x.0, kinds x.1.now)) result
        (validate_at (kinds tokens.now)) }
{
    let (name, rest) = name_at(alloc, tokens)?;
    Ok((Command::Validate(name), rest))
}

/// What follows `print`: `( expr )`.
#[tactic(auto, unfolding(crate::specs::Scripts::Reader::print_at))]
pub(crate) fn print_at(
    alloc: Global,
    left: u32,
    tokens: &[Spanned],
) -> Result<(Command, &[Spanned]), Stop>
    ensures { Gives (λ x. (command_tree x.0, kinds x.1.now)) result
        (print_at (read_expr left) (kinds tokens.now)) }
{
    let (value, rest) = bracketed_at(alloc, left, tokens)?;
    Ok((Command::Print(value), rest))
}
