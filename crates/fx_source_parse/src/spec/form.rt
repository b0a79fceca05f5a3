ghost use Rattle.std.specs.Prelude.{◌≡◌, IfOk};
ghost use Rattle.fx_parse.specs.Reader.{kinds, read_expr};
ghost use Rattle.fx_parse.specs.Stuck.{Gives};
ghost use Rattle.fx_spec.specs.Views.{spec_tree};
ghost use Rattle.fx_source_parse.specs.Descriptions.Reader.{read_spec, focus_at, pair_at, comp_at, opt_at, pred_at, call_at, form_at};

use crate::spec::args::args_at;
use crate::spec::start::{Start, is_nothing, let_go, start_of};
use fx_base::NoMemory;
use fx_expr::{Formula, Word};
use fx_lex::Spanned;
use fx_parse::{Sign, Stop, behind, expr_at, first_of, name_at};
use fx_spec::Spec;
use std::alloc::Global;

fn boxed(alloc: Global, spec: Spec) -> Result<Box<Spec>, NoMemory>
    ensures { IfOk result (λ b. b.value ≡ spec) }
{
    Ok(Box::new(alloc, spec)?)
}

/// The description at the front, in a box, and what follows it.
#[cycle(spec)]
fn part_at(alloc: Global, left: u32, tokens: &[Spanned]) -> Result<(Box<Spec>, &[Spanned]), Stop>
    ensures { Gives (λ x. (spec_tree x.0.value, kinds x.1.now)) result
        (read_spec left (kinds tokens.now)) }
{
    let (spec, rest) = spec_at(alloc, left, tokens)?;
    Ok((boxed(alloc, spec)?, rest))
}

/// What follows `(`: `expr :: spec )`.
#[cycle(spec)]
#[tactic(auto, unfolding(crate::specs::Descriptions::Reader::focus_at))]
fn focus_at(alloc: Global, left: u32, tokens: &[Spanned]) -> Result<(Spec, &[Spanned]), Stop>
    ensures { Gives (λ x. (spec_tree x.0, kinds x.1.now)) result
        (focus_at (read_expr left) (read_spec left) (kinds tokens.now)) }
{
    let (expr, rest) = expr_at(alloc, left, tokens)?;
    let rest = behind(rest, Sign::ColonColon)?;
    let (part, rest) = part_at(alloc, left, rest)?;
    let rest = behind(rest, Sign::RightParen)?;
    Ok((Spec::Focus(Formula::of(expr), part), rest))
}

/// What follows `<`: `NAME : spec , spec >`.
#[cycle(spec)]
#[tactic(auto, unfolding(crate::specs::Descriptions::Reader::pair_at))]
fn pair_at(alloc: Global, left: u32, tokens: &[Spanned]) -> Result<(Spec, &[Spanned]), Stop>
    ensures { Gives (λ x. (spec_tree x.0, kinds x.1.now)) result
        (pair_at (read_spec left) (kinds tokens.now)) }
{
    let (name, rest) = name_at(alloc, tokens)?;
    let rest = behind(rest, Sign::Colon)?;
    let (first, rest) = part_at(alloc, left, rest)?;
    let rest = behind(rest, Sign::Comma)?;
    let (second, rest) = part_at(alloc, left, rest)?;
    let rest = behind(rest, Sign::RightAngle)?;
    Ok((Spec::Pair(name, first, second), rest))
}

/// What follows `{`: `spec | NAME in expr }`.
#[cycle(spec)]
#[tactic(auto, unfolding(crate::specs::Descriptions::Reader::comp_at))]
fn comp_at(alloc: Global, left: u32, tokens: &[Spanned]) -> Result<(Spec, &[Spanned]), Stop>
    ensures { Gives (λ x. (spec_tree x.0, kinds x.1.now)) result
        (comp_at (read_expr left) (read_spec left) (kinds tokens.now)) }
{
    let (part, rest) = part_at(alloc, left, tokens)?;
    let rest = behind(rest, Sign::Bar)?;
    let (name, rest) = name_at(alloc, rest)?;
    let rest = behind(rest, Sign::In)?;
    let (set, rest) = expr_at(alloc, left, rest)?;
    let rest = behind(rest, Sign::RightBrace)?;
    Ok((Spec::Comp(part, name, Formula::of(set)), rest))
}

/// What follows `opt`: `( spec )`.
#[cycle(spec)]
#[tactic(auto, unfolding(crate::specs::Descriptions::Reader::opt_at))]
fn opt_at(alloc: Global, left: u32, tokens: &[Spanned]) -> Result<(Spec, &[Spanned]), Stop>
    ensures { Gives (λ x. (spec_tree x.0, kinds x.1.now)) result
        (opt_at (read_spec left) (kinds tokens.now)) }
{
    let rest = behind(tokens, Sign::LeftParen)?;
    let (part, rest) = part_at(alloc, left, rest)?;
    let rest = behind(rest, Sign::RightParen)?;
    Ok((Spec::Opt(part), rest))
}

/// What follows `pred`: `( expr )`.
#[tactic(auto, unfolding(crate::specs::Descriptions::Reader::pred_at))]
fn pred_at(alloc: Global, left: u32, tokens: &[Spanned]) -> Result<(Spec, &[Spanned]), Stop>
    ensures { Gives (λ x. (spec_tree x.0, kinds x.1.now)) result
        (pred_at (read_expr left) (kinds tokens.now)) }
{
    let rest = behind(tokens, Sign::LeftParen)?;
    let (test, rest) = expr_at(alloc, left, rest)?;
    let rest = behind(rest, Sign::RightParen)?;
    Ok((Spec::Pred(Formula::of(test)), rest))
}

/// What follows a name: `( args )`.
#[tactic(auto, unfolding(crate::specs::Descriptions::Reader::call_at))]
fn call_at(
    alloc: Global,
    left: u32,
    name: Word,
    tokens: &[Spanned],
) -> Result<(Spec, &[Spanned]), Stop>
    ensures { Gives (λ x. (spec_tree x.0, kinds x.1.now)) result
        (call_at (read_expr left) name (kinds tokens.now)) }
{
    let rest = behind(tokens, Sign::LeftParen)?;
    let (args, rest) = args_at(alloc, left, rest)?;
    Ok((Spec::Call(name, args), rest))
}

/// What follows the first token of a description.
#[cycle(spec)]
#[tactic(auto, unfolding(crate::specs::Descriptions::Reader::form_at))]
fn form_at(
    alloc: Global,
    left: u32,
    start: Start,
    tokens: &[Spanned],
) -> Result<(Spec, &[Spanned]), Stop>
    ensures { Gives (λ x. (spec_tree x.0, kinds x.1.now)) result
        (form_at (read_expr left) (read_spec left) start (kinds tokens.now)) }
{
    match start {
        Start::File => Ok((Spec::File, tokens)),
        Start::Dir => Ok((Spec::Dir, tokens)),
        Start::Link => Ok((Spec::Link, tokens)),
        Start::Focus => focus_at(alloc, left, tokens),
        Start::Pair => pair_at(alloc, left, tokens),
        Start::Comp => comp_at(alloc, left, tokens),
        Start::Opt => opt_at(alloc, left, tokens),
        Start::Pred => pred_at(alloc, left, tokens),
        Start::Call(name) => call_at(alloc, left, name, tokens),
        Start::Nothing => Err(Stop::Unexpected(tokens.len())),
    }
}

/// The description at the front, with so many levels left, and what follows it.
#[cycle(spec)]
pub(crate) fn spec_at(
    alloc: Global,
    left: u32,
    tokens: &[Spanned],
) -> Result<(Spec, &[Spanned]), Stop>
    ensures { Gives (λ x. (spec_tree x.0, kinds x.1.now)) result
        (read_spec left (kinds tokens.now)) }
{
    let Some((first, rest)) = first_of(tokens) else {
        return Err(Stop::Unexpected(0));
    };
    let start = start_of(alloc, first)?;
    if is_nothing(&start) {
        let_go(start);
        return Err(Stop::Unexpected(tokens.len()));
    }
    if left == 0 {
        let_go(start);
        return Err(Stop::TooNested(tokens.len()));
    }
    form_at(alloc, left - 1, start, rest)
}
