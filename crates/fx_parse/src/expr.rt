ghost use Rattle.std.specs.Prelude.{◌≡◌, IfOk};
ghost use Rattle.fx_expr.specs.Views.{expr_tree};
ghost use Rattle.fx_parse.specs.Reader.{kinds, read_expr, bracket_at, before_at, choice_at, second_at, form_at, is_nothing};
ghost use Rattle.fx_parse.specs.Heads.{start_head, operator_middle};
ghost use Rattle.fx_parse.specs.Stuck.{Gives};

use crate::cursor::{first_of, glob_at, operator_at};
use crate::head::{Operator, Start, start_of};
use crate::sign::{Sign, behind};
use crate::stop::Stop;
use fx_base::NoMemory;
use fx_expr::{Expr, UnOp};
use fx_lex::Spanned;
use std::alloc::Global;

fn boxed(alloc: Global, expr: Expr) -> Result<Box<Expr>, NoMemory>
    ensures { IfOk result (λ b. b.value ≡ expr) }
{
    Ok(Box::new(alloc, expr)?)
}

fn is_nothing(start: &Start) -> bool
    ensures { result ≡ is_nothing (start_head start.now) }
{
    match start {
        Start::Nothing => true,
        Start::Leaf(_) => false,
        Start::Bracket => false,
        Start::Before(_) => false,
        Start::Choice => false,
    }
}

fn let_go(_start: Start) {}

/// The rest of a bracket behind its operator.
#[cycle(expr)]
#[tactic(auto, unfolding(crate::specs::Reader::second_at))]
fn second_at(
    alloc: Global,
    left: u32,
    first: Expr,
    operator: Operator,
    tokens: &[Spanned],
) -> Result<(Expr, &[Spanned]), Stop>
    ensures { Gives (λ x. (expr_tree x.0, kinds x.1.now)) result
        (second_at (read_expr left) (expr_tree first) (operator_middle operator)
        (kinds tokens.now)) }
{
    match operator {
        Operator::Binary(op) => {
            let (second, rest) = expr_at(alloc, left, tokens)?;
            let rest = behind(rest, Sign::RightParen)?;
            Ok((
                Expr::Bin(op, boxed(alloc, first)?, boxed(alloc, second)?),
                rest,
            ))
        }
        Operator::Glob => {
            let (glob, rest) = glob_at(alloc, tokens)?;
            let rest = behind(rest, Sign::RightParen)?;
            Ok((Expr::Only(boxed(alloc, first)?, glob), rest))
        }
        Operator::Neither => Err(Stop::Unexpected(tokens.len())),
    }
}

/// What follows `(`.
#[cycle(expr)]
#[tactic(auto, unfolding(crate::specs::Reader::bracket_at))]
fn bracket_at(alloc: Global, left: u32, tokens: &[Spanned]) -> Result<(Expr, &[Spanned]), Stop>
    ensures { Gives (λ x. (expr_tree x.0, kinds x.1.now)) result
        (bracket_at (read_expr left) (kinds tokens.now)) }
{
    let (first, rest) = expr_at(alloc, left, tokens)?;
    let (operator, rest) = operator_at(rest)?;
    second_at(alloc, left, first, operator, rest)
}

/// What follows an operator of one expression.
#[cycle(expr)]
#[tactic(auto, unfolding(crate::specs::Reader::before_at))]
fn before_at(
    alloc: Global,
    left: u32,
    op: UnOp,
    tokens: &[Spanned],
) -> Result<(Expr, &[Spanned]), Stop>
    ensures { Gives (λ x. (expr_tree x.0, kinds x.1.now)) result
        (before_at (read_expr left) op (kinds tokens.now)) }
{
    let rest = behind(tokens, Sign::LeftParen)?;
    let (inner, rest) = expr_at(alloc, left, rest)?;
    let rest = behind(rest, Sign::RightParen)?;
    Ok((Expr::Un(op, boxed(alloc, inner)?), rest))
}

/// What follows `if`.
#[cycle(expr)]
#[tactic(auto, unfolding(crate::specs::Reader::choice_at))]
fn choice_at(alloc: Global, left: u32, tokens: &[Spanned]) -> Result<(Expr, &[Spanned]), Stop>
    ensures { Gives (λ x. (expr_tree x.0, kinds x.1.now)) result
        (choice_at (read_expr left) (kinds tokens.now)) }
{
    let rest = behind(tokens, Sign::LeftParen)?;
    let (test, rest) = expr_at(alloc, left, rest)?;
    let rest = behind(rest, Sign::Comma)?;
    let (first, rest) = expr_at(alloc, left, rest)?;
    let rest = behind(rest, Sign::Comma)?;
    let (second, rest) = expr_at(alloc, left, rest)?;
    let rest = behind(rest, Sign::RightParen)?;
    Ok((
        Expr::Choose(
            boxed(alloc, test)?,
            boxed(alloc, first)?,
            boxed(alloc, second)?,
        ),
        rest,
    ))
}

/// What follows the first token of an expression.
#[cycle(expr)]
#[tactic(auto, unfolding(crate::specs::Reader::form_at))]
fn form_at(
    alloc: Global,
    left: u32,
    start: Start,
    tokens: &[Spanned],
) -> Result<(Expr, &[Spanned]), Stop>
    ensures { Gives (λ x. (expr_tree x.0, kinds x.1.now)) result
        (form_at (read_expr left) (start_head start) (kinds tokens.now)) }
{
    match start {
        Start::Leaf(expr) => Ok((expr, tokens)),
        Start::Bracket => bracket_at(alloc, left, tokens),
        Start::Before(op) => before_at(alloc, left, op, tokens),
        Start::Choice => choice_at(alloc, left, tokens),
        Start::Nothing => Err(Stop::Unexpected(tokens.len())),
    }
}

/// The expression at the front, with so many levels left, and what follows it.
#[cycle(expr)]
pub fn expr_at(alloc: Global, left: u32, tokens: &[Spanned]) -> Result<(Expr, &[Spanned]), Stop>
    ensures { Gives (λ x. (expr_tree x.0, kinds x.1.now)) result
        (read_expr left (kinds tokens.now)) }
{
    let Some((first, rest)) = first_of(tokens) else {
        return Err(Stop::Unexpected(0));
    };
    let start = start_of(alloc, first)?;
    if is_nothing(&start) {
        let_go(start);
        return Err(Stop::Unexpected(tokens.len()));
    }
    if left == 0 {
        let_go(start);
        return Err(Stop::TooNested(tokens.len()));
    }
    form_at(alloc, left - 1, start, rest)
}
