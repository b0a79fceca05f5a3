ghost use Rattle.std.specs.Prelude.{◌≡◌, IfOk};
ghost use Rattle.fx_parse.specs.Reader.{head_of, keyword_head, middle_of, keyword_middle, mark_middle};
ghost use Rattle.fx_parse.specs.Heads.{start_head, operator_middle};

use crate::keyword::{Keyword, keyword_of};
use fx_base::NoMemory;
use fx_expr::{BinOp, Expr, UnOp};
use fx_lex::{Mark, Token};
use std::alloc::Global;

/// What the first token of an expression begins.
#[derive(Drop)]
pub(crate) enum Start {
    Leaf(Expr),
    Bracket,
    Before(UnOp),
    Choice,
    Nothing,
}

/// What stands behind the first part of a bracket.
#[derive(Clone, Copy)]
pub(crate) enum Operator {
    Binary(BinOp),
    Glob,
    Neither,
}

fn keyword_start(keyword: Keyword) -> Start
    ensures { start_head result ≡ keyword_head keyword }
{
    match keyword {
        Keyword::True => Start::Leaf(Expr::Bool(true)),
        Keyword::False => Start::Leaf(Expr::Bool(false)),
        Keyword::Empty => Start::Leaf(Expr::Empty),
        Keyword::Not => Start::Before(UnOp::Not),
        Keyword::One => Start::Before(UnOp::One),
        Keyword::Lines => Start::Before(UnOp::Lines),
        Keyword::Size => Start::Before(UnOp::Size),
        Keyword::Int => Start::Before(UnOp::Int),
        Keyword::Text => Start::Before(UnOp::Text),
        Keyword::First => Start::Before(UnOp::First),
        Keyword::Second => Start::Before(UnOp::Second),
        Keyword::Keys => Start::Before(UnOp::Keys),
        Keyword::Present => Start::Before(UnOp::Present),
        Keyword::If => Start::Choice,
        _ => Start::Nothing,
    }
}

/// What a token begins; a word and a text are copied.
pub(crate) fn start_of(alloc: Global, token: &Token) -> Result<Start, NoMemory>
    ensures { IfOk result (λ start. start_head start ≡ head_of token.now) }
{
    match token {
        Token::Word(word) => match keyword_of(word.as_slice()) {
            Some(keyword) => Ok(keyword_start(keyword)),
            None => Ok(Start::Leaf(Expr::Var(word.copy(alloc)?))),
        },
        Token::Number(n) => Ok(Start::Leaf(Expr::Int(*n))),
        Token::Str(text) => Ok(Start::Leaf(Expr::Str(text.copy(alloc)?))),
        Token::Mark(Mark::LeftParen) => Ok(Start::Bracket),
        Token::Mark(_) => Ok(Start::Nothing),
        Token::Def => Ok(Start::Nothing),
    }
}

fn keyword_operator(keyword: Keyword) -> Operator
    ensures { operator_middle result ≡ keyword_middle keyword }
{
    match keyword {
        Keyword::And => Operator::Binary(BinOp::And),
        Keyword::Or => Operator::Binary(BinOp::Or),
        Keyword::In => Operator::Binary(BinOp::Member),
        Keyword::Union => Operator::Binary(BinOp::Union),
        Keyword::Minus => Operator::Binary(BinOp::Without),
        Keyword::Only => Operator::Glob,
        _ => Operator::Neither,
    }
}

fn mark_operator(mark: Mark) -> Operator
    ensures { operator_middle result ≡ mark_middle mark }
{
    match mark {
        Mark::PlusPlus => Operator::Binary(BinOp::Join),
        Mark::Plus => Operator::Binary(BinOp::Plus),
        Mark::Minus => Operator::Binary(BinOp::Minus),
        Mark::EqualEqual => Operator::Binary(BinOp::Equal),
        Mark::LeftAngle => Operator::Binary(BinOp::Less),
        _ => Operator::Neither,
    }
}

pub(crate) fn operator_of(token: &Token) -> Operator
    ensures { operator_middle result ≡ middle_of token.now }
{
    match token {
        Token::Word(word) => match keyword_of(word.as_slice()) {
            Some(keyword) => keyword_operator(keyword),
            None => Operator::Neither,
        },
        Token::Mark(mark) => mark_operator(*mark),
        Token::Number(_) => Operator::Neither,
        Token::Str(_) => Operator::Neither,
        Token::Def => Operator::Neither,
    }
}
