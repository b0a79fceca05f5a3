ghost use Rattle.std.specs.Prelude.{◌≡◌, IfOk};
ghost use Rattle.fx_source_parse.specs.Descriptions.Reader.{keyword_start, mark_start, start_of, is_nothing};

use fx_base::NoMemory;
use fx_expr::Word;
use fx_lex::{Mark, Token};
use fx_parse::{Keyword, keyword_of};
use std::alloc::Global;

/// What the first token of a description begins.
#[derive(Drop)]
pub(crate) enum Start {
    File,
    Dir,
    Link,
    Focus,
    Pair,
    Comp,
    Opt,
    Pred,
    Call(Word),
    Nothing,
}

fn keyword_start(keyword: Keyword) -> Start
    ensures { result ≡ keyword_start keyword }
{
    match keyword {
        Keyword::File => Start::File,
        Keyword::Dir => Start::Dir,
        Keyword::Link => Start::Link,
        Keyword::Opt => Start::Opt,
        Keyword::Pred => Start::Pred,
        _ => Start::Nothing,
    }
}

fn mark_start(mark: Mark) -> Start
    ensures { result ≡ mark_start mark }
{
    match mark {
        Mark::LeftParen => Start::Focus,
        Mark::LeftAngle => Start::Pair,
        Mark::LeftBrace => Start::Comp,
        _ => Start::Nothing,
    }
}

/// What a token begins; a name is copied.
pub(crate) fn start_of(alloc: Global, token: &Token) -> Result<Start, NoMemory>
    ensures { IfOk result (λ start. start ≡ start_of token.now) }
{
    match token {
        Token::Word(word) => match keyword_of(word.as_slice()) {
            Some(keyword) => Ok(keyword_start(keyword)),
            None => Ok(Start::Call(word.copy(alloc)?)),
        },
        Token::Mark(mark) => Ok(mark_start(*mark)),
        Token::Number(_) => Ok(Start::Nothing),
        Token::Str(_) => Ok(Start::Nothing),
        Token::Def => Ok(Start::Nothing),
    }
}

pub(crate) fn is_nothing(start: &Start) -> bool
    ensures { result ≡ is_nothing start.now }
{
    matches!(start, Start::Nothing)
}

pub(crate) fn let_go(_start: Start) {}
