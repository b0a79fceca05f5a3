ghost use Rattle.std.specs.Prelude.{◌≡◌};
ghost use Rattle.fx_parse.specs.ShapeReader.{keyword_shape, shape_of, is_no_shape};

use crate::keyword::{Keyword, keyword_of};
use fx_lex::Token;

/// What the first token of a shape begins.
#[derive(Clone, Copy)]
pub(crate) enum ShapeStart {
    Str,
    Int,
    Bool,
    Names,
    Pair,
    Opt,
    Table,
    Nothing,
}

fn keyword_shape(keyword: Keyword) -> ShapeStart
    ensures { result ≡ keyword_shape keyword }
{
    match keyword {
        Keyword::Str => ShapeStart::Str,
        Keyword::Int => ShapeStart::Int,
        Keyword::Bool => ShapeStart::Bool,
        Keyword::Names => ShapeStart::Names,
        Keyword::Pair => ShapeStart::Pair,
        Keyword::Opt => ShapeStart::Opt,
        Keyword::Table => ShapeStart::Table,
        _ => ShapeStart::Nothing,
    }
}

pub(crate) fn shape_of(token: &Token) -> ShapeStart
    ensures { result ≡ shape_of token.now }
{
    match token {
        Token::Word(word) => match keyword_of(word.as_slice()) {
            Some(keyword) => keyword_shape(keyword),
            None => ShapeStart::Nothing,
        },
        Token::Mark(_) => ShapeStart::Nothing,
        Token::Def => ShapeStart::Nothing,
        Token::Number(_) => ShapeStart::Nothing,
        Token::Str(_) => ShapeStart::Nothing,
    }
}

pub(crate) fn is_no_shape(start: ShapeStart) -> bool
    ensures { result ≡ is_no_shape start }
{
    matches!(start, ShapeStart::Nothing)
}
