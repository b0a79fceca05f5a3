ghost use Rattle.std.specs.Prelude.{◌≡◌};
ghost use Rattle.std.specs.Option.{option_map};
ghost use Rattle.fx_parse.specs.Reader.{kinds, expect};
ghost use Rattle.fx_parse.specs.Grammars.{is_name};
ghost use Rattle.fx_parse.specs.Signs.{is_word, is_sign, closed, name_at};
ghost use Rattle.fx_parse.specs.Stuck.{Gives};

use crate::cursor::first_of;
use crate::keyword::{Keyword, keyword_of};
use crate::stop::Stop;
use fx_expr::Word;
use fx_lex::{Mark, Spanned, Token};
use std::alloc::Global;

/// A token that stands for itself in a form.
#[derive(Clone, Copy, Debug)]
pub enum Sign {
    LeftParen,
    RightParen,
    LeftBrace,
    RightBrace,
    RightAngle,
    Comma,
    Colon,
    ColonColon,
    Bar,
    Equal,
    /// The kept word `in`.
    In,
    /// The kept word `else`.
    Else,
    /// The kept word `txn`.
    Txn,
    /// The word `def` where it is kept.
    Def,
}

fn is_word(token: &Token, wanted: &[u8]) -> bool
    ensures { result ≡ is_word wanted.now token.now }
{
    match token {
        Token::Word(word) => word.as_slice() == wanted,
        Token::Number(_) => false,
        Token::Str(_) => false,
        Token::Mark(_) => false,
        Token::Def => false,
    }
}

fn is_sign(token: &Token, sign: Sign) -> bool
    ensures { result ≡ is_sign sign token.now }
{
    match sign {
        Sign::LeftParen => matches!(token, Token::Mark(Mark::LeftParen)),
        Sign::RightParen => matches!(token, Token::Mark(Mark::RightParen)),
        Sign::LeftBrace => matches!(token, Token::Mark(Mark::LeftBrace)),
        Sign::RightBrace => matches!(token, Token::Mark(Mark::RightBrace)),
        Sign::RightAngle => matches!(token, Token::Mark(Mark::RightAngle)),
        Sign::Comma => matches!(token, Token::Mark(Mark::Comma)),
        Sign::Colon => matches!(token, Token::Mark(Mark::Colon)),
        Sign::ColonColon => matches!(token, Token::Mark(Mark::ColonColon)),
        Sign::Bar => matches!(token, Token::Mark(Mark::Bar)),
        Sign::Equal => matches!(token, Token::Mark(Mark::Equal)),
        Sign::In => is_word(token, Keyword::In.bytes()),
        Sign::Else => is_word(token, Keyword::Else.bytes()),
        Sign::Txn => is_word(token, Keyword::Txn.bytes()),
        Sign::Def => matches!(token, Token::Def),
    }
}

/// The tokens behind the sign that they begin with.
pub fn behind(tokens: &[Spanned], sign: Sign) -> Result<&[Spanned], Stop>
    ensures { Gives (λ r. kinds r.now) result (expect (is_sign sign) (kinds tokens.now)) }
{
    match first_of(tokens) {
        Some((first, rest)) => {
            if is_sign(first, sign) {
                return Ok(rest);
            }
            Err(Stop::Unexpected(tokens.len()))
        }
        None => Err(Stop::Unexpected(0)),
    }
}

/// What follows the sign; None exactly where the tokens don't begin with it.
pub fn closed(tokens: &[Spanned], sign: Sign) -> Option<&[Spanned]>
    ensures { option_map (λ r. kinds r.now) result ≡ closed sign (kinds tokens.now) }
{
    match first_of(tokens) {
        Some((first, rest)) => {
            if is_sign(first, sign) {
                return Some(rest);
            }
            None
        }
        None => None,
    }
}

fn is_name(word: &[u8]) -> bool
    ensures { result ≡ is_name word.now }
{
    keyword_of(word).is_none()
}

/// A name, and what follows.
pub fn name_at(alloc: Global, tokens: &[Spanned]) -> Result<(Word, &[Spanned]), Stop>
    ensures { Gives (λ x. (x.0, kinds x.1.now)) result (name_at (kinds tokens.now)) }
{
    match first_of(tokens) {
        Some((Token::Word(word), rest)) => {
            if is_name(word.as_slice()) {
                return Ok((word.copy(alloc)?, rest));
            }
            Err(Stop::Unexpected(tokens.len()))
        }
        Some((Token::Number(_), _)) => Err(Stop::Unexpected(tokens.len())),
        Some((Token::Str(_), _)) => Err(Stop::Unexpected(tokens.len())),
        Some((Token::Mark(_), _)) => Err(Stop::Unexpected(tokens.len())),
        Some((Token::Def, _)) => Err(Stop::Unexpected(tokens.len())),
        None => Err(Stop::Unexpected(0)),
    }
}
