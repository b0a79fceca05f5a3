ghost use Rattle.std.specs.Prelude.{◌≡◌, ◌∷◌, [], MatchOption};
ghost use Rattle.fx_parse.specs.Reader.{kinds, glob_at, middle_at};
ghost use Rattle.fx_parse.specs.Heads.{operator_middle};
ghost use Rattle.fx_parse.specs.Stuck.{Gives};

use crate::head::{Operator, operator_of};
use crate::stop::Stop;
use fx_expr::Text;
use fx_lex::{Spanned, Token};
use std::alloc::Global;

/// The first token and those behind it; None exactly where there is none.
pub fn first_of<'a>(tokens: &'a [Spanned]) -> Option<(&'a Token, &'a [Spanned])>
    ensures { MatchOption result (kinds tokens.now ≡ [])
        (λ x. kinds tokens.now ≡ x.0.now ∷ kinds x.1.now) }
{
    match tokens {
        [first, rest @ ..] => Some((&first.token, rest)),
        [] => None,
    }
}

/// A string's value, and what follows.
pub(crate) fn glob_at(alloc: Global, tokens: &[Spanned]) -> Result<(Text, &[Spanned]), Stop>
    ensures { Gives (λ x. (x.0, kinds x.1.now)) result (glob_at (kinds tokens.now)) }
{
    match first_of(tokens) {
        Some((Token::Str(text), rest)) => Ok((text.copy(alloc)?, rest)),
        Some((Token::Word(_), _)) => Err(Stop::Unexpected(tokens.len())),
        Some((Token::Number(_), _)) => Err(Stop::Unexpected(tokens.len())),
        Some((Token::Mark(_), _)) => Err(Stop::Unexpected(tokens.len())),
        Some((Token::Def, _)) => Err(Stop::Unexpected(tokens.len())),
        None => Err(Stop::Unexpected(0)),
    }
}

/// An operator between two parts or before a glob, and what follows.
pub(crate) fn operator_at(tokens: &[Spanned]) -> Result<(Operator, &[Spanned]), Stop>
    ensures { Gives (λ x. (operator_middle x.0, kinds x.1.now)) result
        (middle_at (kinds tokens.now)) }
{
    match first_of(tokens) {
        Some((first, rest)) => match operator_of(first) {
            Operator::Neither => Err(Stop::Unexpected(tokens.len())),
            Operator::Binary(op) => Ok((Operator::Binary(op), rest)),
            Operator::Glob => Ok((Operator::Glob, rest)),
        },
        None => Err(Stop::Unexpected(0)),
    }
}
