//! The word `def` among tokens.
ghost use Rattle.std.specs.Prelude.{◌≡◌, map};
ghost use Rattle.fx_lex.specs.Kept.{is_def, kept_at};

use crate::token::{Spanned, Token};

fn is_def(token: &Token) -> bool
    ensures { result ≡ is_def token.now }
{
    match token {
        Token::Word(word) => word.as_slice() == b"def".as_slice(),
        Token::Number(_) => false,
        Token::Str(_) => false,
        Token::Mark(_) => false,
        Token::Def => false,
    }
}

fn keep(spanned: &mut Spanned)
    ensures { spanned.new ≡ kept_at spanned.old }
{
    if is_def(&spanned.token) {
        spanned.token = Token::Def;
    }
}

/// Each word `def` is kept from now on.
pub(crate) fn keep_all(tokens: &mut [Spanned])
    ensures { tokens.new ≡ map kept_at tokens.old }
{
    for i in 0..tokens.len() {
        keep(&mut tokens[i]);
    }
}
