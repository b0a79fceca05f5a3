ghost use Rattle.std.specs.Prelude.{◌≡◌, ℕ, ◌≤◌, ◌⊎◌, List, length, IfOk, IfErr, IsErrAnd};
ghost use Rattle.fx_base.specs.Limits.{source_limit};
ghost use Rattle.fx_lex.specs.declared.token.Spanned.{Spanned};
ghost use Rattle.fx_lex.specs.declared.token.Token.TheVariants as token;
ghost use Rattle.fx_lex.specs.Reading.{AreTokensOf, IsBadAt, IsFaultOf};
ghost use Rattle.fx_lex.specs.Laws.{TokensAreUnique, BadPlaceIsUnique, TokensExcludeBadPlace};

use crate::list::Tokens;
use crate::scan::{Found, found_at};
use crate::string::string_at;
use crate::token::{LexFault, Mark, Spanned, Token};
use fx_expr::Word;
use std::alloc::Global;
use std::sync::ArcSlice;

/// The tokens of a text of at most [`SOURCE_LIMIT`](fx_base::SOURCE_LIMIT) bytes, each with its span. Blanks and comments separate them, and at each
/// other place the longest token is taken. A run of digits is one number, and a run of word bytes that begins with a
/// letter or `_` is one word: a number that is too large or has a leading zero, and a word that is too long, are
/// refused at their first byte, and a string without its end, or with a wrong item, at its opening quote. One pass. All
/// words are cut out of one copy of the text, which is kept as long as one of them stands.
pub fn lex(alloc: Global, text: &[u8]) -> Result<Tokens, LexFault>
    requires { length text.now ≤ source_limit }
    ensures tokens { IfOk result (λ t. AreTokensOf text.now t.spanned) }
    ensures length { IfOk result (λ t. t.text_len ≡ length text.now) }
    ensures fault { IfErr result (IsFaultOf text.now) }

    // The other way round: tokens are given where the text has any, and the first bad place is told where it has one.
    ensures given { (spanned : List Spanned) → AreTokensOf text.now spanned →
        IfOk result (λ t. t.spanned ≡ spanned) × IfErr result (λ e. e ≡ LexFault.NoMemory) }
    ensures told { (place : ℕ) → IsBadAt text.now place →
        IsErrAnd result (λ e. (e ≡ LexFault.BadToken place) ⊎ (e ≡ LexFault.NoMemory)) }
{
    let shared = ArcSlice::from_slice(alloc, text)?;
    let mut items = Vec::with_capacity(alloc, text.len())?;
    let mut at = 0;
    while at < text.len() {
        match found_at(&text[at..]) {
            Found::Gap(len) => at += len,
            Found::Word(len) => {
                let word = Word::cut(&shared, at, at + len)?;
                items.push_reserved(spanned(Token::Word(word), at, at + len));
                at += len;
            }
            Found::Number(number, len) => {
                items.push_reserved(spanned(Token::Number(number), at, at + len));
                at += len;
            }
            Found::Mark(mark, len) => {
                items.push_reserved(marked(mark, at, at + len));
                at += len;
            }
            Found::Quote => match string_at(alloc, &text[at..])? {
                Some((value, len)) => {
                    items.push_reserved(spanned(Token::Str(value), at, at + len));
                    at += len;
                }
                None => return Err(LexFault::BadToken(at as u32)),
            },
            Found::Nothing => return Err(LexFault::BadToken(at as u32)),
        }
    }
    Ok(Tokens::of(items, text.len() as u32))
}

/// The token that stands in the text from `start` up to `stop`. A call would copy the token once more.
#[inline(always)]
fn spanned(token: Token, start: usize, stop: usize) -> Spanned
    requires ordered { start ≤ stop }
    requires short { stop ≤ source_limit }
    ensures { result ≡ record { token = token; start = start; stop = stop } }
{
    Spanned {
        token,
        start: start as u32,
        stop: stop as u32,
    }
}

/// The mark that stands in the text from `start` up to `stop`.
#[inline]
fn marked(mark: Mark, start: usize, stop: usize) -> Spanned
    requires ordered { start ≤ stop }
    requires short { stop ≤ source_limit }
    ensures { result ≡ record { token = token.Mark mark; start = start; stop = stop } }
{
    Spanned {
        token: Token::Mark(mark),
        start: start as u32,
        stop: stop as u32,
    }
}

/// A text has one list of tokens at most, and one first bad place at most, and never both.
pub fn one_reading()
    ensures tokens { TokensAreUnique }
    ensures place { BadPlaceIsUnique }
    ensures apart { TokensExcludeBadPlace }
{}
