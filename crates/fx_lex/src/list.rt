ghost use Rattle.std.specs.Prelude.{◌≡◌, ◌≤◌, length, map, slice_get};
ghost use Rattle.std.specs.Option.{option_copied};
ghost use Rattle.fx_base.specs.Limits.{source_limit};
ghost use Rattle.fx_lex.specs.Kept.{kept_at};

use crate::keep::keep_all;
use crate::token::Spanned;
use std::marker::Model;

/// The tokens of a text in order, each with its span, and the length of the text. Contracts see both. Only
/// [`lex`](crate::lex) makes one.
#[derive(Debug, Drop)]
pub struct Tokens {
    items: Vec<Spanned>,
    text_len: u32,
}

impl Model for Tokens {
    ghost use Rattle.std.specs.Prelude.{◌≤◌, length};
    ghost use Rattle.fx_base.specs.Limits.{source_limit};
    ghost use Rattle.fx_lex.specs.TokenList.{TokenList};

    ghost Value = { TokenList };

    ghost view = { λ t. record { spanned = t.items.items; text_len = t.text_len } };

    ghost invariant = { λ t. length t.items.items ≤ source_limit };
}

impl Tokens {
    pub(crate) fn of(items: Vec<Spanned>, text_len: u32) -> Tokens
        requires { length items.items ≤ source_limit }
        ensures { result ≡ record { spanned = items.items; text_len = text_len } }
    {
        Tokens { items, text_len }
    }

    /// Keeps the word `def`, so that it names nothing: [`Token::Def`](crate::Token::Def) stands in its place from now on.
    pub fn keep_def(&mut self)
        ensures { self.new ≡ record {
          spanned = map kept_at self.old.spanned;
          text_len = self.old.text_len;
        } }
    {
        keep_all(self.items.as_mut_slice());
    }

    /// How many tokens there are: at most [`SOURCE_LIMIT`](fx_base::SOURCE_LIMIT).
    pub fn len(&self) -> u64
        ensures value { result ≡ length self.now.spanned }
        ensures limit { length self.now.spanned ≤ source_limit }
    {
        self.items.len() as u64
    }

    /// The token at `i`; None exactly from `len` on.
    pub fn at(&self, i: u64) -> Option<&Spanned>
        ensures { option_copied result ≡ slice_get self.now.spanned i }
    {
        self.items.get(i as usize)
    }

    /// All tokens in order.
    pub fn as_slice(&self) -> &[Spanned]
        ensures value { result.now ≡ self.now.spanned }
        ensures limit { length self.now.spanned ≤ source_limit }
    {
        self.items.as_slice()
    }

    /// The length of the text in bytes.
    pub fn text_len(&self) -> u32
        ensures { result ≡ self.now.text_len }
    {
        self.text_len
    }
}
