ghost use Rattle.std.specs.Prelude.{◌≡◌, ◌<◌, true, Some, length, slice_index};
ghost use Rattle.fx_expr.specs.Bytes.{has_word_start};
ghost use Rattle.fx_lex.specs.Spelling.{is_digit};
ghost use Rattle.fx_lex.specs.Kinds.{byte_kind};
ghost use Rattle.fx_lex.specs.Marks.{mark_of_one};
ghost use Rattle.fx_lex.specs.Found.{IsFoundAt};

use crate::byte::{Kind, digits_len, kind_of, line_len, word_len};
use crate::mark::mark_of_two;
use crate::number::number_of;
use crate::token::Mark;
use fx_expr::WORD_LIMIT;

/// What stands at a place of a text, and how many bytes it has.
#[derive(Clone, Copy)]
pub(crate) enum Found {
    Gap(usize),
    /// A word, which is still to be cut out of the text.
    Word(usize),
    Number(i64, usize),
    Mark(Mark, usize),
    /// A quote, behind which a string is still to be read.
    Quote,
    Nothing,
}

/// The word whose first byte stands at the front.
fn word_at(bytes: &[u8]) -> Found
    requires { has_word_start bytes.now ≡ true }
    ensures { IsFoundAt bytes.now result }
{
    let rest = word_len(&bytes[1..]);
    let len = 1 + rest;
    if len > WORD_LIMIT {
        return Found::Nothing;
    }
    Found::Word(len)
}

/// The number whose first digit stands at the front.
fn number_at(bytes: &[u8]) -> Found
    requires some { 0 < length bytes.now }
    requires digit { is_digit (slice_index bytes.now 0) ≡ true }
    ensures { IsFoundAt bytes.now result }
{
    let len = digits_len(bytes);
    match number_of(&bytes[..len]) {
        Some(number) => Found::Number(number, len),
        None => Found::Nothing,
    }
}

/// The mark at the front, whose first byte is a mark alone.
fn mark_at(bytes: &[u8], alone: Mark) -> Found
    requires some { 0 < length bytes.now }
    requires kind { byte_kind (slice_index bytes.now 0) ≡ 5 }
    requires mark { mark_of_one (slice_index bytes.now 0) ≡ Some alone }
    ensures { IsFoundAt bytes.now result }
{
    let first = bytes[0];
    if bytes.len() > 1 && bytes[1] == first {
        if let Some(mark) = mark_of_two(first) {
            return Found::Mark(mark, 2);
        }
    }
    Found::Mark(alone, 1)
}

/// What stands at the front: a gap, the longest token, or neither. A call would write the answer to memory first.
#[inline(always)]
pub(crate) fn found_at(bytes: &[u8]) -> Found
    requires { 0 < length bytes.now }
    ensures { IsFoundAt bytes.now result }
{
    match kind_of(bytes[0]) {
        Kind::Blank => Found::Gap(1),
        Kind::Comment => Found::Gap(line_len(bytes)),
        Kind::Word => word_at(bytes),
        Kind::Number => number_at(bytes),
        Kind::Quote => Found::Quote,
        Kind::Mark(mark) => mark_at(bytes, mark),
        Kind::Nothing => Found::Nothing,
    }
}
