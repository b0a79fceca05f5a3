ghost use Rattle.std.specs.Prelude.{◌≡◌};
ghost use Rattle.std.specs.List.{prefix_len};
ghost use Rattle.fx_expr.specs.Bytes.{is_word_byte};
ghost use Rattle.fx_lex.specs.Kinds.{IsKindOf};
ghost use Rattle.fx_lex.specs.Spelling.{is_digit};
ghost use Rattle.fx_lex.specs.Reading.{is_within_line};

use crate::token::Mark;

/// What a byte begins.
#[derive(Clone, Copy)]
pub(crate) enum Kind {
    Blank,
    Comment,
    Word,
    Number,
    Quote,
    /// This mark, or one of two bytes.
    Mark(Mark),
    Nothing,
}

// 1 for each byte of a word, else 0, 32 bytes a row.
static WORD_BYTES: [u8; 256] = [
    0, 0, 0, 0, 0, 0, 0, 0, 0, 0, 0, 0, 0, 0, 0, 0, 0, 0, 0, 0, 0, 0, 0, 0, 0, 0, 0, 0, 0, 0, 0, 0,
    0, 0, 0, 0, 0, 0, 0, 0, 0, 0, 0, 0, 0, 0, 0, 0, 1, 1, 1, 1, 1, 1, 1, 1, 1, 1, 0, 0, 0, 0, 0, 0,
    0, 1, 1, 1, 1, 1, 1, 1, 1, 1, 1, 1, 1, 1, 1, 1, 1, 1, 1, 1, 1, 1, 1, 1, 1, 1, 1, 0, 0, 0, 0, 1,
    0, 1, 1, 1, 1, 1, 1, 1, 1, 1, 1, 1, 1, 1, 1, 1, 1, 1, 1, 1, 1, 1, 1, 1, 1, 1, 1, 0, 0, 0, 0, 0,
    0, 0, 0, 0, 0, 0, 0, 0, 0, 0, 0, 0, 0, 0, 0, 0, 0, 0, 0, 0, 0, 0, 0, 0, 0, 0, 0, 0, 0, 0, 0, 0,
    0, 0, 0, 0, 0, 0, 0, 0, 0, 0, 0, 0, 0, 0, 0, 0, 0, 0, 0, 0, 0, 0, 0, 0, 0, 0, 0, 0, 0, 0, 0, 0,
    0, 0, 0, 0, 0, 0, 0, 0, 0, 0, 0, 0, 0, 0, 0, 0, 0, 0, 0, 0, 0, 0, 0, 0, 0, 0, 0, 0, 0, 0, 0, 0,
    0, 0, 0, 0, 0, 0, 0, 0, 0, 0, 0, 0, 0, 0, 0, 0, 0, 0, 0, 0, 0, 0, 0, 0, 0, 0, 0, 0, 0, 0, 0, 0,
];

/// What a byte begins.
pub(crate) fn kind_of(b: u8) -> Kind
    ensures { IsKindOf b result }
{
    KINDS[usize::from(b)]
}

fn is_digit(b: u8) -> bool
    ensures { result ≡ is_digit b }
{
    b.is_ascii_digit()
}

#[tactic(auto, using(crate::proofs::Table::word_byte_at))]
fn is_word_byte(b: u8) -> bool
    ensures { result ≡ is_word_byte b }
{
    WORD_BYTES[usize::from(b)] != 0
}

/// How many bytes at the front are letters, digits or `_`.
pub(crate) fn word_len(bytes: &[u8]) -> usize
    ensures { result ≡ prefix_len is_word_byte bytes.now }
{
    for (at, b) in bytes.iter().enumerate() {
        if !is_word_byte(*b) {
            return at;
        }
    }
    bytes.len()
}

/// How many bytes at the front are digits.
pub(crate) fn digits_len(bytes: &[u8]) -> usize
    ensures { result ≡ prefix_len is_digit bytes.now }
{
    for (at, b) in bytes.iter().enumerate() {
        if !is_digit(*b) {
            return at;
        }
    }
    bytes.len()
}

/// How many bytes at the front stand before the first line feed.
pub(crate) fn line_len(bytes: &[u8]) -> usize
    ensures { result ≡ prefix_len is_within_line bytes.now }
{
    for (at, b) in bytes.iter().enumerate() {
        if *b == b'\n' {
            return at;
        }
    }
    bytes.len()
}

// What each byte begins.
static KINDS: [Kind; 256] = [
    Kind::Nothing,
    Kind::Nothing,
    Kind::Nothing,
    Kind::Nothing,
    Kind::Nothing,
    Kind::Nothing,
    Kind::Nothing,
    Kind::Nothing,
    Kind::Nothing,
    Kind::Blank,
    Kind::Blank,
    Kind::Nothing,
    Kind::Nothing,
    Kind::Blank,
    Kind::Nothing,
    Kind::Nothing,
    Kind::Nothing,
    Kind::Nothing,
    Kind::Nothing,
    Kind::Nothing,
    Kind::Nothing,
    Kind::Nothing,
    Kind::Nothing,
    Kind::Nothing,
    Kind::Nothing,
    Kind::Nothing,
    Kind::Nothing,
    Kind::Nothing,
    Kind::Nothing,
    Kind::Nothing,
    Kind::Nothing,
    Kind::Nothing,
    Kind::Blank,
    Kind::Nothing,
    Kind::Quote,
    Kind::Comment,
    Kind::Nothing,
    Kind::Nothing,
    Kind::Nothing,
    Kind::Nothing,
    Kind::Mark(Mark::LeftParen),
    Kind::Mark(Mark::RightParen),
    Kind::Nothing,
    Kind::Mark(Mark::Plus),
    Kind::Mark(Mark::Comma),
    Kind::Mark(Mark::Minus),
    Kind::Nothing,
    Kind::Nothing,
    Kind::Number,
    Kind::Number,
    Kind::Number,
    Kind::Number,
    Kind::Number,
    Kind::Number,
    Kind::Number,
    Kind::Number,
    Kind::Number,
    Kind::Number,
    Kind::Mark(Mark::Colon),
    Kind::Nothing,
    Kind::Mark(Mark::LeftAngle),
    Kind::Mark(Mark::Equal),
    Kind::Mark(Mark::RightAngle),
    Kind::Nothing,
    Kind::Nothing,
    Kind::Word,
    Kind::Word,
    Kind::Word,
    Kind::Word,
    Kind::Word,
    Kind::Word,
    Kind::Word,
    Kind::Word,
    Kind::Word,
    Kind::Word,
    Kind::Word,
    Kind::Word,
    Kind::Word,
    Kind::Word,
    Kind::Word,
    Kind::Word,
    Kind::Word,
    Kind::Word,
    Kind::Word,
    Kind::Word,
    Kind::Word,
    Kind::Word,
    Kind::Word,
    Kind::Word,
    Kind::Word,
    Kind::Word,
    Kind::Nothing,
    Kind::Nothing,
    Kind::Nothing,
    Kind::Nothing,
    Kind::Word,
    Kind::Nothing,
    Kind::Word,
    Kind::Word,
    Kind::Word,
    Kind::Word,
    Kind::Word,
    Kind::Word,
    Kind::Word,
    Kind::Word,
    Kind::Word,
    Kind::Word,
    Kind::Word,
    Kind::Word,
    Kind::Word,
    Kind::Word,
    Kind::Word,
    Kind::Word,
    Kind::Word,
    Kind::Word,
    Kind::Word,
    Kind::Word,
    Kind::Word,
    Kind::Word,
    Kind::Word,
    Kind::Word,
    Kind::Word,
    Kind::Word,
    Kind::Mark(Mark::LeftBrace),
    Kind::Mark(Mark::Bar),
    Kind::Mark(Mark::RightBrace),
    Kind::Nothing,
    Kind::Nothing,
    Kind::Nothing,
    Kind::Nothing,
    Kind::Nothing,
    Kind::Nothing,
    Kind::Nothing,
    Kind::Nothing,
    Kind::Nothing,
    Kind::Nothing,
    Kind::Nothing,
    Kind::Nothing,
    Kind::Nothing,
    Kind::Nothing,
    Kind::Nothing,
    Kind::Nothing,
    Kind::Nothing,
    Kind::Nothing,
    Kind::Nothing,
    Kind::Nothing,
    Kind::Nothing,
    Kind::Nothing,
    Kind::Nothing,
    Kind::Nothing,
    Kind::Nothing,
    Kind::Nothing,
    Kind::Nothing,
    Kind::Nothing,
    Kind::Nothing,
    Kind::Nothing,
    Kind::Nothing,
    Kind::Nothing,
    Kind::Nothing,
    Kind::Nothing,
    Kind::Nothing,
    Kind::Nothing,
    Kind::Nothing,
    Kind::Nothing,
    Kind::Nothing,
    Kind::Nothing,
    Kind::Nothing,
    Kind::Nothing,
    Kind::Nothing,
    Kind::Nothing,
    Kind::Nothing,
    Kind::Nothing,
    Kind::Nothing,
    Kind::Nothing,
    Kind::Nothing,
    Kind::Nothing,
    Kind::Nothing,
    Kind::Nothing,
    Kind::Nothing,
    Kind::Nothing,
    Kind::Nothing,
    Kind::Nothing,
    Kind::Nothing,
    Kind::Nothing,
    Kind::Nothing,
    Kind::Nothing,
    Kind::Nothing,
    Kind::Nothing,
    Kind::Nothing,
    Kind::Nothing,
    Kind::Nothing,
    Kind::Nothing,
    Kind::Nothing,
    Kind::Nothing,
    Kind::Nothing,
    Kind::Nothing,
    Kind::Nothing,
    Kind::Nothing,
    Kind::Nothing,
    Kind::Nothing,
    Kind::Nothing,
    Kind::Nothing,
    Kind::Nothing,
    Kind::Nothing,
    Kind::Nothing,
    Kind::Nothing,
    Kind::Nothing,
    Kind::Nothing,
    Kind::Nothing,
    Kind::Nothing,
    Kind::Nothing,
    Kind::Nothing,
    Kind::Nothing,
    Kind::Nothing,
    Kind::Nothing,
    Kind::Nothing,
    Kind::Nothing,
    Kind::Nothing,
    Kind::Nothing,
    Kind::Nothing,
    Kind::Nothing,
    Kind::Nothing,
    Kind::Nothing,
    Kind::Nothing,
    Kind::Nothing,
    Kind::Nothing,
    Kind::Nothing,
    Kind::Nothing,
    Kind::Nothing,
    Kind::Nothing,
    Kind::Nothing,
    Kind::Nothing,
    Kind::Nothing,
    Kind::Nothing,
    Kind::Nothing,
    Kind::Nothing,
    Kind::Nothing,
    Kind::Nothing,
    Kind::Nothing,
    Kind::Nothing,
    Kind::Nothing,
    Kind::Nothing,
    Kind::Nothing,
    Kind::Nothing,
    Kind::Nothing,
    Kind::Nothing,
    Kind::Nothing,
    Kind::Nothing,
    Kind::Nothing,
    Kind::Nothing,
    Kind::Nothing,
    Kind::Nothing,
    Kind::Nothing,
    Kind::Nothing,
    Kind::Nothing,
    Kind::Nothing,
];
