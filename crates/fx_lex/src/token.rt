use fx_base::NoMemory;
use fx_expr::{Text, Word};
use std::alloc::{AllocError, AllocFailed};
use std::error::Error;
use std::fmt;

/// A token of a text.
#[derive(Debug, Drop)]
pub enum Token {
    Word(Word),
    Number(i64),
    Str(Text),
    Mark(Mark),
    /// The word `def` where it is kept. [`lex`](crate::lex) gives a word instead, and
    /// [`Tokens::keep_def`](crate::Tokens::keep_def) this in its place.
    Def,
}

/// A mark, named by what it looks like.
#[derive(Clone, Copy, Debug, PartialEq, Eq, Hash)]
pub enum Mark {
    /// `(`
    LeftParen,
    /// `)`
    RightParen,
    /// `{`
    LeftBrace,
    /// `}`
    RightBrace,
    /// `<`
    LeftAngle,
    /// `>`
    RightAngle,
    /// `,`
    Comma,
    /// `:`
    Colon,
    /// `::`
    ColonColon,
    /// `|`
    Bar,
    /// `=`
    Equal,
    /// `==`
    EqualEqual,
    /// `+`
    Plus,
    /// `++`
    PlusPlus,
    /// `-`
    Minus,
}

/// A token with its bytes in the text: from `start` up to `stop`.
#[derive(Debug, Drop)]
pub struct Spanned {
    pub token: Token,
    pub start: u32,
    pub stop: u32,
}

/// Why a text has no tokens.
#[derive(Clone, Copy, Debug, PartialEq, Eq, Hash)]
pub enum LexFault {
    /// No token begins at this byte.
    BadToken(u32),
    NoMemory,
}

impl fmt::Display for LexFault {
    ghost use Rattle.std.specs.Prelude.{Some};
    ghost use Rattle.fx_lex.specs.Faults.{fault_text};

    ghost output = { λ fault. Some (fault_text fault) };

    fn fmt<W: fmt::Write>(&self, f: &mut fmt::Formatter<W>) -> fmt::Result {
        match self {
            LexFault::BadToken(place) => write!(f, "no token begins at byte {place}"),
            LexFault::NoMemory => write!(f, "out of memory"),
        }
    }
}

impl Error for LexFault {}

impl From<NoMemory> for LexFault {
    ghost use Rattle.std.specs.Prelude.{◌≡◌};
    ghost use Rattle.fx_lex.specs.declared.token.LexFault.TheVariants.{NoMemory};

    ghost from_gives = { λ _ e. e ≡ NoMemory };

    fn from(_: NoMemory) -> LexFault {
        LexFault::NoMemory
    }
}

impl From<AllocError> for LexFault {
    ghost use Rattle.std.specs.Prelude.{◌≡◌};
    ghost use Rattle.fx_lex.specs.declared.token.LexFault.TheVariants.{NoMemory};

    ghost from_gives = { λ _ e. e ≡ NoMemory };

    fn from(_: AllocError) -> LexFault {
        LexFault::NoMemory
    }
}

impl<T: Drop> From<AllocFailed<T>> for LexFault {
    ghost use Rattle.std.specs.Prelude.{◌≡◌};
    ghost use Rattle.fx_lex.specs.declared.token.LexFault.TheVariants.{NoMemory};

    ghost from_gives = { λ _ e. e ≡ NoMemory };

    fn from(_: AllocFailed<T>) -> LexFault {
        LexFault::NoMemory
    }
}
