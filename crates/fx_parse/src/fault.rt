use fx_lex::LexFault;
use std::error::Error;
use std::fmt;

/// Why a text stands for nothing. A place is a byte of the text; its end is the text's length.
#[derive(Clone, Copy, Debug, PartialEq, Eq, Hash)]
pub enum ParseFault {
    /// The text is longer than may be read.
    TooLarge,
    /// No token begins here.
    BadToken(u32),
    /// With this token the tokens so far begin nothing, or the text ends too early.
    Unexpected(u32),
    /// A form of level 65 begins here.
    TooNested(u32),
    NoMemory,
}

impl fmt::Display for ParseFault {
    ghost use Rattle.std.specs.Prelude.{Some};
    ghost use Rattle.fx_parse.specs.Faults.{fault_text};

    ghost output = { λ fault. Some (fault_text fault) };

    fn fmt<W: fmt::Write>(&self, f: &mut fmt::Formatter<W>) -> fmt::Result {
        match self {
            ParseFault::TooLarge => write!(f, "the text is too large"),
            ParseFault::BadToken(place) => write!(f, "no token begins at byte {place}"),
            ParseFault::Unexpected(place) => write!(f, "unexpected token at byte {place}"),
            ParseFault::TooNested(place) => write!(f, "nested too deep at byte {place}"),
            ParseFault::NoMemory => write!(f, "out of memory"),
        }
    }
}

impl Error for ParseFault {}

impl From<LexFault> for ParseFault {
    ghost use Rattle.std.specs.Prelude.{◌≡◌};
    ghost use Rattle.fx_parse.specs.Faults.{of_lex};

    ghost from_gives = { λ fault refused. refused ≡ of_lex fault };

    fn from(fault: LexFault) -> ParseFault {
        match fault {
            LexFault::BadToken(place) => ParseFault::BadToken(place),
            LexFault::NoMemory => ParseFault::NoMemory,
        }
    }
}
