//! Why the text of a description or of a script is refused.
ghost use Rattle.std.specs.Prelude.{◌≡◌};
ghost use Rattle.fx_command.specs.Faults.{status_at};

use crate::status::{Status, TextFault};
use fx_base::NoMemory;
use fx_check::CheckFault;
use fx_parse::ParseFault;

/// Why a text stands for no description, or for no script.
#[derive(Debug, Drop)]
pub enum SourceFault {
    /// It is refused for this cause.
    Refused(TextFault),
    NoMemory,
}

impl SourceFault {
    /// How a command ends where this word names the file of the text; the command is word 0.
    pub fn at(self, word: u32) -> Status
        ensures { result ≡ status_at word self }
    {
        match self {
            SourceFault::Refused(cause) => Status::TextRefused { word, cause },
            SourceFault::NoMemory => Status::NoMemory,
        }
    }
}

impl From<NoMemory> for SourceFault {
    ghost use Rattle.std.specs.Prelude.{◌≡◌};
    ghost use Rattle.fx_command.specs.declared.fault.SourceFault.TheVariants.{NoMemory};

    ghost from_gives = { λ _ fault. fault ≡ NoMemory };

    fn from(_: NoMemory) -> SourceFault {
        SourceFault::NoMemory
    }
}

impl From<ParseFault> for SourceFault {
    ghost use Rattle.std.specs.Prelude.{◌≡◌};
    ghost use Rattle.fx_command.specs.Faults.{of_parse};

    ghost from_gives = { λ fault refused. refused ≡ of_parse fault };

    fn from(fault: ParseFault) -> SourceFault {
        match fault {
            ParseFault::TooLarge => SourceFault::Refused(TextFault::TooLarge),
            ParseFault::BadToken(place) => SourceFault::Refused(TextFault::BadToken(place)),
            ParseFault::Unexpected(place) => SourceFault::Refused(TextFault::Unexpected(place)),
            ParseFault::TooNested(place) => SourceFault::Refused(TextFault::TooNested(place)),
            ParseFault::NoMemory => SourceFault::NoMemory,
        }
    }
}

impl From<CheckFault> for SourceFault {
    ghost use Rattle.std.specs.Prelude.{◌≡◌};
    ghost use Rattle.fx_command.specs.Faults.{of_check};

    ghost from_gives = { λ fault refused. refused ≡ of_check fault };

    fn from(fault: CheckFault) -> SourceFault {
        match fault {
            CheckFault::Unknown(word) => SourceFault::Refused(TextFault::Unknown(word)),
            CheckFault::TypeDiffers { expected, found } => {
                SourceFault::Refused(TextFault::TypeDiffers { expected, found })
            }
            CheckFault::Repeated(word) => SourceFault::Refused(TextFault::Repeated(word)),
            CheckFault::TooMany => SourceFault::Refused(TextFault::TooMany),
            CheckFault::NoMemory => SourceFault::NoMemory,
        }
    }
}
