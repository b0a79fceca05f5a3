//! What a command of the program ends with.
ghost use Rattle.std.specs.Prelude.{◌≡◌};
ghost use Rattle.fx_command.specs.Codes.{status_code};

use fx_base::NoMemory;
use fx_expr::{Shape, Word};
use fx_folder::{FolderCause, LoadFault, SaveFault};
use fx_outside::{HostFault, SinkFailed};

/// Why a text is refused. A place is a byte of the text, its length at its end.
#[derive(Debug, Drop)]
pub enum TextFault {
    /// The text has more than 65,536 bytes.
    TooLarge,
    /// No token begins at this place.
    BadToken(u32),
    /// The tokens up to this place begin no text of the grammar.
    Unexpected(u32),
    /// A form that begins at this place is nested more than 64 deep.
    TooNested(u32),
    /// The word is not bound.
    Unknown(Word),
    /// A part has another shape than its place needs.
    TypeDiffers { expected: Shape, found: Shape },
    /// The word is bound already.
    Repeated(Word),
    /// The scripts have more than 100,000 transactions together.
    TooMany,
}

/// What a command ends with.
#[derive(Debug, Drop)]
pub enum Status {
    /// All is done, and every input was read to its end.
    Done,
    /// The words have no command's form.
    Usage,
    /// The text of the file that this word names is refused; the command is word 0.
    TextRefused { word: u32, cause: TextFault },
    FolderRefused(FolderCause),
    /// A text or the folder was not read.
    ReadFault,
    /// Something stands at OUT that is no empty folder.
    NotEmpty,
    /// OUT or the output was not written.
    WriteFault,
    NoMemory,
    /// The record of this number is short or one too many, or its entry makes the order of the journal one that no
    /// run of these scripts has.
    BadJournal { place: u64 },
}

impl Status {
    /// The status with which the program ends.
    pub fn code(&self) -> u8
        ensures { result ≡ status_code self.now }
    {
        match self {
            Status::Done => 0,
            Status::Usage => 2,
            Status::TextRefused { word: _, cause: _ } => 3,
            Status::FolderRefused(_) => 4,
            Status::ReadFault => 5,
            Status::NotEmpty => 6,
            Status::WriteFault => 7,
            Status::NoMemory => 8,
            Status::BadJournal { place: _ } => 9,
        }
    }
}

impl From<NoMemory> for Status {
    ghost use Rattle.std.specs.Prelude.{◌≡◌};
    ghost use Rattle.fx_command.specs.declared.status.Status.TheVariants.{NoMemory};

    ghost from_gives = { λ _ status. status ≡ NoMemory };

    fn from(_: fx_base::NoMemory) -> Status {
        Status::NoMemory
    }
}

/// A text that is not read.
impl From<HostFault> for Status {
    ghost use Rattle.std.specs.Prelude.{◌≡◌};
    ghost use Rattle.fx_command.specs.StatusOf.{read_status};

    ghost from_gives = { λ fault status. status ≡ read_status fault };

    fn from(fault: HostFault) -> Status {
        match fault {
            HostFault::Failed => Status::ReadFault,
            HostFault::NoMemory => Status::NoMemory,
        }
    }
}

/// A folder that is not loaded.
impl From<LoadFault> for Status {
    ghost use Rattle.std.specs.Prelude.{◌≡◌};
    ghost use Rattle.fx_command.specs.StatusOf.{load_status};

    ghost from_gives = { λ fault status. status ≡ load_status fault };

    fn from(fault: LoadFault) -> Status {
        match fault {
            LoadFault::Refused(cause) => Status::FolderRefused(cause),
            LoadFault::ReadFault => Status::ReadFault,
            LoadFault::NoMemory => Status::NoMemory,
        }
    }
}

/// OUT that is not written.
impl From<SaveFault> for Status {
    ghost use Rattle.std.specs.Prelude.{◌≡◌};
    ghost use Rattle.fx_command.specs.StatusOf.{save_status};

    ghost from_gives = { λ fault status. status ≡ save_status fault };

    fn from(fault: SaveFault) -> Status {
        match fault {
            SaveFault::WriteFault => Status::WriteFault,
            SaveFault::NotEmpty => Status::NotEmpty,
            SaveFault::NoMemory => Status::NoMemory,
        }
    }
}

/// An output that is not written.
impl From<SinkFailed> for Status {
    ghost use Rattle.std.specs.Prelude.{◌≡◌};
    ghost use Rattle.fx_command.specs.declared.status.Status.TheVariants.{WriteFault};

    ghost from_gives = { λ _ status. status ≡ WriteFault };

    fn from(_: SinkFailed) -> Status {
        Status::WriteFault
    }
}
