use clap::Error;
use clap::error::ErrorKind;
use fx_base::NoMemory;
use std::alloc::AllocError;

/// Why the words of the command line ask for nothing.
#[derive(Debug, Drop)]
pub enum WordsFault {
    /// They have no command's form.
    Usage,
    NoMemory,
}

impl From<NoMemory> for WordsFault {
    ghost use Rattle.std.specs.Prelude.{◌≡◌};
    ghost use Rattle.fx_words.specs.declared.fault.WordsFault.TheVariants as fault;

    ghost from_gives = { λ _ why. why ≡ fault.NoMemory };

    fn from(_: NoMemory) -> WordsFault {
        WordsFault::NoMemory
    }
}

impl From<AllocError> for WordsFault {
    ghost use Rattle.std.specs.Prelude.{◌≡◌};
    ghost use Rattle.fx_words.specs.declared.fault.WordsFault.TheVariants as fault;

    ghost from_gives = { λ _ why. why ≡ fault.NoMemory };

    fn from(_: AllocError) -> WordsFault {
        WordsFault::NoMemory
    }
}

impl From<Error> for WordsFault {
    ghost use Rattle.std.specs.Prelude.{◌≡◌, ◌≢◌};
    ghost use Rattle.clap.specs.Words.{kind_of};
    ghost use Rattle.clap.specs.declared.error.kind.ErrorKind.TheVariants.{OutOfMemory};
    ghost use Rattle.fx_words.specs.declared.fault.WordsFault.TheVariants as fault;

    ghost from_gives = { λ error why. why ≡ fault.Usage → kind_of error ≢ OutOfMemory };

    fn from(error: Error) -> WordsFault {
        if error.kind() == ErrorKind::OutOfMemory {
            return WordsFault::NoMemory;
        }
        WordsFault::Usage
    }
}
