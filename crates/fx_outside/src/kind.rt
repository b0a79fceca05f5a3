//! What stands at a place of a host's tree, and how a call on a host fails.
use fx_base::NoMemory;
use std::alloc::{AllocError, AllocFailed};
use thiserror::Error;

/// What an entry of a host's tree is.
#[derive(Clone, Copy, Debug, PartialEq, Eq)]
pub enum HostKind {
    File,
    Folder,
    /// Neither file nor folder: a link, a device, a socket.
    Other,
}

/// What stands at a path.
#[derive(Clone, Copy, Debug, PartialEq, Eq)]
pub enum Standing {
    Absent,
    Is(HostKind),
}

/// Why a call on a host has no answer.
#[derive(Clone, Copy, Debug, PartialEq, Eq, Error)]
pub enum HostFault {
    /// The host failed, or the call does not suit its tree.
    #[error("the host failed")]
    Failed,
    #[error("out of memory")]
    NoMemory,
}

impl From<NoMemory> for HostFault {
    ghost use Rattle.std.specs.Prelude.{◌≡◌};
    ghost use Rattle.fx_outside.specs.declared.kind.HostFault.TheVariants.{NoMemory};

    ghost from_gives = { λ _ e. e ≡ NoMemory };

    fn from(_: fx_base::NoMemory) -> HostFault {
        HostFault::NoMemory
    }
}

impl From<AllocError> for HostFault {
    ghost use Rattle.std.specs.Prelude.{◌≡◌};
    ghost use Rattle.fx_outside.specs.declared.kind.HostFault.TheVariants.{NoMemory};

    ghost from_gives = { λ _ e. e ≡ NoMemory };

    fn from(_: AllocError) -> HostFault {
        HostFault::NoMemory
    }
}

impl<T: Drop> From<AllocFailed<T>> for HostFault {
    ghost use Rattle.std.specs.Prelude.{◌≡◌};
    ghost use Rattle.fx_outside.specs.declared.kind.HostFault.TheVariants.{NoMemory};

    ghost from_gives = { λ _ e. e ≡ NoMemory };

    fn from(_: AllocFailed<T>) -> HostFault {
        HostFault::NoMemory
    }
}
