//! Why a folder is not loaded.
use fx_base::NoMemory;
use fx_outside::{HostFault, HostText};
use std::alloc::{AllocError, AllocFailed};

/// Why a folder is refused. The texts are the path below the folder, with `/` before each name.
#[derive(Debug, Drop)]
pub enum FolderCause {
    /// The name can't be one of a filestore.
    BadName(HostText),
    /// Neither file nor folder.
    Strange(HostText),
    /// One node, or some bytes, too many.
    TooLarge(HostText),
    /// The table file is refused at this line, counted from 1.
    BadTable(u64),
}

/// Why a folder is not loaded.
#[derive(Debug, Drop)]
pub enum LoadFault {
    Refused(FolderCause),
    /// The host failed, or has no folder there.
    ReadFault,
    NoMemory,
}

impl From<HostFault> for LoadFault {
    ghost use Rattle.std.specs.Prelude.{◌≡◌};
    ghost use Rattle.fx_table.specs.Faults.{load_fault};

    ghost from_gives = { λ h fault. fault ≡ load_fault h };

    fn from(fault: HostFault) -> LoadFault {
        match fault {
            HostFault::Failed => LoadFault::ReadFault,
            HostFault::NoMemory => LoadFault::NoMemory,
        }
    }
}

impl From<NoMemory> for LoadFault {
    ghost use Rattle.std.specs.Prelude.{◌≡◌};
    ghost use Rattle.fx_table.specs.declared.fault.LoadFault.TheVariants.{NoMemory};

    ghost from_gives = { λ _ fault. fault ≡ NoMemory };

    fn from(_: fx_base::NoMemory) -> LoadFault {
        LoadFault::NoMemory
    }
}

impl From<AllocError> for LoadFault {
    ghost use Rattle.std.specs.Prelude.{◌≡◌};
    ghost use Rattle.fx_table.specs.declared.fault.LoadFault.TheVariants.{NoMemory};

    ghost from_gives = { λ _ fault. fault ≡ NoMemory };

    fn from(_: AllocError) -> LoadFault {
        LoadFault::NoMemory
    }
}

impl<T: Drop> From<AllocFailed<T>> for LoadFault {
    ghost use Rattle.std.specs.Prelude.{◌≡◌};
    ghost use Rattle.fx_table.specs.declared.fault.LoadFault.TheVariants.{NoMemory};

    ghost from_gives = { λ _ fault. fault ≡ NoMemory };

    fn from(_: AllocFailed<T>) -> LoadFault {
        LoadFault::NoMemory
    }
}
