//! Why a folder is not saved.
use fx_base::NoMemory;
use fx_outside::HostFault;
use std::alloc::AllocError;

/// Why a filestore is not saved.
#[derive(Clone, Copy, Debug, PartialEq, Eq)]
pub enum SaveFault {
    /// The host failed, or there is no folder above.
    WriteFault,
    /// Something stands there that is no empty folder.
    NotEmpty,
    NoMemory,
}

impl From<HostFault> for SaveFault {
    ghost use Rattle.std.specs.Prelude.{◌≡◌};
    ghost use Rattle.fx_folder.specs.Faults.{save_fault};

    ghost from_gives = { λ h fault. fault ≡ save_fault h };

    fn from(fault: HostFault) -> SaveFault {
        match fault {
            HostFault::Failed => SaveFault::WriteFault,
            HostFault::NoMemory => SaveFault::NoMemory,
        }
    }
}

impl From<NoMemory> for SaveFault {
    ghost use Rattle.std.specs.Prelude.{◌≡◌};
    ghost use Rattle.fx_folder.specs.declared.fault.SaveFault.TheVariants.{NoMemory};

    ghost from_gives = { λ _ fault. fault ≡ NoMemory };

    fn from(_: fx_base::NoMemory) -> SaveFault {
        SaveFault::NoMemory
    }
}

impl From<AllocError> for SaveFault {
    ghost use Rattle.std.specs.Prelude.{◌≡◌};
    ghost use Rattle.fx_folder.specs.declared.fault.SaveFault.TheVariants.{NoMemory};

    ghost from_gives = { λ _ fault. fault ≡ NoMemory };

    fn from(_: AllocError) -> SaveFault {
        SaveFault::NoMemory
    }
}
