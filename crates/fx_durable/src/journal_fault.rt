//! How reading a journal ends without an order.
ghost use Rattle.std.specs.Prelude.{◌≡◌};
ghost use Rattle.fx_durable.specs.declared.journal_fault.JournalFault.TheVariants.{Failed, NoMemory};

use crate::DiskFailed;
use std::alloc::{AllocError, AllocFailed};

/// Why no order was read from a journal.
#[derive(Clone, Copy, Debug, PartialEq, Eq)]
pub enum JournalFault {
    /// The record of this number is cut short, or is one too many.
    Broken(u64),
    /// The disk failed, or tells a file at another path.
    Failed,
    NoMemory,
}

impl From<DiskFailed> for JournalFault {
    ghost from_gives = { λ _ fault. fault ≡ Failed };

    fn from(_: DiskFailed) -> JournalFault {
        JournalFault::Failed
    }
}

impl From<fx_base::NoMemory> for JournalFault {
    ghost from_gives = { λ _ fault. fault ≡ NoMemory };

    fn from(_: fx_base::NoMemory) -> JournalFault {
        JournalFault::NoMemory
    }
}

impl From<AllocError> for JournalFault {
    ghost from_gives = { λ _ fault. fault ≡ NoMemory };

    fn from(_: AllocError) -> JournalFault {
        JournalFault::NoMemory
    }
}

impl<T: Drop> From<AllocFailed<T>> for JournalFault {
    ghost from_gives = { λ _ fault. fault ≡ NoMemory };

    fn from(_: AllocFailed<T>) -> JournalFault {
        JournalFault::NoMemory
    }
}
