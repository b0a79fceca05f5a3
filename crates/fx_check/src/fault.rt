ghost use Rattle.std.specs.Prelude.{◌≡◌};
ghost use Rattle.fx_check.specs.declared.fault.CheckFault.TheVariants as check;

use fx_base::NoMemory;
use fx_expr::{Shape, Word};
use std::alloc::{AllocError, AllocFailed};

/// Why a tree is not well shaped: its first fault, in the order of evaluation.
#[derive(Debug, Drop)]
pub enum CheckFault {
    /// The name is not bound here.
    Unknown(Word),
    /// A part has another shape than its place needs.
    TypeDiffers { expected: Shape, found: Shape },
    /// The name is bound already.
    Repeated(Word),
    /// There are more than 100,000 transactions.
    TooMany,
    NoMemory,
}

impl From<NoMemory> for CheckFault {
    ghost from_gives = { λ _ fault. fault ≡ check.NoMemory };

    fn from(_: NoMemory) -> CheckFault {
        CheckFault::NoMemory
    }
}

impl From<AllocError> for CheckFault {
    ghost from_gives = { λ _ fault. fault ≡ check.NoMemory };

    fn from(_: AllocError) -> CheckFault {
        CheckFault::NoMemory
    }
}

impl<T: Drop> From<AllocFailed<T>> for CheckFault {
    ghost from_gives = { λ _ fault. fault ≡ check.NoMemory };

    fn from(refused: AllocFailed<T>) -> CheckFault {
        drop(refused);
        CheckFault::NoMemory
    }
}
