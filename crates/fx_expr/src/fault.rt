ghost use Rattle.std.specs.Prelude.{◌≡◌};
ghost use Rattle.fx_expr.specs.Faults.{fault_number};

use fx_base::NoMemory;
use std::alloc::{AllocError, AllocFailed};
use std::error::Error;
use std::fmt;

/// Why an expression has no value.
#[derive(Clone, Copy, Debug, PartialEq, Eq, Drop)]
pub enum ExprFault {
    /// A text of more than [`TEXT_LIMIT`](crate::TEXT_LIMIT) bytes, or a union that weighs more than
    /// [`UNION_LIMIT`](crate::UNION_LIMIT).
    TooLong,
    /// An integer outside `i64`.
    Overflow,
    /// A text that spells no integer.
    NotNumber,
}

impl ExprFault {
    /// The fault's number, from 1.
    pub fn number(self) -> u32
        ensures { result ≡ fault_number self }
    {
        match self {
            ExprFault::TooLong => 1,
            ExprFault::Overflow => 2,
            ExprFault::NotNumber => 3,
        }
    }
}

/// Why `eval` answers no value.
#[derive(Clone, Copy, Debug, PartialEq, Eq, Drop)]
pub enum EvalFault {
    Fault(ExprFault),
    NoMemory,
}

impl fmt::Display for ExprFault {
    ghost use Rattle.std.specs.Prelude.{Some};
    ghost use Rattle.fx_expr.specs.Faults.{fault_text};

    ghost output = { λ fault. Some (fault_text fault) };

    fn fmt<W: fmt::Write>(&self, f: &mut fmt::Formatter<W>) -> fmt::Result {
        f.write_str(match self {
            ExprFault::TooLong => "TooLong",
            ExprFault::Overflow => "Overflow",
            ExprFault::NotNumber => "NotNumber",
        })
    }
}

impl Error for ExprFault {}

impl From<NoMemory> for EvalFault {
    ghost use Rattle.fx_expr.specs.declared.fault.EvalFault.{EvalFault};

    ghost from_gives = { λ _ f. f ≡ EvalFault.NoMemory };

    fn from(_: NoMemory) -> EvalFault {
        EvalFault::NoMemory
    }
}
