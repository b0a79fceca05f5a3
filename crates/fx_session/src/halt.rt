//! The error of a call that may be refused by the rules, or stopped for now.
ghost use Rattle.std.specs.Prelude.{◌≡◌};
ghost use Rattle.fx_view.specs.declared.reader.Stop.TheVariants.{NoMemory as OutOfMemory};
ghost use Rattle.fx_session.specs.declared.halt.Halt.TheVariants.{Refused as IsRefused, Stopped as IsStopped};
ghost use Rattle.fx_session.specs.Faults.{of_eval, of_path};

use fx_base::NoMemory;
use fx_expr::EvalFault;
use fx_spec::Refusal;
use fx_store::PathFault;
use fx_view::Stop;
use std::alloc::{AllocError, AllocFailed};

/// Why a call gives no answer.
#[derive(Drop)]
pub enum Halt {
    /// The rules refuse it.
    Refused(Refusal),
    /// It goes no further for now.
    Stopped(Stop),
}

impl From<Refusal> for Halt {
    ghost from_gives = { λ refusal halt. halt ≡ IsRefused refusal };

    fn from(refusal: Refusal) -> Halt {
        Halt::Refused(refusal)
    }
}

impl From<Stop> for Halt {
    ghost from_gives = { λ stop halt. halt ≡ IsStopped stop };

    fn from(stop: Stop) -> Halt {
        Halt::Stopped(stop)
    }
}

impl From<EvalFault> for Halt {
    ghost from_gives = { λ fault halt. halt ≡ of_eval fault };

    fn from(fault: EvalFault) -> Halt {
        match fault {
            EvalFault::Fault(fault) => Halt::Refused(Refusal::Expr(fault)),
            EvalFault::NoMemory => Halt::Stopped(Stop::NoMemory),
        }
    }
}

impl From<PathFault> for Halt {
    ghost from_gives = { λ fault halt. halt ≡ of_path fault };

    fn from(fault: PathFault) -> Halt {
        match fault {
            PathFault::BadName => Halt::Refused(Refusal::BadName),
            PathFault::TooDeep => Halt::Refused(Refusal::TooDeep),
            PathFault::NoMemory => Halt::Stopped(Stop::NoMemory),
        }
    }
}

impl From<NoMemory> for Halt {
    ghost from_gives = { λ _ halt. halt ≡ IsStopped OutOfMemory };

    fn from(_: NoMemory) -> Halt {
        Halt::Stopped(Stop::NoMemory)
    }
}

impl From<AllocError> for Halt {
    ghost from_gives = { λ _ halt. halt ≡ IsStopped OutOfMemory };

    fn from(_: AllocError) -> Halt {
        Halt::Stopped(Stop::NoMemory)
    }
}

impl<T: Drop> From<AllocFailed<T>> for Halt {
    ghost from_gives = { λ _ halt. halt ≡ IsStopped OutOfMemory };

    fn from(refused: AllocFailed<T>) -> Halt {
        drop(refused);
        Halt::Stopped(Stop::NoMemory)
    }
}
