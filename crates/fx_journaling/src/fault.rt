use fx_base::NoMemory;
use fx_durable::DiskFailed;
use fx_outside::SinkFailed;

/// Why a recorded run ends before its end.
#[derive(Clone, Copy, Debug, PartialEq, Eq)]
pub enum RecordFault {
    NoMemory,
    /// The journal's disk failed.
    DiskFailed,
    /// The events were not written.
    SinkFailed,
}

impl From<NoMemory> for RecordFault {
    ghost use Rattle.std.specs.Prelude.{◌≡◌};
    ghost use Rattle.fx_journaling.specs.declared.fault.RecordFault.TheVariants.{NoMemory};

    ghost from_gives = { λ _ fault. fault ≡ NoMemory };

    fn from(_: fx_base::NoMemory) -> RecordFault {
        RecordFault::NoMemory
    }
}

impl From<DiskFailed> for RecordFault {
    ghost use Rattle.std.specs.Prelude.{◌≡◌};
    ghost use Rattle.fx_journaling.specs.declared.fault.RecordFault.TheVariants.{DiskFailed};

    ghost from_gives = { λ _ fault. fault ≡ DiskFailed };

    fn from(_: fx_durable::DiskFailed) -> RecordFault {
        RecordFault::DiskFailed
    }
}

impl From<SinkFailed> for RecordFault {
    ghost use Rattle.std.specs.Prelude.{◌≡◌};
    ghost use Rattle.fx_journaling.specs.declared.fault.RecordFault.TheVariants.{SinkFailed};

    ghost from_gives = { λ _ fault. fault ≡ SinkFailed };

    fn from(_: fx_outside::SinkFailed) -> RecordFault {
        RecordFault::SinkFailed
    }
}
