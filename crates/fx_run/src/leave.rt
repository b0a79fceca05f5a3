//! Why a transaction goes no further.
ghost use Rattle.std.specs.Prelude.{◌≡◌};
ghost use Rattle.fx_view.specs.declared.reader.Stop.TheVariants.{NoMemory as OutOfMemory};
ghost use Rattle.fx_run.specs.declared.leave.Leave.TheVariants.{Stopped as IsStopped};
ghost use Rattle.fx_run.specs.Leaving as leaving;
ghost use Rattle.fx_run.specs.Leaving.{left_by, or_left, tried_number};

use fx_base::NoMemory;
use fx_session::Halt;
use fx_spec::End;
use fx_view::Stop;

/// Why a transaction goes no further.
#[derive(Drop)]
pub(crate) enum Leave {
    /// It has come to its end.
    Over(End),
    /// It goes no further for now.
    Stopped(Stop),
}

impl From<Stop> for Leave {
    ghost from_gives = { λ stop leave. leave ≡ IsStopped stop };

    fn from(stop: Stop) -> Leave {
        Leave::Stopped(stop)
    }
}

impl From<NoMemory> for Leave {
    ghost from_gives = { λ _ leave. leave ≡ IsStopped OutOfMemory };

    fn from(_: NoMemory) -> Leave {
        Leave::Stopped(Stop::NoMemory)
    }
}

/// What a command answers; its refusal ends the transaction at the command's number.
pub(crate) fn or_stop<X>(number: u32, answer: Result<X, Halt>) -> Result<X, Leave>
    ensures { result ≡ or_left number answer }
{
    match answer {
        Ok(value) => Ok(value),
        Err(halt) => Err(left(number, halt)),
    }
}

fn left(number: u32, halt: Halt) -> Leave
    ensures { result ≡ left_by number halt }
{
    match halt {
        Halt::Refused(refusal) => Leave::Over(End::Stopped {
            command: number,
            refusal,
        }),
        Halt::Stopped(stop) => Leave::Stopped(stop),
    }
}

/// What a `try` binds: 0, or the number of the refusal.
pub(crate) fn refusal_number(answer: Result<(), Halt>) -> Result<u32, Stop>
    ensures { result ≡ tried_number answer }
{
    match answer {
        Ok(()) => Ok(0),
        Err(Halt::Refused(refusal)) => Ok(refusal.number()),
        Err(Halt::Stopped(stop)) => Err(stop),
    }
}

/// The end that a call has come to, if there is one.
pub(crate) fn ended(answer: Result<(), Leave>) -> Result<Option<End>, Stop>
    ensures { result ≡ leaving.ended answer }
{
    match answer {
        Ok(()) => Ok(None),
        Err(Leave::Over(end)) => Ok(Some(end)),
        Err(Leave::Stopped(stop)) => Err(stop),
    }
}
