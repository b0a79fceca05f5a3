//! What a transaction comes to: its changes, outputs and end.
ghost use Rattle.std.specs.Prelude.{◌≡◌, IfOk};
ghost use Rattle.std.specs.Option.{unwrap_or};
ghost use Rattle.fx_spec.specs.declared.refusal.End.TheVariants.{Done};
ghost use Rattle.fx_run.specs.Keeping.{AreKept};
ghost use Rattle.fx_run.specs.Finishing.{IsFinished};

use crate::pursuing::Ran;
use fx_base::NoMemory;
use fx_expr::Values;
use fx_spec::End;
use fx_store::Changes;
use fx_view::{Overlay, Reads};
use std::alloc::Global;

/// What a transaction has come to: its changes, what it printed, and how it ended.
#[derive(Drop)]
pub(crate) struct Finished {
    pub(crate) changes: Changes,
    pub(crate) outputs: Values,
    pub(crate) end: End,
}

/// The changes that a transaction keeps of its own ones: where it is done, those that set what was not read there; else none.
fn changes_of(alloc: Global, reads: &Reads, end: &End, own: Overlay) -> Result<Changes, NoMemory>
    ensures { IfOk result (AreKept end.now own reads.now) }
{
    match end {
        End::Done => own.changes(alloc, reads),
        End::Stopped { .. } => Ok(Changes::new(alloc)),
        End::Aborted => Ok(Changes::new(alloc)),
    }
}

fn end_of(over: Option<End>) -> End
    ensures { result ≡ unwrap_or over Done }
{
    match over {
        Some(end) => end,
        None => End::Done,
    }
}

/// Finishes a transaction that has come to its end over these reads.
pub(crate) fn finish(alloc: Global, reads: &Reads, ran: Ran) -> Result<Finished, NoMemory>
    ensures { IfOk result (IsFinished ran reads.now) }
{
    let Ran { own, outputs, over } = ran;
    let end = end_of(over);
    let changes = changes_of(alloc, reads, &end, own)?;
    Ok(Finished {
        changes,
        outputs,
        end,
    })
}
