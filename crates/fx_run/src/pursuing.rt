//! The commands of a transaction from its start to its end.
ghost use Rattle.std.specs.Prelude.{◌≡◌, ◌<◌};
ghost use Rattle.fx_spec.specs.WellShaped.{IsTransaction};
ghost use Rattle.fx_run.specs.Course.{Pursues};

use crate::leave::ended;
use crate::obeying::obey_all;
use crate::walk::Walk;
use crate::work::Work;
use fx_base::Steps;
use fx_expr::Values;
use fx_session::Session;
use fx_spec::{Base, Commands, End};
use fx_view::{Overlay, Reader, Stop};
use std::alloc::Global;
use std::sync::Arc;
use std::sync::ledger::{Blank, Ledger};

/// Where the commands of a transaction have come to: its own changes and what it has printed, through all of them, or to an
/// end before.
#[derive(Drop)]
pub(crate) struct Ran {
    pub(crate) own: Overlay,
    pub(crate) outputs: Values,
    pub(crate) over: Option<End>,
}

/// Obeys the commands of a transaction in order, to the end or to a refusal or an `abort`. The reader is lent to them, and the
/// evaluations are counted from none.
pub(crate) fn pursue<R: Reader, L: Ledger>(
    alloc: Global,
    reader: &mut R,
    base: &Arc<Base>,
    commands: &Commands,
    blank: Blank,
) -> Result<Ran, Stop>
    requires name { blank.name ≡ L.name }
    requires parts { blank.parts ≡ L.parts }
    requires some { 0 < L.parts }
    requires shaped { IsTransaction commands.now }
    ensures { Pursues R.meaning base.now.value.description commands.now
        reader.old reader.new result }
{
    let base = Arc::try_clone(base)?;
    let session = Session {
        alloc,
        reader,
        own: Overlay::new(alloc),
        steps: Steps::<L>::open(blank),
    };
    let mut work = Work::new(base, session);
    let over = ended(obey_all(&mut work, 0, commands));
    // The loan of the reader ends before anything is dropped.
    let Work {
        walk,
        variables,
        outputs,
    } = work;
    let Walk { zip, session } = walk;
    let Session {
        reader,
        own,
        steps,
        ..
    } = session;
    let _reader = &mut *reader;
    zip.let_go();
    drop(variables);
    drop(steps);
    Ok(Ran {
        own,
        outputs,
        over: over?,
    })
}
