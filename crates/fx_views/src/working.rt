//! How a worker works off its script, over a log with versions.
ghost use Rattle.std.specs.Prelude.{IfOk};
ghost use Rattle.fx_shared.specs.Crews.{base_of};
ghost use Rattle.fx_shared.specs.Shared.{IsFresh};
ghost use Rattle.fx_crew.specs.Workers.{IsDoneBy};

use fx_base::NoMemory;
use fx_crew::{Worked, Worker, work};
use fx_outside::Gate;
use fx_shared::{Crew, LogDesk, SnapPass, Versioned};
use std::sync::Wait;

/// Settles the transactions of the pass's script, one after another.
pub fn work_on_versions<R: Wait, G: Gate>(
    crew: &Crew<'_, R, G, Versioned>,
    pass: SnapPass,
) -> Result<Worked<Versioned>, NoMemory>
    requires { IsFresh (base_of crew.now) crew.now.shares.now pass }
    ensures { IfOk result (IsDoneBy (base_of crew.now) crew.now.shares.now pass) }
{
    let desk = LogDesk::new(crew.rt, crew.gate, crew.shares, pass);
    let Worker {
        desk,
        next: _,
        retries,
    } = work(crew.alloc, crew.base, desk)?;
    Ok(Worked {
        pass: desk.into_pass(),
        retries,
    })
}
