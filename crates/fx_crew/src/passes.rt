//! How the passes of a crew come in.
ghost use Rattle.std.specs.Prelude.{◌≡◌, ◌+◌, ◌++◌, OnOk};
ghost use Rattle.fx_turn.specs.Views.{joins};
ghost use Rattle.fx_turn.specs.Seats.{view};
ghost use Rattle.fx_shared.specs.Crews.{base_of};
ghost use Rattle.fx_shared.specs.Shared.{IsPassOf};
ghost use Rattle.fx_crew.specs.Workers.{IsDone, HasGathered};

use crate::worker::Worked;
use fx_base::NoMemory;
use fx_machine::{Retries, Retry};
use fx_shared::{Crew, Logged};
use fx_turn::Seat;

/// Adds a worker's retries, in order.
fn add_all(retries: &mut Retries, more: Vec<Retry>) -> Result<(), NoMemory>
    ensures { OnOk result (retries.new ≡ retries.old ++ more.items) }
{
    for retry in more {
        retries.push(retry)?;
    }
    Ok(())
}

/// Takes in the pass of a worker that is done, and adds its retries.
pub fn take_in<R, G, T: Logged>(
    crew: &Crew<'_, R, G, T>,
    maker: &mut Seat<T>,
    retries: &mut Retries,
    worked: Worked<T>,
) -> Result<(), NoMemory>
    requires pass { IsPassOf crew.now.shares.now maker.old }
    requires gathered { HasGathered (base_of crew.now) (view maker.old) retries.old }
    requires done { IsDone (base_of crew.now) crew.now.shares.now (joins (view maker.old)) worked }
    ensures pass { IsPassOf crew.now.shares.now maker.new }
    ensures splits { (view maker.new).splits ≡ (view maker.old).splits }
    ensures joins { joins (view maker.new) ≡ joins (view maker.old) + 1 }
    ensures gathered { OnOk result (HasGathered (base_of crew.now) (view maker.new) retries.new) }
{
    let Worked {
        pass,
        retries: more,
    } = worked;
    crew.shares.join(maker, pass);
    add_all(retries, more)
}
