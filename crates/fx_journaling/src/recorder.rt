//! What takes the events of a run: a journal on a disk, and a sink.
ghost use Rattle.std.specs.Prelude.{◌≡◌, true};
ghost use Rattle.std.proofs.Props.{props};
ghost use Rattle.fx_journaling.specs.Kept.{RestsWhileGood};

use crate::fault::RecordFault;
use crate::keeping::keep;
use crate::telling::tell;
use fx_board::Event;
use fx_durable::{Disk, Journal};
use fx_outside::Sink;
use fx_sched::{Taker, World};
use std::alloc::Global;
use std::marker::{Brand, PhantomData};

/// Where a recording begins, for contracts alone.
pub(crate) trait Origin {
    ghost use Rattle.fx_journaling.specs.Taken.{Beginning};

    ghost began: { Beginning };
}

impl Origin for Brand {
    ghost use Rattle.fx_journaling.specs.Taken.{no_beginning};

    ghost began = { no_beginning };
}

/// A journal that was started, with the disk that it is on, and a sink. Each attempt that was settled is put into the journal,
/// and then the line of the event is written.
#[derive(Drop)]
pub(crate) struct Recorder<'a, 'b, K, D: Disk, S: Sink> {
    pub journal: Journal,
    pub disk: &'a mut D,
    pub out: &'b mut S,
    pub origin: PhantomData<K>,
    ghost rests: { RestsWhileGood journal (D.view disk.now) } by { Prim.hlevel props },
}

impl<'a, 'b, K: Origin, D: Disk, S: Sink> Taker for Recorder<'a, 'b, K, D, S> {
    ghost use Rattle.std.specs.Prelude.{◌≡◌};
    ghost use Rattle.fx_journaling.specs.Taken.{HasTaken, HasRefused};

    type Stop = RecordFault;

    ghost took = { λ r events running. (r.disk.ghost_name ≡ K.began.disk_name)
        × (r.out.ghost_name ≡ K.began.sink_name)
        × HasTaken K.began events running r.journal (D.view r.disk.now) (S.view r.out.now) };

    ghost refused = { λ r stop events event running. (r.disk.ghost_name ≡ K.began.disk_name)
        × (r.out.ghost_name ≡ K.began.sink_name)
        × HasRefused K.began stop events event running (D.view r.disk.now) (S.view r.out.now) };

    fn take(&mut self, alloc: Global, world: &World, event: Event) -> Result<(), RecordFault> {
        keep(&mut self.journal, &mut *self.disk, world, &event)?;
        tell(alloc, &mut *self.out, event)
    }
}
