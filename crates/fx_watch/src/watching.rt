//! What takes the events of a watched run.
ghost use Rattle.std.specs.Prelude.{◌≡◌, ◌<◌, IfOk, OnOk};
ghost use Rattle.std.specs.FinMap.{get};
ghost use Rattle.fx_board.specs.Board.{last_state};
ghost use Rattle.fx_watch.specs.Validity.{has_value};
ghost use Rattle.fx_watch.specs.WatchView.{AnswersFor};
ghost use Rattle.fx_watch.specs.Watching.{settled_entry, IsAtEntry};

use crate::based::Based;
use crate::lines::{add_event, add_valid};
use crate::watch::Watch;
use fx_base::{NoMemory, Steps};
use fx_board::{Board, Event};
use fx_sched::{Taker, World};
use fx_store::Paths;
use std::alloc::Global;
use std::marker::{Brand, PhantomData};
use std::sync::ledger::{Blank, Ledger};

/// A run up to some moment: the watch, which was told its last filestore, and the lines of its events.
#[derive(Drop)]
pub(crate) struct Watching<B: Based> {
    pub watch: Watch,
    pub output: Vec<u8>,
    pub of: PhantomData<B>,
}

impl<B: Based> Taker for Watching<B> {
    ghost use Rattle.std.specs.Prelude.{⊤};
    ghost use Rattle.fx_watch.specs.Watching.{HasWatched};

    type Stop = NoMemory;

    ghost took = { λ w events running. HasWatched B.base w.watch w.output.items events running };

    ghost refused = { λ w stop events event running. ⊤ };

    fn take(&mut self, alloc: Global, world: &World, event: Event) -> Result<(), NoMemory> {
        let settled = settled_entry(&event);
        add_event(&mut self.output, event)?;
        match settled {
            Some(entry) => {
                let valid = valid_after::<Brand>(
                    alloc,
                    &mut self.watch,
                    world.board(),
                    entry,
                    Blank::new(1),
                )?;
                add_valid(&mut self.output, valid)
            }
            None => Ok(()),
        }
    }
}

/// The entry that an event has settled.
fn settled_entry(event: &Event) -> Option<u64>
    ensures { result ≡ settled_entry event.now }
{
    match event {
        Event::Settled { entry, .. } => Some(*entry),
        Event::Look { .. } => None,
        Event::Conflict { .. } => None,
    }
}

/// Whether there is a value after the last entry, where the watch was told the filestore before it. The evaluations of a walk
/// are counted.
fn valid_after<L: Ledger>(
    alloc: Global,
    watch: &mut Watch,
    board: &Board,
    entry: u64,
    blank: Blank,
) -> Result<bool, NoMemory>
    requires name { blank.name ≡ L.name }
    requires parts { blank.parts ≡ L.parts }
    requires some { 0 < L.parts }
    ensures valid { IsAtEntry board.now watch.old entry → IfOk result
        (λ valid. valid ≡ has_value watch.old.root (get (last_state board.now))) }
    ensures told { IsAtEntry board.now watch.old entry → OnOk result
        (AnswersFor watch.new (get (last_state board.now))) }
    ensures root { watch.new.root ≡ watch.old.root }
{
    let steps = Steps::<L>::open(blank);
    match board.entry(entry) {
        Some(entry) => watch.after(alloc, &entry.changed, board.store(), steps).1,
        None => watch
            .after(alloc, &Paths::new(alloc), board.store(), steps)
            .1,
    }
}
