//! Runs by a schedule, whose events are handed out as they come.
ghost use Rattle.std.specs.Prelude.{◌≡◌, ◌<◌, ◌++◌, ◌∷◌, true, List, All, [], IfOk, IfErr, OnOk, length};
ghost use Rattle.fx_machine.specs.Machine.{shell_of};
ghost use Rattle.fx_machine.specs.declared.event.Event.{Event as EventValue};
ghost use Rattle.fx_spec.specs.Bases.{base_tree};
ghost use Rattle.fx_spec.specs.Order.{first_numbers};
ghost use Rattle.fx_sched.specs.Running.{Running};
ghost use Rattle.fx_sched.specs.Recorded.{RunsBy};
ghost use Rattle.fx_sched.specs.World.{began, Leads};
ghost use Rattle.fx_sched.specs.Taking.{a_start, AfterPlay, HasEndedSomewhere, IsPlayed, TookTurns, TookRounds, TookAll};

use crate::world::World;
use fx_base::NoMemory;
use fx_board::{Board, Event, Retries};
use fx_spec::Base;
use std::alloc::Global;
use std::sync::Arc;

/// What takes the events of a run, each as it comes.
///
/// `took events running` says that it has taken these events, which have led to this state of a run; `refused stop events event
/// running` that it has taken these, and has refused this one more, which has led to this state.
pub trait Taker {
    type Stop: Drop;

    ghost took: { Self → List EventValue → Running → Type 0 };

    ghost refused: { Self → Self.Stop → List EventValue → EventValue → Running → Type 0 };

    /// Takes the event that has led to the world as it is now.
    fn take(&mut self, alloc: Global, world: &World, event: Event) -> Result<(), Self::Stop>
        ensures ok { (events : List EventValue) (before : Running) → took self.old events before
            → Leads before (shell_of event) world.now event
            → OnOk result (took self.new (events ++ event ∷ []) world.now) }
        ensures err { (events : List EventValue) (before : Running) → took self.old events before
            → Leads before (shell_of event) world.now event
            → IfErr result (λ stop. refused self.new stop events event world.now) };
}

/// Why a run ends before its end.
#[derive(Drop)]
pub enum Ended<E: Drop> {
    NoMemory,
    /// An event was refused.
    Stopped(E),
}

impl<E: Drop> From<NoMemory> for Ended<E> {
    ghost use Rattle.fx_sched.specs.declared.taking.Ended.TheVariants.{NoMemory as OutOfMemory};

    ghost from_gives = { λ _ ended. ended ≡ OutOfMemory };

    fn from(_: NoMemory) -> Ended<E> {
        Ended::NoMemory
    }
}

/// One shell has its turn.
fn take_turn<T: Taker>(
    alloc: Global,
    world: &mut World,
    taker: &mut T,
    shell: u32,
) -> Result<(), Ended<T::Stop>>
    requires { shell < length world.old.base.plan }
    ensures runs { IfOk result (λ _. RunsBy world.old (shell ∷ []) world.new) }
    ensures took { AfterPlay T.took world.old taker.old (λ p.
        TookTurns T.took T.refused p (shell ∷ []) world.new taker.new result) }
{
    match world.step(alloc, shell) {
        Err(NoMemory) => Err(Ended::NoMemory),
        Ok(None) => Ok(()),
        Ok(Some(event)) => match taker.take(alloc, world, event) {
            Ok(()) => Ok(()),
            Err(stop) => Err(Ended::Stopped(stop)),
        },
    }
}

/// The shells of a schedule have their turns, in order.
fn take_turns<T: Taker>(
    alloc: Global,
    world: &mut World,
    taker: &mut T,
    schedule: &[u32],
) -> Result<(), Ended<T::Stop>>
    requires { All (λ k. k < length world.old.base.plan) schedule.now }
    ensures runs { IfOk result (λ _. RunsBy world.old schedule.now world.new) }
    ensures took { AfterPlay T.took world.old taker.old (λ p.
        TookTurns T.took T.refused p schedule.now world.new taker.new result) }
{
    for shell in schedule {
        take_turn(alloc, world, taker, *shell)?;
    }
    Ok(())
}

/// Each shell has one turn.
fn take_round<T: Taker>(
    alloc: Global,
    world: &mut World,
    taker: &mut T,
) -> Result<(), Ended<T::Stop>>
    ensures runs { IfOk result (λ _.
        RunsBy world.old (first_numbers (length world.old.base.plan)) world.new) }
    ensures took { AfterPlay T.took world.old taker.old (λ p. TookTurns T.took T.refused p
        (first_numbers (length world.old.base.plan)) world.new taker.new result) }
{
    for shell in 0..world.count() {
        take_turn(alloc, world, taker, shell)?;
    }
    Ok(())
}

/// All shells have turns in rounds, until none has a transaction left.
fn take_rounds<T: Taker>(
    alloc: Global,
    world: &mut World,
    taker: &mut T,
) -> Result<(), Ended<T::Stop>>
    ensures { AfterPlay T.took world.old taker.old (λ p.
        TookRounds T.took T.refused p world.new taker.new result) }
{
    while world.has_left() {
        take_round(alloc, world, taker)?;
    }
    Ok(())
}

/// The shells of a schedule have their turns, and then all in rounds.
fn take_all<T: Taker>(
    alloc: Global,
    world: &mut World,
    taker: &mut T,
    schedule: &[u32],
) -> Result<(), Ended<T::Stop>>
    requires { All (λ k. k < length world.old.base.plan) schedule.now }
    ensures { AfterPlay T.took world.old taker.old (λ p.
        TookAll T.took T.refused p schedule.now world.new taker.new result) }
{
    take_turns(alloc, world, taker, schedule)?;
    take_rounds(alloc, world, taker)
}

/// Steps the shells of the schedule in order, and then all shells in rounds from 0 on, until none has a transaction left, and
/// hands each event to the taker as it comes. Each number of the schedule needs to be below the number of scripts. It answers
/// the log, and the attempts that had to start again, by shell. An event that is refused ends the run.
pub fn play<T: Taker>(
    alloc: Global,
    base: Arc<Base>,
    schedule: &[u32],
    taker: &mut T,
) -> Result<(Board, Retries), Ended<T::Stop>>
    requires shells { All (λ k. k < length base.value.plan) schedule.now }
    requires taker { T.took taker.old [] (began (base_tree base.value)) }
    ensures ok { IfOk result (λ r.
        IsPlayed T.took (base_tree base.value) schedule.now taker.new r.0 r.1) }
    ensures ended { IfErr result (HasEndedSomewhere T.took T.refused
        (a_start (base_tree base.value)) schedule.now taker.new) }
{
    let mut world = World::new(alloc, base)?;
    match take_all(alloc, &mut world, taker, schedule) {
        Ok(()) => Ok(world.finish()),
        Err(ended) => {
            world.let_go();
            Err(ended)
        }
    }
}
