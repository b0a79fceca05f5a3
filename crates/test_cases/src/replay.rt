//! Transactions of a base, run whole, one after another.
use fx_base::NoMemory;
use fx_board::Event;
use fx_sched::World;
use fx_spec::Base;
use std::alloc::Global;
use std::sync::Arc;

/// The most steps of a shell up to its next settle.
const STEP_LIMIT: u32 = 100_000;

fn is_settled(event: &Event) -> bool {
    match event {
        Event::Settled { .. } => true,
        Event::Look { .. } => false,
        Event::Conflict { .. } => false,
    }
}

/// A step of a shell, and whether its transaction goes on.
fn steps_on(alloc: Global, world: &mut World, shell: u32) -> Result<bool, NoMemory> {
    if shell >= world.board().base().plan.len() {
        return Ok(false);
    }
    match world.step(alloc, shell)? {
        Some(event) => Ok(!is_settled(&event)),
        None => Ok(false),
    }
}

/// A shell's next transaction, run whole.
fn settle_next(alloc: Global, world: &mut World, shell: u32) -> Result<(), NoMemory> {
    for _ in 0..STEP_LIMIT {
        if !steps_on(alloc, world, shell)? {
            break;
        }
    }
    Ok(())
}

/// The next transactions of these shells, run whole, in this order.
fn settle_all(alloc: Global, world: &mut World, shells: &[u32]) -> Result<(), NoMemory> {
    for shell in shells {
        settle_next(alloc, world, *shell)?;
    }
    Ok(())
}

/// What the next transactions of these shells leave, in this order.
pub fn replayed(alloc: Global, base: &Arc<Base>, shells: &[u32]) -> Result<World, NoMemory> {
    let mut world = World::new(alloc, Arc::try_clone(base)?)?;
    match settle_all(alloc, &mut world, shells) {
        Ok(()) => Ok(world),
        Err(fault) => {
            world.let_go();
            Err(fault)
        }
    }
}
