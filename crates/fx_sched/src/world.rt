ghost use Rattle.std.specs.Prelude.{◌≡◌, ℕ, ◌<◌, ◌≤◌, ◌+◌, true, false, IfOk, IfSome, OnErr, ◌++◌, length, map, replicate, vec_capacity};
ghost use Rattle.fx_sched.specs.declared.shell.Shell.{Shell};
ghost use Rattle.fx_sched.specs.Recorded.{joined};
ghost use Rattle.fx_spec.specs.Bases.{base_tree};
ghost use Rattle.fx_machine.specs.Laws.{IsReached};
ghost use Rattle.fx_machine.specs.Machine.{next_number};
ghost use Rattle.fx_machine.specs.Measure.{measure, IsLower, has_left};
ghost use Rattle.fx_sched.specs.Left.{SomeLeft};
ghost use Rattle.fx_sched.specs.World.{began, conflicts_in, Stepped, IsWorld, HasRoomFor, new_shell, machine_of, running_of};

use crate::moves::advance;
use crate::room::Room;
use crate::shell::Shell;
use fx_base::NoMemory;
use fx_board::{Board, Event, Retries, Retry};
use fx_spec::Base;
use fx_view::Reads;
use std::alloc::Global;
use std::marker::Model;
use std::sync::Arc;

/// A log, what each shell of its plan has looked at since it began its next transaction, and room for the retries of all.
/// Contracts see the base, the machine's state and the retries.
#[derive(Drop)]
pub struct World {
    board: Board,
    shells: Vec<Shell>,
    room: Room,
    ghost reserved: { HasRoomFor room.count shells.items },
}

impl Model for World {
    ghost use Rattle.fx_sched.specs.Running.{Running, running_code};

    ghost Value = { Running };

    ghost coded = { running_code };

    ghost use Rattle.fx_sched.specs.World.{running_of, IsWorld};

    ghost view = { λ w. running_of w.board w.shells.items };

    ghost invariant = { λ w. IsWorld w.board w.shells.items };
}

impl World {
    /// No entries, and no looks.
    pub fn new(alloc: Global, base: Arc<Base>) -> Result<World, NoMemory>
        ensures { IfOk result (λ w. w ≡ began (base_tree base.value)) }
    {
        let shells = match new_shells(alloc, base.plan.len()) {
            Ok(shells) => shells,
            Err(fault) => {
                Base::let_go(base);
                return Err(fault);
            }
        };
        let board = Board::new(alloc, base)?;
        Ok(World {
            board,
            shells,
            room: Room::new(alloc),
        })
    }

    /// Lets go of the log and the shells.
    pub fn let_go(self) {
        let World { board, .. } = self;
        board.let_go();
    }

    /// The log.
    pub fn board(&self) -> &Board
        ensures { (result.now.base ≡ self.now.base) × (result.now.order ≡ self.now.machine.order) }
    {
        &self.board
    }

    /// The log, and the retries of all shells, by shell. It takes no memory.
    pub fn finish(self) -> (Board, Retries)
        ensures board { (result.0.base ≡ self.base) × (result.0.order ≡ self.machine.order) }
        ensures retries { result.1 ≡ joined self.retries }
    {
        let World {
            board,
            shells,
            room,
        } = self;
        (board, join(room, shells))
    }

    /// The number of shells.
    pub(crate) fn count(&self) -> u32
        ensures len { result ≡ length self.now.base.plan }
        ensures reached { IsReached self.now.base self.now.machine }
    {
        self.board.base().plan.len()
    }

    /// The number of the next transaction of a shell of the plan.
    pub(crate) fn next(&self, shell: u32) -> u32
        requires { shell < length self.now.base.plan }
        ensures { result ≡ next_number self.now.machine.order shell }
    {
        self.shells[shell as usize].next
    }

    /// Whether a shell of the plan has a transaction left.
    pub(crate) fn is_left(&self, shell: u32) -> bool
        requires { shell < length self.now.base.plan }
        ensures { result ≡ has_left self.now.base self.now.machine shell }
    {
        self.next(shell) < self.board.base().plan.count(shell)
    }

    /// Whether some shell has a transaction left.
    pub(crate) fn has_left(&self) -> bool
        ensures some { result ≡ true → SomeLeft self.now }
        ensures none { result ≡ false → (k : ℕ)
            → has_left self.now.base self.now.machine k ≡ false }
        ensures reached { IsReached self.now.base self.now.machine }
    {
        for shell in 0..self.count() {
            if self.is_left(shell) {
                return true;
            }
        }
        false
    }

    /// One look or one settle of a shell of the plan; None exactly where it has no transaction left. A refusal changes
    /// nothing.
    pub fn step(&mut self, alloc: Global, shell: u32) -> Result<Option<Event>, NoMemory>
        requires { shell < length self.old.base.plan }
        ensures event { IfOk result (Stepped self.old shell self.new) }
        ensures lower { IfOk result (λ event. IfSome event
            (λ _. IsLower (measure self.new.base self.new.machine)
            (measure self.old.base self.old.machine))) }
        ensures err { OnErr result (self.new ≡ self.old) }
    {
        step_with(
            alloc,
            &mut self.board,
            &mut self.shells,
            &mut self.room,
            shell,
        )
    }
}

/// The retries of all shells, by shell, in the room that was taken for them.
fn join(room: Room, shells: Vec<Shell>) -> Retries
    requires { HasRoomFor room.count shells.items }
    ensures { result ≡ joined (map (λ (s : Shell). s.retries) shells.items) }
{
    let mut all = room.into_vec();
    for shell in shells {
        append(&mut all, shell.retries);
    }
    Retries::from_vec(all)
}

/// Adds retries for which there is room.
fn append(all: &mut Vec<Retry>, items: Retries)
    requires { length all.old.items + length items ≤ vec_capacity all.old }
    ensures items { all.new.items ≡ all.old.items ++ items }
    ensures room { vec_capacity all.old ≤ vec_capacity all.new }
{
    let mut items = items.into_vec();
    if all.append(&mut items).is_err() {
        unreachable!();
    }
}

fn new_shells(alloc: Global, count: u32) -> Result<Vec<Shell>, NoMemory>
    ensures { IfOk result (λ shells. shells.items ≡ replicate count new_shell) }
{
    let mut shells = Vec::new(alloc);
    for _shell in 0..count {
        shells.push(Shell {
            next: 0,
            looked: 0,
            reads: Reads::new(alloc),
            plan: None,
            retries: Retries::new(alloc),
        })?;
    }
    Ok(shells)
}

/// A step of one shell, over the parts of a world.
fn step_shell(
    alloc: Global,
    board: &mut Board,
    shells: &mut [Shell],
    shell: u32,
) -> Result<Option<Event>, NoMemory>
    requires world { IsWorld board.old shells.old }
    requires shell { shell < length board.old.base.plan }
    ensures world { IsWorld board.new shells.new }
    ensures event { IfOk result
        (Stepped (running_of board.old shells.old) shell (running_of board.new shells.new)) }
    ensures lower { IfOk result (λ event. IfSome event
        (λ _. IsLower (measure board.new.base (machine_of board.new.order shells.new))
        (measure board.old.base (machine_of board.old.order shells.old)))) }
    ensures err { OnErr result (running_of board.new shells.new ≡ running_of board.old shells.old) }
{
    let count = board.base().plan.count(shell);
    let slot = &mut shells[shell as usize];
    if count <= slot.next {
        return Ok(None);
    }
    let event = advance(alloc, board, shell, slot)?;
    Ok(Some(event))
}

/// Counts the retry of an event that is one, for which there is room.
fn note(room: &mut Room, event: &Option<Event>)
    requires { room.old.count + 1 ≤ vec_capacity room.old.items }
    ensures { room.new.count ≡ room.old.count + conflicts_in event.now }
{
    match event {
        Some(Event::Conflict { .. }) => room.note(),
        _ => {}
    }
}

/// A step of one shell, over the parts of a world, with room for the retry that it may note.
fn step_with(
    alloc: Global,
    board: &mut Board,
    shells: &mut [Shell],
    room: &mut Room,
    shell: u32,
) -> Result<Option<Event>, NoMemory>
    requires world { IsWorld board.old shells.old }
    requires room { HasRoomFor room.old.count shells.old }
    requires shell { shell < length board.old.base.plan }
    ensures world { IsWorld board.new shells.new }
    ensures room { HasRoomFor room.new.count shells.new }
    ensures event { IfOk result
        (Stepped (running_of board.old shells.old) shell (running_of board.new shells.new)) }
    ensures lower { IfOk result (λ event. IfSome event
        (λ _. IsLower (measure board.new.base (machine_of board.new.order shells.new))
        (measure board.old.base (machine_of board.old.order shells.old)))) }
    ensures err { OnErr result (running_of board.new shells.new ≡ running_of board.old shells.old) }
{
    room.grow()?;
    let event = step_shell(alloc, board, shells, shell)?;
    note(room, &event);
    Ok(event)
}
