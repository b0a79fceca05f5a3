//! Seats of one turn in threads.
ghost use Rattle.std.specs.Prelude.{◌≡◌, ◌+◌, ◌<◌, ◌≤◌, ℕ, length, None, IfOk, slice_index_or, vec_len};
ghost use Rattle.std.specs.List.{All};
ghost use Rattle.fx_base.specs.Limits.{shell_limit};
ghost use Rattle.fx_turn.specs.Views.{joins, maker_of};
ghost use Rattle.fx_turn.specs.Seats.{view, IsSeatOf, IsReady};

use fx_turn::{Kept, Seat, Turn};
use std::alloc::{AllocError, Global};
use std::sync::Wait;
use std::sync::atomic::{AtomicU64, Ordering};
use std::test::*;
use std::thread;
use std::thread::Threads;

/// A list of the numbers of the seats that made its entries.
#[derive(Drop)]
struct Ledger {
    name: u32,
    entries: Vec<u32>,
}

impl Kept for Ledger {
    type Origin = u32;

    type Item = u32;

    ghost base = { λ l. l.name };

    ghost history = { λ l. l.entries.items };

    ghost shell = { λ n. n };

    fn length(&self) -> u64 {
        self.entries.len() as u64
    }
}

// One turn, with an entry where there is room for it.
fn append<R: Wait>(rt: &R, turn: &Turn<Ledger>, seat: &mut Seat<Ledger>)
    requires { IsReady turn.now seat.old }
    ensures { IsReady turn.now seat.new }
{
    let mut ledger = turn.take(rt, seat);
    if let Some(number) = seat.number() {
        let _ = ledger.entries.push(number);
    }
    turn.give(seat, ledger);
}

/// How often a thread looks for a sign of the other.
const LOOKS: u64 = 20_000_000;

/// How often a thread yields while it keeps the other from its turn.
const YIELDS: u64 = 200_000;

/// What each seat does: so many turns, or one, for which the first seat keeps the second waiting. Two threads tell each
/// other that the first is in its turn, and that the second is about to wait for one.
#[derive(Drop)]
struct Task {
    turns: u32,
    late: bool,
    taken: AtomicU64,
    waits: AtomicU64,
}

impl Task {
    fn new(turns: u32, late: bool) -> Task {
        Task {
            turns,
            late,
            taken: AtomicU64::new(0),
            waits: AtomicU64::new(0),
        }
    }
}

// Yields until a sign is there, and not for ever.
fn wait_for(sign: &AtomicU64) {
    for _ in 0..LOOKS {
        if sign.load(Ordering::SeqCst) > 0 {
            return;
        }
        thread::yield_now();
    }
}

fn pass_time() {
    for _ in 0..YIELDS {
        thread::yield_now();
    }
}

// A turn that lasts until the other thread has waited for one for a while.
fn append_late<R: Wait>(rt: &R, turn: &Turn<Ledger>, seat: &mut Seat<Ledger>, task: &Task)
    requires { IsReady turn.now seat.old }
    ensures { IsReady turn.now seat.new }
{
    let mut ledger = turn.take(rt, seat);
    task.taken.store(1, Ordering::SeqCst);
    wait_for(&task.waits);
    pass_time();
    if let Some(number) = seat.number() {
        let _ = ledger.entries.push(number);
    }
    turn.give(seat, ledger);
}

// Seat 0 is in its turn while seat 1 waits for one.
fn append_held_up<R: Wait>(
    rt: &R,
    turn: &Turn<Ledger>,
    mut seat: Seat<Ledger>,
    task: &Task,
) -> Seat<Ledger>
    requires { IsReady turn.now seat }
    ensures { IsReady turn.now result }
{
    if seat.number() == Some(0) {
        append_late(rt, turn, &mut seat, task);
    } else {
        wait_for(&task.taken);
        task.waits.store(1, Ordering::SeqCst);
        append(rt, turn, &mut seat);
    }
    seat
}

fn append_all<R: Wait>(
    rt: &R,
    turn: &Turn<Ledger>,
    mut seat: Seat<Ledger>,
    turns: u32,
) -> Seat<Ledger>
    requires { IsReady turn.now seat }
    ensures { IsReady turn.now result }
{
    for _ in 0..turns {
        append(rt, turn, &mut seat);
    }
    seat
}

fn obey<R: Wait>(rt: &R, turn: &Turn<Ledger>, seat: Seat<Ledger>, task: &Task) -> Seat<Ledger>
    requires { IsReady turn.now seat }
    ensures { IsReady turn.now result }
{
    if task.late {
        return append_held_up(rt, turn, seat, task);
    }
    append_all(rt, turn, seat, task.turns)
}

fn split_all(
    alloc: Global,
    turn: &Turn<Ledger>,
    maker: &mut Seat<Ledger>,
    count: u64,
) -> Result<Vec<Seat<Ledger>>, AllocError>
    requires turn { IsSeatOf turn.now maker.old }
    requires maker { (view maker.old).number ≡ None }
    requires room { (view maker.old).splits + count ≤ shell_limit }
    ensures turn { IsSeatOf turn.now maker.new × ((view maker.new).number ≡ None) }
    ensures joins { joins (view maker.new) ≡ joins (view maker.old) }
    ensures seats { IfOk result (λ v. All (IsReady turn.now) v.items × (vec_len v ≡ count)
        × ((view maker.new).splits ≡ (view maker.old).splits + count)) }
{
    let mut seats = Vec::new(alloc);
    for _ in 0..count {
        seats.push(turn.split(maker))?;
    }
    Ok(seats)
}

fn join_all(turn: &Turn<Ledger>, maker: &mut Seat<Ledger>, mut seats: Vec<Seat<Ledger>>)
    requires turn { IsSeatOf turn.now maker.old × ((view maker.old).number ≡ None) }
    requires seats { All (IsReady turn.now) seats.items }
    ensures turn { IsSeatOf turn.now maker.new × ((view maker.new).number ≡ None) }
    ensures splits { (view maker.new).splits ≡ (view maker.old).splits }
    ensures joins { joins (view maker.new) ≡ joins (view maker.old) + vec_len seats }
{
    while let Some(seat) = seats.pop() {
        turn.join(maker, seat);
    }
}

// Each seat in a thread of its own; where none can be started, the caller's thread does its work.
fn obey_in_threads<R: Threads + Wait + Sync>(
    rt: &R,
    turn: &Turn<Ledger>,
    seats: Vec<Seat<Ledger>>,
    task: &Task,
) -> Result<Vec<Seat<Ledger>>, AllocError>
    requires { All (IsReady turn.now) seats.items }
    ensures all { IfOk result (λ v. length v.items ≡ length seats.items) }
    ensures ready { IfOk result (λ v. (k : ℕ) (d : _) → k < length seats.items
        → IsReady turn.now (slice_index_or v.items k d)) }
{
    thread::map_vec(
        rt,
        seats,
        &|seat: Seat<Ledger>| -> Seat<Ledger>
            requires { IsReady turn.now seat }
            ensures { IsReady turn.entry.now result }
        { obey(rt, turn, seat, task) },
    )
}

// A turn over a list of no entries, and its maker.
fn new_turn(alloc: Global, name: u32) -> Result<(Turn<Ledger>, Seat<Ledger>), AllocError>
    ensures { IfOk result (λ t. IsSeatOf t.0 t.1 × (view t.1 ≡ maker_of name)) }
{
    let entries = Vec::new(alloc);
    match Turn::new(alloc, Ledger { name, entries }) {
        Ok(made) => Ok(made),
        Err(_) => Err(AllocError),
    }
}

// Has so many threads do a task, and answers the list with all entries.
fn crowd<R: Threads + Wait + Sync>(
    rt: &R,
    alloc: Global,
    count: u64,
    task: &Task,
) -> Result<Ledger, AllocError>
    requires { count ≤ shell_limit }
{
    let (turn, mut maker) = new_turn(alloc, 7)?;
    let seats = split_all(alloc, &turn, &mut maker, count)?;
    let seats = obey_in_threads(rt, &turn, seats, task)?;
    join_all(&turn, &mut maker, seats);
    Ok(turn.close(maker))
}

fn entries_of(ledger: &Ledger, number: u32) -> usize {
    ledger.entries.iter().filter(|n| **n == number).count()
}

// Whether each of the first seats has made so many entries.
fn are_even(ledger: &Ledger, seats: u32, each: usize) -> bool {
    for number in 0..seats {
        if entries_of(ledger, number) != each {
            return false;
        }
    }
    true
}

// The name of the list, how many entries it has, and whether each seat has made so many of them.
fn told<R: Threads + Wait + Sync>(
    rt: &R,
    alloc: Global,
    seats: u32,
    each: usize,
    task: &Task,
) -> Result<(u32, usize, bool), AllocError>
    requires { seats ≤ shell_limit }
{
    let ledger = crowd(rt, alloc, u64::from(seats), task)?;
    Ok((
        ledger.name,
        ledger.entries.len(),
        are_even(&ledger, seats, each),
    ))
}

#[test]
fn two_threads_take_turns(rt: HostRuntime) -> Result<(), Fail> {
    let task = Task::new(300, false);
    assert_eq!(rt; told(&rt, rt.alloc(), 2, 300, &task)?, (7, 600, true));
    Ok(())
}

#[test]
fn sixty_four_threads_take_a_thousand_turns_each(rt: HostRuntime) -> Result<(), Fail> {
    let task = Task::new(1000, false);
    assert_eq!(rt; told(&rt, rt.alloc(), 64, 1000, &task)?, (7, 64_000, true));
    Ok(())
}

#[test]
fn a_thread_that_was_held_up_tries_again(rt: HostRuntime) -> Result<(), Fail> {
    let task = Task::new(1, true);
    assert_eq!(rt; told(&rt, rt.alloc(), 2, 1, &task)?, (7, 2, true));
    Ok(())
}

// The number of a maker, of its first two seats, and of the maker then.
fn numbers(alloc: Global) -> Result<[Option<u32>; 4], AllocError> {
    let (turn, mut maker) = new_turn(alloc, 1)?;
    let before = maker.number();
    let first = turn.split(&mut maker).number();
    let second = turn.split(&mut maker).number();
    Ok([before, first, second, maker.number()])
}

#[test]
fn seats_are_numbered_in_order(rt: HostRuntime) -> Result<(), Fail> {
    assert_eq!(rt; numbers(rt.alloc())?, [None, Some(0), Some(1), None]);
    Ok(())
}
