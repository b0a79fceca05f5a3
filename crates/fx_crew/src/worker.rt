//! A shell at work on its script.
use fx_machine::Retry;
use fx_shared::Logged;
use fx_turn::Seat;

/// A shell's desk, the number of its next transaction, and the attempts that had to start again, in order.
#[derive(Drop)]
pub struct Worker<D: Drop> {
    pub desk: D,
    pub next: u32,
    pub retries: Vec<Retry>,
}

/// The pass of a shell whose script is done, and the attempts that had to start again, in order.
#[derive(Drop)]
pub struct Worked<T: Logged> {
    pub pass: Seat<T>,
    pub retries: Vec<Retry>,
}
