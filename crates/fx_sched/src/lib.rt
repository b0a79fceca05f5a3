//! Several shells on one thread: single steps of a shell, and whole runs by a schedule.
#![tactic(auto)]

mod moves;
mod room;
mod schedule;
mod shell;
mod taking;
mod world;

pub use schedule::Traced;
pub use taking::{Ended, Taker, play};
pub use world::World;
