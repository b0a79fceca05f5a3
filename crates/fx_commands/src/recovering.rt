//! The command `recover`: the folder after the commits that a journal keeps.

mod command;
mod journal;
mod order;
mod replaying;

pub use command::recover;
