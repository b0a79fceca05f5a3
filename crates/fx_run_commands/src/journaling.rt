//! The command `journal`, which runs its scripts by a schedule and keeps each commit in a journal on a disk before its line is
//! written.

mod command;

pub use command::journal;
