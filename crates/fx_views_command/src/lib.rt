//! The command `views`: a whole run of scripts on threads, and transactions beside it that look at one committed state each.
#![tactic(auto)]

mod command;
mod viewing;

pub use command::views;
