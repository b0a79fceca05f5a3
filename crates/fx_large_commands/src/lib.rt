#![tactic(auto)]

mod base;
mod counting;
mod entries;
mod gen_command;
mod large_command;
mod lines;
mod writing;

pub use gen_command::write_generated;
pub use large_command::run_generated;
