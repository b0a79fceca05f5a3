//! Workers: a script each, in threads of their own over one shared log.
#![tactic(auto)]

mod running;
mod working;

pub use running::run_all;
