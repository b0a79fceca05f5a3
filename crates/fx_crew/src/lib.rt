//! The crew of a run: how a worker goes through its script, at any desk of a shared log; how its pass and its retries come in.
#![tactic(auto)]

mod attempting;
mod passes;
mod worker;

pub use attempting::work;
pub use passes::take_in;
pub use worker::{Worked, Worker};
