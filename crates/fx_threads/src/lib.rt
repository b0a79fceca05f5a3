//! Threads on stacks of a stated size, whatever the shell's limit is.
#![tactic(auto)]

mod jobs;
mod pair;
mod task;

pub use jobs::map_vec;
pub use pair::{STACK_BYTES, join};
