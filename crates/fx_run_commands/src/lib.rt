//! The commands that run scripts on a folder and leave at OUT what they make: `run`, `trace` and `watch`, and
//! `journal`, which keeps each commit in a journal.
#![tactic(auto)]

mod journaling;
mod running;

pub use journaling::journal;
pub use running::{run, trace};
