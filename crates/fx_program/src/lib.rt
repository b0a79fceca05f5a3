//! What the program does with its words, and how it says the end: all but its `main`.
#![tactic(auto)]

mod run;

pub use run::{Ended, program};
