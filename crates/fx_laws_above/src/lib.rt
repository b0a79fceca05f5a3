//! Laws that stand on the commands: of what a run begins with and what its report tells, of views, of what `recover` gives of
//! a journal, of what `large` prints, of what stands above a saved folder, of the limits, and of what is said twice. Each law
//! stands on a function that does nothing, so that it is proved with the crate.
#![tactic(auto)]

pub mod folders;
pub mod numbers;
pub mod recoveries;
pub mod reports;
pub mod summaries;
pub mod twice;
pub mod views;
