//! Attempts, entries and events of a log, and the machine of looks and settles whose runs a log's history is; its laws,
//! and those of progress.
#![tactic(auto)]

mod attempt;
mod entry;
mod event;
pub mod laws;
pub mod progress;
mod retry;

pub use attempt::Attempt;
pub use entry::{Entry, Pair};
pub use event::{Event, Events};
pub use retry::{Retries, Retry, let_go};
