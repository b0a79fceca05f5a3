//! The verdict on a printed report: whether it is one of a run of a base. The transactions of its order are run whole,
//! one after another, as the entries of a log.
#![tactic(auto)]

mod answers;
mod auditing;
mod order;
mod places;
mod replaying;
mod retries;
mod same;
mod same_values;
mod verdict;

pub use auditing::audit;
pub use replaying::{Pairs, enter, replay};
pub use verdict::Verdict;
