//! The log: a base, the transactions that were settled, in commit order, and the filestore after all of them, with a reader
//! of it.
#![tactic(auto)]

mod board;
mod growing;
mod index;
mod kept;
mod present;

pub use board::{Board, Settle, Settled, answer_of, let_go};
pub use fx_machine::{Attempt, Entry, Event, Events, Pair, Retries, Retry};
pub use kept::Ground;
pub use present::Present;
