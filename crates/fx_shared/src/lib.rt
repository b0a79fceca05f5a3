//! A log that threads share, whatever keeps it. A thread has a pass, with which it looks and settles by turns; the pass
//! knows the base of the log, which entries it has seen, and how many of them are its own. A log with versions keeps
//! what each of its entries has left at each path, so that each state since the first can be looked at.
//!
//! A desk is a pass with its gate. One reader looks at the last state through a desk, another at one state since the first.
//! A crew is what all workers of a run share, with a pass for each of them.
#![tactic(auto)]

mod crew;
mod desk;
mod keeping;
mod live;
mod logged;
mod passes;
mod past;
mod shares;
mod snaps;
mod versioned;
mod versions;

pub use crew::Crew;
pub use desk::{Desk, LogDesk};
pub use fx_board::{Board, Settle};
pub use live::DeskReader;
pub use logged::{Logged, Versions};
pub use passes::passes_of;
pub use past::{Past, SnapPass};
pub use shares::{Pass, Shared, Shares};
pub use snaps::Snaps;
pub use versioned::Versioned;
