//! Views: transactions that look at one committed state each while the scripts go on, and keep nothing.
#![tactic(auto)]

mod running;
mod viewing;
mod working;

pub use fx_report::{View, Viewed};
pub use running::run_views;
