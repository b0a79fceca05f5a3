//! The commands that run no script: `show`, `audit` and `recover`.
#![tactic(auto)]

mod auditing;
mod recovering;
mod showing;

pub use auditing::audit;
pub use recovering::recover;
pub use showing::{show, shown};
