//! Edits: `store`, `create` and `remove` at a place, over any reader. An edit resolves the place's path, looks at each path
//! that it may change, in ascending order, and then sets its changes on top of the own ones.
#![tactic(auto)]

mod clearing;
mod creating;
mod edits;
mod lookups;
mod making;
mod nodes;
mod relisting;
mod removing;
mod storing;

pub use creating::create;
pub use fx_session::Halt;
pub use removing::remove;
pub use storing::store;
