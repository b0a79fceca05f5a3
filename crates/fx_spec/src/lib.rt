//! Descriptions, scripts and plans as syntax trees, and the definitions of what they mean on a filestore.
#![tactic(auto)]

mod base;
mod checked;
mod command;
mod description;
mod exprs;
pub mod laws;
mod part;
mod place;
mod plan;
mod refusal;
pub mod shapes;
mod spec;
mod txn;

pub use base::Base;
pub use checked::{Checked, Script};
pub use command::{Act, Command, Commands};
pub use description::{Def, Defs, Description, Params};
pub use exprs::Exprs;
pub use part::{Form, Part};
pub use place::Place;
pub use plan::Plan;
pub use refusal::{End, Refusal};
pub use spec::Spec;
pub use txn::{Txn, Txns};
