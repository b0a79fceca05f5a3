//! What an attempt has read and what it has changed, the readers that it reads through, and resolution over them.
#![tactic(auto)]

mod component;
mod known;
mod looking;
mod overlay;
mod reader;
mod reads;
mod resolving;
mod same;
mod table;
mod walk;
mod whole;

pub use fx_store::{Landing, NameList};
pub use known::Known;
pub use looking::look;
pub use overlay::Overlay;
pub use reader::{Reader, Stop};
pub use reads::Reads;
pub use resolving::resolve;
pub use whole::Whole;
