//! Scripts, read from their texts.

mod act;
mod command;
mod form;
mod laws;
mod part;
mod start;
mod text;
mod txns;

pub use laws::one_place;
pub use text::parse;
