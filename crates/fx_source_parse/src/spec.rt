//! Descriptions with their definitions, read from their texts.

mod args;
mod cursor;
mod defs;
mod form;
mod laws;
mod params;
mod start;
mod text;

pub use laws::one_place;
pub use text::parse;
