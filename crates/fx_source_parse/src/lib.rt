//! The parsers of whole texts: of descriptions with their definitions, and of scripts.
#![tactic(auto)]

pub mod script;
pub mod spec;
