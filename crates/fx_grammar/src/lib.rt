//! What the texts of descriptions and scripts stand for, and where a text goes wrong: definitions for the parsers.
#![tactic(auto)]

mod laws;

pub use laws::levels_agree;
