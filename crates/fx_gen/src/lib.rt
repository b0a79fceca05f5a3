//! A big case from a number: a description, a filestore that it describes, and eight scripts; and laws on its texts,
//! each of which stands for a well-shaped tree within the limits.
#![tactic(auto)]

mod case;
mod draws;
mod files;
pub mod laws;
mod lines;

pub use case::{Generated, generate};
pub use files::{PROJECTS, project_entry};
