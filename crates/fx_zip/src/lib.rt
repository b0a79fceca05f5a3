//! A zipper over a description: an address, the place that it has in a filestore, and moves from it, read through a reader
//! with own changes on top.
#![tactic(auto)]

mod asking;
mod fetching;
pub mod laws;
mod leading;
mod moves;
mod question;
mod settling;
mod sideways;
mod zip;

pub use question::Question;
pub use zip::Zip;
