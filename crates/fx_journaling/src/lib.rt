//! A run by a schedule whose commits a journal keeps on a disk, and whose events are written as they come: the line of an
//! attempt that was settled once the journal has it.
#![tactic(auto)]

mod fault;
mod keeping;
pub mod laws;
mod recorder;
mod recording;
mod telling;

pub use fault::RecordFault;
pub use recording::{Recorded, record};
