//! The machine's own folders, files and standard output, as a host and a sink, and one of its files as a disk. They
//! tell nothing of what they hold.
#![tactic(auto)]

mod ahead;
mod disk;
mod entries;
mod output;
mod reading;
mod real_disk;

pub use disk::Disk;
pub use entries::MOST_ENTRIES;
pub use output::Output;
pub use real_disk::RealDisk;
