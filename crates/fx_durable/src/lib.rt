//! A disk with one file, of which a crash may leave what was not yet synced in any form; and a journal of commits on it, from
//! which each crash leaves the order of those that were acknowledged.
#![tactic(auto)]

mod disk;
mod disk_call;
mod journal;
mod journal_fault;
mod memory_disk;
mod reading;

pub use disk::{Disk, DiskFailed, early_after};
pub use disk_call::DiskCall;
pub use journal::{Journal, StartFault};
pub use journal_fault::JournalFault;
pub use memory_disk::MemoryDisk;
pub use reading::{Pairs, read_journal};
