//! A call on a disk in memory.

/// A call on a disk in memory, as its record keeps it.
#[derive(Clone, Copy, Debug, PartialEq, Eq)]
pub enum DiskCall {
    Choose,
    Read,
    /// A write from a place on, of so many bytes, that was done.
    Wrote(u64, u64),
    /// One that failed.
    Tore(u64, u64),
    Synced,
    /// A sync that failed.
    Unsynced,
}
