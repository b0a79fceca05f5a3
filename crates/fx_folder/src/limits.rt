//! The limits of what is loaded of a folder. Contracts cite them by these names.

/// The most nodes of a loaded filestore, its root among them.
pub const MAX_NODES: u64 = 100_000;

/// The most bytes of all loaded files together.
pub const MAX_BYTES: u64 = 67_108_864;

/// The most bytes of a table.
pub const MAX_TABLE: u64 = 33_554_432;
