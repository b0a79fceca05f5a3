//! What a run reads and writes: a host's tree of folders and files.
pub use fx_outside::{Host, HostFault, HostKind, HostText, Listing, MemoryHost, Standing, Words};
