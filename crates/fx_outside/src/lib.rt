//! What a run of transactions meets outside: a host's tree of folders and files, a sink for output and a gate between
//! the steps of a thread. Each is a trait with a meaning that contracts see and, where something can fail, a count of
//! faults that never falls; beside it stands an object in memory.
#![tactic(auto)]

mod calls;
mod gate;
mod host;
mod kind;
mod listing;
mod memory_host;
mod memory_sink;
mod memory_tree;
mod parts;
mod sink;
mod text;

pub use calls::Calls;
pub use gate::{Gate, Moment, OpenGate};
pub use host::Host;
pub use kind::{HostFault, HostKind, Standing};
pub use listing::Listing;
pub use memory_host::MemoryHost;
pub use memory_sink::MemorySink;
pub use sink::{Sink, SinkFailed};
pub use text::{HostText, Words};
