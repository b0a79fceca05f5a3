//! Where a run's output goes.
pub use fx_outside::{MemorySink, Sink, SinkFailed};
