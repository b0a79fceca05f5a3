//! What a run on threads passes between its steps.
pub use fx_outside::{Gate, Moment, OpenGate};
