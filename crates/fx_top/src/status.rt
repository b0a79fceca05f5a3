//! What a command of the program ends with.
pub use fx_command::{Status, TextFault};
