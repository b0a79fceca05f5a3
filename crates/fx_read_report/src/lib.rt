//! The reader of a report: words, numbers and quotes, values, lines, and the whole.
#![tactic(auto)]

pub mod laws;
mod lines;
mod numbers;
mod parts;
mod quotes;
mod reading;
mod report;
mod values;

pub use report::{Printed, ReportFault, read_report};
pub use values::VALUE_LEVELS;
