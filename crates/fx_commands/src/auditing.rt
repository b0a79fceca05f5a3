//! The command `audit`: whether the text of a report is the report of a run of a description, scripts and a folder.

mod command;
mod line;
mod reading;

pub use command::audit;
