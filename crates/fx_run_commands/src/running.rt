//! The commands `run`, `trace` and `watch`, stage by stage: whole runs of scripts on a folder, and what each leaves at OUT and prints.

mod command;
mod runs;

pub use command::{run, trace};
