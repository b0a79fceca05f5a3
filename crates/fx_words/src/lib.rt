//! The words of the command line, read by `clap`: which command they ask for, with its arguments.
#![tactic(auto)]

mod decimal;
mod fault;
mod form;
mod job;
mod parser;
mod reading;
mod schedule;

pub use fault::WordsFault;
pub use job::{
    AuditJob, GenJob, Inputs, Job, JournalJob, RecoverJob, RunJob, RunMode, ShowJob, ViewsJob,
    job_of,
};
