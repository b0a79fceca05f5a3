//! The top call, as the program that is tried.

use crate::door::Door;
use fx_base::NoMemory;
use fx_durable::MemoryDisk;
use fx_inputs::read_base;
use fx_outside::{MemoryHost, MemorySink, Words};
use fx_spec::Base;
use fx_top::status::Status;
use fx_top::top::top;
use fx_words::{Job, job_of};
use std::alloc::Global;
use std::marker::PhantomData;
use std::sync::{Arc, Wait};
use std::thread::Threads;
use test_lines::words_of;
use test_stage::{Program, Stage};

/// The threads and the waiting of a runtime.
#[derive(Drop)]
pub struct Handles<R> {
    pub of: PhantomData<R>,
}

impl<R: Threads> Threads for Handles<R> {}

impl<R: Wait> Wait for Handles<R> {}

/// The top call, on the threads of a runtime, which pass a gate.
#[derive(Drop)]
pub struct Top<'a, R> {
    pub handles: Handles<R>,
    pub door: &'a Door,
}

/// The top call, on the threads of this runtime, with this gate.
pub fn top_on<'a, R: Threads + Wait + Sync>(_rt: &R, door: &'a Door) -> Top<'a, R> {
    Top {
        handles: Handles { of: PhantomData },
        door,
    }
}

/// The words of a run of the scripts.
fn run_words(alloc: Global, scripts: &str) -> Result<Words, NoMemory> {
    let line = format!(in alloc; "trace spec in out 0 {scripts}")?;
    words_of(alloc, line.as_str())
}

impl<R: Threads + Wait + Sync> Program for Top<'_, R> {
    fn run(
        &self,
        alloc: Global,
        words: &Words,
        host: &mut MemoryHost,
        sink: &mut MemorySink,
        disk: &mut MemoryDisk,
    ) -> Status {
        self.door.begin();
        top(&self.handles, alloc, words, host, sink, self.door, disk)
    }

    fn base(&self, alloc: Global, stage: &mut Stage, scripts: &str) -> Result<Arc<Base>, Status> {
        let words = run_words(alloc, scripts)?;
        match job_of(alloc, &words) {
            Ok(Job::Run(job)) => read_base(&self.handles, alloc, &job.inputs, &mut stage.host),
            _ => Err(Status::Usage),
        }
    }
}
