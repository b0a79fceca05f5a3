//! A sink in memory, for tests.
ghost use Rattle.std.specs.Prelude.{◌≡◌, ◌≤◌, [], ◌∷◌, length, vec_capacity, IfOk, OnOk, OnErr, Some};

use crate::calls::Calls;
use crate::{Sink, SinkFailed};
use fx_base::{NoMemory, add_within_capacity};
use std::alloc::Global;

/// Holds what is written to it, up to a number of bytes for which it takes the memory when it is made. Past that, and at
/// the calls that it is told to fail, it fails.
#[derive(Debug, Drop)]
pub struct MemorySink {
    bytes: Vec<u8>,
    room: u64,
    calls: Calls,
    ghost within: { length bytes.items ≤ room },
    ghost reserved: { room ≤ vec_capacity bytes },
}

impl MemorySink {
    ghost use Rattle.fx_outside.specs.Calls.{no_calls, with_failing};
    ghost use Rattle.fx_outside.specs.MemorySink.{sink_bytes, sink_room, sink_calls, sink_view};

    /// An empty sink for a number of bytes.
    pub fn new(alloc: Global, room: u64) -> Result<MemorySink, NoMemory>
        ensures empty { IfOk result (λ sink. sink_bytes sink ≡ []) }
        ensures room { IfOk result (λ sink. sink_room sink ≡ room) }
        ensures calls { IfOk result (λ sink. sink_calls sink ≡ no_calls) }
    {
        let bytes = Vec::with_capacity(alloc, room as usize)?;
        Ok(MemorySink {
            bytes,
            room,
            calls: Calls::new(alloc),
        })
    }

    /// All that was written.
    pub fn written(&self) -> &[u8]
        ensures { result.now ≡ sink_bytes self.now }
    {
        &self.bytes
    }

    /// How often it has failed.
    pub fn faults(&self) -> u64
        ensures { result ≡ (sink_view self.now).faults }
    {
        self.calls.faults()
    }

    /// Has the call of a number, counted from 0 over all calls of `write`, fail.
    pub fn fail(&mut self, _alloc: Global, call: u64) -> Result<(), NoMemory>
        ensures added { OnOk result
            (sink_calls self.new ≡ with_failing (sink_calls self.old) call) }
        ensures same { OnErr result (sink_calls self.new ≡ sink_calls self.old) }
        ensures bytes { sink_bytes self.new ≡ sink_bytes self.old }
        ensures room { sink_room self.new ≡ sink_room self.old }
    {
        self.calls.fail(call)
    }
}

impl Sink for MemorySink {
    ghost use Rattle.std.specs.Prelude.{◌≡◌, ◌<◌, length};
    ghost use Rattle.fx_outside.specs.MemorySink.{sink_room, sink_calls, sink_view, FillsRoom};
    ghost use Rattle.fx_outside.specs.Sink.{Writes, TakesSome, HasFault};
    ghost use Rattle.fx_outside.specs.Calls.{IsCounted, CountsFailure};

    ghost view = { sink_view };

    fn write(&mut self, bytes: &[u8]) -> Result<usize, SinkFailed>
        requires { 0 < length bytes.now }
        ensures taken { TakesSome bytes.now result }
        ensures written { Writes bytes.now (sink_view self.old) (sink_view self.new) result }
        ensures cause { HasFault (sink_view self.old) (sink_view self.new) result }
        ensures fills { FillsRoom self.old bytes.now result }
        ensures room { sink_room self.new ≡ sink_room self.old }
        ensures counts { IsCounted (sink_calls self.old) (sink_calls self.new) }
        ensures failures { CountsFailure (sink_calls self.old) (sink_calls self.new) result }
    {
        let fails = self.calls.begin();
        let left = self.room as usize - self.bytes.len();
        let count = bytes.len().min(left);
        if fails {
            self.calls.fault();
            return Err(SinkFailed);
        }
        if count == 0 {
            self.calls.fault();
            return Err(SinkFailed);
        }
        add_within_capacity(&mut self.bytes, &bytes[..count]);
        Ok(count)
    }
}
