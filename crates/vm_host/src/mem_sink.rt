//! A sink in memory.
ghost use Rattle.std.specs.Prelude.{◌≡◌, ◌<◌, ◌≤◌, [], ◌∷◌, ◌++◌, length, take, true, IsErr, OnOk, OnErr, IfOk, MatchResult};
ghost use Rattle.vm_host.specs.Counts.{Counted};
ghost use Rattle.vm_host.specs.Leaves.{Takes, LeavesSink};
ghost use Rattle.vm_host.specs.MemState.{sink_view, IsListed, is_listed, after_call, no_calls, one_more};

use crate::calls::Calls;
use crate::sink::{Sink, SinkFault};
use std::alloc::Global;
use std::marker::Model;
use vm_law::OutOfMemory;

/// A sink in memory. It tells the bytes that it took.
///
/// Its calls of [`Sink`] are numbered from 0. One that is listed answers its fault and takes
/// nothing; so does one for which memory is refused. Each other call takes the whole piece.
#[derive(Drop)]
pub struct MemSink {
    bytes: Vec<u8>,
    calls: Calls,
}

impl Model for MemSink {
    ghost use Rattle.vm_host.specs.MemState.{SinkState};

    ghost Value = { SinkState };

    ghost view = { λ s. record { bytes = s.bytes.items; calls = s.calls } };
}

impl MemSink {
    /// A sink that took nothing, whose next call is number 0. It keeps the allocator.
    pub fn new(alloc: Global) -> MemSink
        ensures { result ≡ record { bytes = []; calls = no_calls [] } }
    {
        MemSink {
            bytes: Vec::new(alloc),
            calls: Calls::new(alloc),
        }
    }

    /// Lists the call of this number as one that is to fail. After `OutOfMemory` nothing has
    /// changed.
    pub fn fail(&mut self, call: u64) -> Result<(), OutOfMemory>
        ensures listed { OnOk result (self.new ≡ record self.old {
          calls = record self.old.calls { failing = self.old.calls.failing ++ call ∷ [] };
        }) }
        ensures err { OnErr result (self.new ≡ self.old) }
    {
        self.calls.fail(call)
    }

    /// Takes the number of a call, and counts a fault where it is listed.
    fn call_fails(&mut self) -> bool
        ensures listed { result ≡ is_listed self.old.calls }
        ensures after { self.new ≡ record self.old { calls = after_call result self.old.calls } }
    {
        self.calls.next_fails()
    }

    /// The bytes that it took, in order.
    pub fn taken(&self) -> &[u8]
        ensures { result.now ≡ self.now.bytes }
    {
        &self.bytes
    }
}

impl Sink for MemSink {
    ghost seen = { sink_view };

    fn write(&mut self, piece: &[u8]) -> Result<usize, SinkFault>
        ensures listed { IsListed self.old.calls
            → IsErr result × (self.new ≡ record self.old { calls = after_call true self.old.calls }) }
        ensures numbered { self.new.calls ≡ record self.old.calls {
          next = one_more self.old.calls.next;
          faults = self.new.calls.faults;
        } }
        ensures whole { IfOk result (λ n. n ≡ length piece.now) }
        ensures within { IfOk result (λ n. n ≤ length piece.now) }
        ensures some { 0 < length piece.now → IfOk result (λ n. 0 < n) }
        ensures takes { IfOk result (λ n. Takes (take n piece.now) (sink_view self.old) (sink_view self.new)) }
        ensures refused { OnErr result (LeavesSink (sink_view self.old) (sink_view self.new)) }
        ensures cause { Counted self.old.calls.faults self.new.calls.faults result }
    {
        if self.call_fails() {
            return Err(SinkFault);
        }
        if self.bytes.extend_from_slice(piece).is_err() {
            self.calls.count_fault();
            return Err(SinkFault);
        }
        Ok(piece.len())
    }
}
