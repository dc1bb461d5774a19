//! Standard error.
ghost use Rattle.std.specs.Prelude.{◌≡◌, ◌≤◌, length, IfOk};
ghost use Rattle.vm_hostreal.specs.Views.{sink_view};

use std::io::{self, ErrorKind, Write};
use std::marker::Model;
use std::rt::HostRuntime;
use vm_host::{Sink, SinkFault};

/// Standard error, with a count of its refusals. Nothing is kept back: each piece goes to write(2) at once.
///
/// A device that is full and a pipe that nobody reads are refusals. A call that a signal interrupts is made again.
#[derive(Drop)]
pub struct ErrSink {
    rt: HostRuntime,
    faults: u64,
}

impl Model for ErrSink {
    ghost use Rattle.vm_hostreal.specs.Views.{SinkCounts};

    ghost Value = { SinkCounts };

    ghost view = { λ s. record { faults = s.faults } };
}

impl ErrSink {
    /// Standard error. The count is 0.
    pub fn new(rt: HostRuntime) -> ErrSink
        ensures { result ≡ record { faults = 0 } }
    {
        ErrSink { rt, faults: 0 }
    }
}

/// Writes a first part of a piece, and answers how many bytes that were.
fn put(rt: &HostRuntime, piece: &[u8]) -> io::Result<usize>
    ensures { IfOk result (λ n. n ≤ length piece.now) }
{
    for _ in 0..u64::MAX {
        match rt.stderr().write(piece) {
            Err(error) if error.kind() == ErrorKind::Interrupted => {}
            other => return other,
        }
    }
    Err(io::Error::from(ErrorKind::Interrupted))
}

impl Sink for ErrSink {
    ghost seen = { sink_view };

    fn write(&mut self, piece: &[u8]) -> Result<usize, SinkFault> {
        if piece.is_empty() {
            return Ok(0);
        }
        match put(&self.rt, piece) {
            Ok(count) if count > 0 => Ok(count),
            _ => {
                self.faults = self.faults.saturating_add(1);
                Err(SinkFault)
            }
        }
    }
}
