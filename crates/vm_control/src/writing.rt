//! Writes bytes to a sink, as many as it takes.
ghost use Rattle.std.specs.Prelude.{◌≡◌, ◌≤◌, ◌<◌, length, take, OnOk, OnErr};
ghost use Rattle.vm_host.specs.Counts.{Counted};
ghost use Rattle.vm_host.specs.Leaves.{Takes};

use vm_host::{Sink, SinkFault};

/// Writes the bytes piece by piece, until all are written or the sink fails. Answers how many the sink took besides.
pub(crate) fn write_out<S: Sink>(sink: &mut S, bytes: &[u8]) -> (usize, Result<(), SinkFault>)
    ensures within { result.0 ≤ length bytes.now }
    ensures takes { Takes (take result.0 bytes.now) (S.seen sink.old) (S.seen sink.new) }
    ensures whole { OnOk result.1 (result.0 ≡ length bytes.now) }
    ensures part { OnErr result.1 (result.0 < length bytes.now) }
    ensures cause { Counted (S.seen sink.old).faults (S.seen sink.new).faults result.1 }
{
    let mut at = 0;
    while at < bytes.len() {
        match sink.write(&bytes[at..]) {
            Ok(count) => at += count,
            Err(fault) => return (at, Err(fault)),
        }
    }
    (at, Ok(()))
}
