//! Writes bytes to a sink, all of them.
ghost use Rattle.std.specs.Prelude.{◌≡◌, ℕ, ◌<◌, ◌++◌, length, take, OnOk, OnErr};
ghost use Rattle.vm_host.specs.Told.{WhereTold};
ghost use Rattle.vm_host.specs.Counts.{Counted};
ghost use Rattle.vm_host.specs.Leaves.{Takes, TakesSome};

use vm_host::{Sink, SinkFault};

/// Writes all bytes. Where the sink fails it has taken a first part of them, and not the last one.
pub fn write_all<S: Sink>(sink: &mut S, bytes: &[u8]) -> Result<(), SinkFault>
    ensures whole { OnOk result (Takes bytes.now (S.seen sink.old) (S.seen sink.new)) }
    ensures part { OnErr result (TakesSome bytes.now (S.seen sink.old) (S.seen sink.new)) }
    ensures refused { WhereTold (S.seen sink.old).tells (OnErr result ((k : ℕ) × (k < length bytes.now)
        × ((S.seen sink.new).taken ≡ (S.seen sink.old).taken ++ take k bytes.now))) }
    ensures cause { Counted (S.seen sink.old).faults (S.seen sink.new).faults result }
{
    let mut at = 0;
    while at < bytes.len() {
        at += sink.write(&bytes[at..])?;
    }
    Ok(())
}
