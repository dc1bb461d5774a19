//! A sink of bytes, such as a console or a report.
ghost use Rattle.std.specs.Prelude.{◌<◌, ◌≤◌, length, take, IfOk, OnErr};
ghost use Rattle.vm_host.specs.Counts.{Counted};
ghost use Rattle.vm_host.specs.Leaves.{Takes, LeavesSink};
ghost use Rattle.vm_host.specs.Views.{SinkView};

use thiserror::Error;

/// A sink took nothing. Its count of faults rose.
#[derive(Clone, Copy, Debug, PartialEq, Eq, Error)]
#[error("the output failed")]
pub struct SinkFault;

/// Bytes that are taken in order.
pub trait Sink {
    /// What clauses see of it: whether it tells the bytes that it took, which no call changes, these
    /// bytes from its start on, and its count of faults, which stands still at 2^64 - 1.
    ghost seen: { Self → SinkView };

    /// Takes the first n bytes of a piece and answers n.
    ///
    /// Of a piece that isn't empty it takes at least one byte. After `SinkFault`, which raises
    /// `faults`, nothing of the piece was taken.
    fn write(&mut self, piece: &[u8]) -> Result<usize, SinkFault>
        ensures within { IfOk result (λ n. n ≤ length piece.now) }
        ensures some { 0 < length piece.now → IfOk result (λ n. 0 < n) }
        ensures takes { IfOk result (λ n. Takes (take n piece.now) (seen self.old) (seen self.new)) }
        ensures refused { OnErr result (LeavesSink (seen self.old) (seen self.new)) }
        ensures cause { Counted (seen self.old).faults (seen self.new).faults result };
}
