ghost use Rattle.std.specs.Prelude.{◌≡◌, ◌<◌, ◌↔◌, IsTrue};
ghost use Rattle.vm_law.specs.CpuSet.{has};

use vm_law::{CpuSet, MeetKind};

/// An open meeting.
///
/// Source: `rendezvous_req_cpus` and `rendezvous_done_cpus` of `struct vm`, FreeBSD's sys/amd64/vmm/vmm.c.
#[derive(Debug, Drop)]
pub struct Meeting {
    /// What it is for.
    pub kind: MeetKind,
    /// The pass that opened it.
    pub by: u16,
    /// The vCPUs that are to take their turn.
    pub named: CpuSet,
    /// Those of them that have taken it.
    pub done: CpuSet,
}

impl Meeting {
    ghost use Rattle.vm_meet.specs.Meeting as spec;

    /// An equal meeting.
    pub fn copy(&self) -> Meeting
        ensures { result ≡ self.now }
    {
        Meeting {
            kind: self.kind,
            by: self.by,
            named: self.named.copy(),
            done: self.done.copy(),
        }
    }

    /// Whether a vCPU is named.
    pub fn names(&self, cpu: u8) -> bool
        ensures { result ≡ spec.is_named self.now cpu }
    {
        is_member(&self.named, cpu)
    }

    /// Whether a vCPU is named and not done.
    pub fn awaits(&self, cpu: u8) -> bool
        ensures { result ≡ spec.is_awaited self.now cpu }
    {
        is_member(&self.named, cpu) && !is_member(&self.done, cpu)
    }

    /// Whether those who are done once the vCPU took its turn are those who are named.
    pub(crate) fn is_filled_by(&self, cpu: u8) -> bool
        requires { cpu < 16 }
        ensures { IsTrue result ↔ (spec.done_with self.now cpu ≡ self.now.named) }
    {
        let mut done = self.done.copy();
        done.insert(cpu);
        done.is_same(&self.named)
    }
}

/// Whether a vCPU is a member of a set, at any number.
fn is_member(set: &CpuSet, cpu: u8) -> bool
    ensures { result ≡ has set.now cpu }
{
    set.is_small();
    cpu < 16 && set.has(cpu)
}
