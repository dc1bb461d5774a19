ghost use Rattle.std.specs.Prelude.{◌≡◌, ◌≤◌, ◌&&◌, ℕ, nat_lt};
ghost use Rattle.vm_law.specs.CpuSet.{has};
ghost use Rattle.vm_irq.specs.Destination as spec;

use vm_law::{CpuSet, Dest, Message};

/// The vCPUs that a message is for, in a machine with `cpus` vCPUs, at most 16: one of them, all, all but one, or none.
/// A number without a vCPU is nobody.
///
/// Source: Intel SDM volume 3, section 10.6.2.
#[tactic(auto, using(crate::proofs::TargetSets::targets_steps))]
pub fn targets(message: &Message, cpus: u8) -> CpuSet
    requires { cpus ≤ 16 }
    ensures set { result ≡ spec.targets_of message.now cpus }
    ensures members { (i : ℕ) → has result i ≡ (nat_lt i cpus && spec.is_for message.now.dest i) }
{
    let mut set = CpuSet::empty();
    for cpu in 0..cpus {
        if is_for(message.dest, cpu) {
            set.insert(cpu);
        }
    }
    set
}

/// Whether a vCPU is meant by a destination.
fn is_for(dest: Dest, cpu: u8) -> bool
    ensures { result ≡ spec.is_for dest cpu }
{
    match dest {
        Dest::One(one) => cpu == one,
        Dest::All => true,
        Dest::AllBut(one) => cpu != one,
        Dest::Nobody => false,
    }
}
