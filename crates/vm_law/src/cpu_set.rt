ghost use Rattle.std.specs.Prelude.{◌≡◌, ◌<◌, ◌≤◌, ◌↔◌, IsTrue, ℕ, false};
ghost use Rattle.std.specs.FinSet as set;
ghost use Rattle.vm_law.specs.CpuSet as spec;

use std::marker::Model;

/// A set of vCPUs, by their numbers, which are below 16. Contracts see it as a finite set of numbers.
#[derive(Debug, Drop)]
pub struct CpuSet {
    members: [bool; 16],
}

impl Model for CpuSet {
    ghost use Rattle.std.specs.Coded.{coded_ℕ};
    ghost use Rattle.std.specs.FinSet as set;
    ghost use Rattle.vm_law.specs.CpuSet.{Cpus};
    ghost use Rattle.vm_law.specs.BitSet.{set_of};

    ghost Value = { Cpus };

    ghost coded = { set.code coded_ℕ };

    ghost view = { λ s. set_of s.members };
}

impl CpuSet {
    /// The set without members.
    #[tactic(auto, using(crate::proofs::BitSets::set_of_none))]
    pub fn empty() -> CpuSet
        ensures { result ≡ set.empty }
    {
        CpuSet {
            members: [false; 16],
        }
    }

    /// An equal set.
    pub fn copy(&self) -> CpuSet
        ensures { result ≡ self.now }
    {
        CpuSet {
            members: self.members,
        }
    }

    /// Adds a vCPU.
    #[tactic(auto, using(crate::proofs::BitSets::set_of_with))]
    pub fn insert(&mut self, cpu: u8)
        requires { cpu < 16 }
        ensures { self.new ≡ set.insert self.old cpu }
    {
        self.members[cpu as usize] = true;
    }

    /// Whether a vCPU is a member.
    #[tactic(auto, using(crate::proofs::BitSets::has_set_of))]
    pub fn has(&self, cpu: u8) -> bool
        requires { cpu < 16 }
        ensures { result ≡ spec.has self.now cpu }
    {
        self.members[cpu as usize]
    }

    /// Whether both sets have the same members.
    pub fn is_same(&self, other: &CpuSet) -> bool
        ensures { IsTrue result ↔ (self.now ≡ other.now) }
    {
        self.members == other.members
    }

    /// Nothing from 16 on is a member.
    #[tactic(auto, using(crate::proofs::BitSets::past_the_end))]
    pub fn is_small(&self)
        ensures { (cpu : ℕ) → 16 ≤ cpu → spec.has self.now cpu ≡ false }
    {
        let _members = self.members;
    }
}
