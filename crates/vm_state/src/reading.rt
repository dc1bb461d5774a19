//! Readers.
ghost use Rattle.std.specs.Prelude.{◌≡◌, ◌≤◌, ◌<◌, ◌*◌, ◌^◌, length, OnOk};
ghost use Rattle.std.specs.Option.{option_copied};
ghost use Rattle.vm_state.specs.Machine as spec;
ghost use Rattle.vm_state.specs.State as state;

use crate::cpu::Cpu;
use crate::machine::Machine;
use crate::run_state::{Answer, RunState};
use std::alloc::Global;
use vm_law::{Order, OutOfMemory, Owned};

impl Cpu {
    /// Whether nobody owns it.
    pub fn is_idle(&self) -> bool
        ensures { result ≡ spec.is_idle self.now.stage }
    {
        matches!(self.stage.now(), Owned::Idle)
    }

    /// Whether this pass froze it.
    pub fn is_frozen(&self, by: u16) -> bool
        ensures { result ≡ spec.is_frozen self.now.stage by }
    {
        match self.stage.now() {
            Owned::Frozen(owner) => owner == by,
            _ => false,
        }
    }

    /// Whether it runs in the hands of this pass.
    pub fn is_running(&self, by: u16) -> bool
        ensures { result ≡ spec.is_running self.now.stage by }
    {
        match self.stage.now() {
            Owned::Running(owner) => owner == by,
            _ => false,
        }
    }

    /// Whether it sleeps in the hands of this pass.
    pub fn is_sleeping(&self, by: u16) -> bool
        ensures { result ≡ spec.is_sleeping self.now.stage by }
    {
        match self.stage.now() {
            Owned::Sleeping(owner) => owner == by,
            _ => false,
        }
    }

    /// Whether an NMI is pending and not blocked, whatever IF says.
    pub fn takes_nmi(&self) -> bool
        ensures { result ≡ spec.takes_nmi self.now }
    {
        self.nmi && !self.ctx.nmi_block
    }

    /// Whether IF lets the vector in that its local APIC may deliver.
    pub fn takes_vector(&self) -> bool
        ensures { result ≡ spec.takes_vector self.now }
    {
        self.ctx.rflags >> 9 & 1 == 1 && !self.ctx.shadow && self.lapic.deliverable().is_some()
    }

    /// Whether an interrupt can be delivered to it.
    #[tactic(auto, unfolding(crate::specs::Machine::is_deliverable))]
    pub fn is_deliverable(&self) -> bool
        ensures { result ≡ spec.is_deliverable self.now }
    {
        self.takes_nmi() || self.takes_vector()
    }

    /// Whether it isn't halted, or an interrupt wakes it.
    pub fn is_awake(&self) -> bool
        ensures { result ≡ spec.is_awake self.now }
    {
        !self.halted || self.is_deliverable()
    }

    /// Whether it has something to do.
    #[tactic(auto, unfolding(crate::specs::Machine::is_eager))]
    pub fn is_eager(&self) -> bool
        ensures { result ≡ spec.is_eager self.now }
    {
        self.startup.is_some() || self.started && self.is_awake()
    }
}

impl Machine {
    /// Whether some vCPU has something to do.
    #[inline(always)]
    pub fn any_eager(&self) -> bool
        ensures { result ≡ spec.any_eager self.now.state }
    {
        self.cpus.as_slice().iter().any(|cpu| cpu.is_eager())
    }

    /// Whether every vCPU is idle.
    pub fn all_idle(&self) -> bool
        ensures { result ≡ spec.all_idle self.now.state }
    {
        self.cpus.as_slice().iter().all(|cpu| cpu.is_idle())
    }

    /// Whether every vCPU is frozen by control, which is pass 0.
    pub fn all_frozen(&self) -> bool
        ensures { result ≡ spec.all_frozen self.now.state }
    {
        self.cpus.as_slice().iter().all(|cpu| cpu.is_frozen(0))
    }
}

impl RunState {
    /// Makes room for `count` entries: for the console bytes that they can add and the pages of memory that they can make
    /// stand. The run stays as it is, also where memory is out.
    pub fn reserve(&mut self, alloc: Global, count: u32) -> Result<(), OutOfMemory>
        requires { count < 2 ^ 29 }
        ensures state { self.new.state ≡ self.old.state }
        ensures room { OnOk result (count ≤ self.new.room) }
        ensures spare { OnOk result (6 * count ≤ self.new.spare) }
        ensures room_kept { self.old.room ≤ self.new.room }
        ensures spare_kept { self.old.spare ≤ self.new.spare }
    {
        self.console.reserve(count as usize)?;
        self.machine.ram.reserve(alloc, 6 * count)
    }

    /// Whether every image is at home.
    pub fn none_held(&self) -> bool
        ensures { result ≡ state.none_held self.now.state }
    {
        self.images
            .as_slice()
            .iter()
            .all(|image| image.holder.is_none())
    }

    /// The order that comes next.
    #[tactic(auto, unfolding(crate::specs::State::next_order))]
    pub fn next_order(&self) -> Option<&Order>
        ensures { option_copied result ≡ state.next_order self.now.state }
    {
        match self.orders.as_slice().get(self.place as usize) {
            None => None,
            Some(answer) => Some(&answer.order),
        }
    }

    /// The orders that are done, each with what was said.
    pub fn answers(&self) -> &[Answer]
        requires { self.now.state.place ≤ length self.now.state.script }
        ensures { result.now ≡ self.now.state.answers }
    {
        &self.orders.as_slice()[..self.place as usize]
    }
}
