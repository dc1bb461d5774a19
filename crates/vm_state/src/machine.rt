//! The machine as its guest sees it.

use crate::cpu::Cpu;
use crate::drive::Drive;
use std::marker::Model;
use vm_ioapic::Ioapic;
use vm_law::Seq;
use vm_meet::Meet;
use vm_timer::Callouts;
use vm_uart::Uart;
use x86_fetch::CachedRam;

/// The machine as its guest sees it. Contracts see its state, and for how many pages of memory it has room.
#[derive(Drop)]
pub struct Machine {
    /// The vCPUs by their numbers, 1 to 16.
    pub cpus: Seq<Cpu>,
    /// Memory, with the code part at its front.
    pub ram: CachedRam,
    pub ioapic: Ioapic,
    pub uart: Uart,
    /// The block devices by their numbers, at most 8.
    pub drives: Seq<Drive>,
    /// Whether a pause is wished.
    pub pause: bool,
    /// The rendezvous that is open, or none.
    pub meet: Meet,
    /// What is left of each vCPU's timer.
    pub timers: Callouts,
}

impl Model for Machine {
    ghost use Rattle.vm_state.specs.View.{MachineView, machine_code};

    ghost Value = { MachineView };

    ghost coded = { machine_code };

    ghost view = { λ m. record {
      state = record {
        cpus = m.cpus;
        ram = m.ram.memory;
        ioapic = m.ioapic;
        uart = m.uart;
        drives = m.drives;
        pause = m.pause;
        meet = m.meet;
        timers = m.timers;
      };
      spare = m.ram.spare;
    } };
}
