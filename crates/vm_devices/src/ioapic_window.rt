//! Accesses to the window of the I/O APIC.
ghost use Rattle.std.specs.Prelude.{◌≡◌, ◌≤◌, ◌<◌, IsTrue, None, true};
ghost use Rattle.vm_state.specs.Machine as state;
ghost use Rattle.vm_state.specs.Sound.{IsMachine};
ghost use Rattle.vm_devices.specs.Windows as spec;

use crate::messages::{send_if, started_cpus};
use vm_law::MeetKind;
use vm_state::Machine;

/// Opens a rendezvous of all started vCPUs, in which each takes over which vectors are level-triggered.
#[tactic(auto, using(crate::proofs::Started::some_started))]
fn open_routing(machine: &mut Machine, by: u16)
    requires some { 1 ≤ state.cpu_count machine.old.state }
    requires cpus { state.cpu_count machine.old.state ≤ 16 }
    requires first { (state.cpu_at machine.old.state 0).started ≡ true }
    requires closed { machine.old.state.meet ≡ None }
    ensures { machine.new ≡ record machine.old { state = spec.routing_opened machine.old.state by } }
{
    let named = started_cpus(machine);
    let _opened = machine.meet.start(MeetKind::Routing, by, named);
}

/// Writes a register. A write that changes the routing opens a rendezvous.
#[tactic(auto, unfolding(crate::specs::Windows::ioapic_written, crate::specs::Windows::reroutes), using(crate::proofs::Started::sending_keeps))]
pub(crate) fn write_ioapic(machine: &mut Machine, by: u16, offset: u32, value: u32)
    requires sound { IsMachine machine.old.state }
    requires closed { IsTrue (spec.reroutes machine.old.state offset value) → machine.old.state.meet ≡ None }
    ensures { machine.new ≡ record machine.old { state = spec.ioapic_written machine.old.state by offset value } }
{
    let change = machine.ioapic.write(offset, value);
    send_if(machine, change.message);
    if change.routing {
        open_routing(machine, by);
    }
}
