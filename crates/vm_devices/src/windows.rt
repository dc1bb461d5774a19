//! Accesses of 32 bits to the windows of the local APIC, the I/O APIC and the drives.
ghost use Rattle.std.specs.Prelude.{◌≡◌, ◌≤◌, ◌<◌, IsTrue, None};
ghost use Rattle.vm_state.specs.Machine as state;
ghost use Rattle.vm_state.specs.Sound.{IsSoundState};
ghost use Rattle.vm_devices.specs.Windows as spec;

use crate::drive_window::{read_drive, write_drive};
use crate::ioapic_window::write_ioapic;
use crate::lapic_window::{read_lapic, write_lapic};
use vm_bus::Area;
use vm_state::RunState;

/// What a read by vCPU `i` gives; 0 where no device's window is.
#[tactic(auto, unfolding(crate::specs::Windows::window_value))]
pub fn read_window(run: &RunState, i: u8, area: Area) -> u32
    requires sound { IsSoundState run.now.state }
    requires cpu { IsTrue (state.is_cpu run.now.state.machine i) }
    ensures { result ≡ spec.window_value run.now.state i area }
{
    match area {
        Area::Lapic(offset) => read_lapic(&run.machine, i, run.lag(), offset),
        Area::Ioapic(offset) => run.machine.ioapic.read(offset),
        Area::Disk(d, offset) => read_drive(&run.machine, d, offset),
        _ => 0,
    }
}

/// Whether a write changes the interrupt routing.
#[tactic(auto, unfolding(crate::specs::Windows::is_routing_write, crate::specs::Windows::reroutes))]
pub fn is_routing_write(run: &RunState, area: Area, value: u32) -> bool
    ensures { result ≡ spec.is_routing_write run.now.state area value }
{
    match area {
        Area::Ioapic(offset) => run.machine.ioapic.would_route(offset, value),
        _ => false,
    }
}

/// Writes by vCPU `i`, whose pass is `by`. Where this changes the interrupt routing, no rendezvous is open, and one opens.
#[tactic(auto, unfolding(crate::specs::Windows::window_written, crate::specs::Windows::is_routing_write))]
pub fn write_window(run: &mut RunState, by: u16, i: u8, area: Area, value: u32)
    requires sound { IsSoundState run.old.state }
    requires cpu { IsTrue (state.is_cpu run.old.state.machine i) }
    requires closed { IsTrue (spec.is_routing_write run.old.state area value) → run.old.state.machine.meet ≡ None }
    ensures { run.new ≡ record run.old { state = spec.window_written run.old.state by i area value } }
{
    match area {
        Area::Lapic(offset) => {
            let lag = run.lag();
            write_lapic(&mut run.machine, i, lag, offset, value);
        }
        Area::Ioapic(offset) => write_ioapic(&mut run.machine, by, offset, value),
        Area::Disk(d, offset) => write_drive(run, d, offset, value),
        _ => {}
    }
}
