//! The pins of the I/O APIC follow the devices' lines.
ghost use Rattle.std.specs.Prelude.{◌≡◌, ◌≤◌, ◌<◌, ◌+◌, ◌^◌};
ghost use Rattle.vm_ioapic.specs.Ioapic.{pin_at};
ghost use Rattle.vm_state.specs.Machine as state;
ghost use Rattle.vm_state.specs.Sound.{number_of};
ghost use Rattle.vm_devices.specs.Messages as spec;

use crate::messages::{send_all, send_if};
use vm_state::Machine;

/// Asserts a pin, which is below 32, once more. What this sends goes out.
#[tactic(auto, unfolding(crate::specs::Messages::pin_raised))]
pub fn raise_pin(machine: &mut Machine, pin: u8)
    requires cpus { state.cpu_count machine.old.state ≤ 16 }
    requires pin { pin < 32 }
    requires count { (pin_at machine.old.state.ioapic pin).count + 1 < 2 ^ 32 }
    ensures { machine.new ≡ record machine.old { state = spec.pin_raised machine.old.state pin } }
{
    let message = machine.ioapic.raise(pin);
    send_if(machine, message);
}

/// Asserts a pin, which is below 32 and asserted, once less.
#[tactic(auto, unfolding(crate::specs::Messages::pin_lowered))]
pub fn lower_pin(machine: &mut Machine, pin: u8)
    requires pin { pin < 32 }
    requires asserted { 0 < (pin_at machine.old.state.ioapic pin).count }
    ensures { machine.new ≡ record machine.old { state = spec.pin_lowered machine.old.state pin } }
{
    machine.ioapic.lower(pin);
}

/// A pin, which is below 32, follows its line: it was asserted so far where `was`, and is to be from now on where `now`.
#[tactic(auto, unfolding(crate::specs::Messages::pin_followed))]
pub fn follow_pin(machine: &mut Machine, pin: u8, was: bool, now: bool)
    requires cpus { state.cpu_count machine.old.state ≤ 16 }
    requires pin { pin < 32 }
    requires count { (pin_at machine.old.state.ioapic pin).count ≡ number_of was }
    ensures { machine.new ≡ record machine.old { state = spec.pin_followed machine.old.state pin was now } }
{
    if now && !was {
        raise_pin(machine, pin);
    } else if was && !now {
        lower_pin(machine, pin);
    }
}

/// A level-triggered interrupt of this vector was serviced. What the pins of this vector send anew goes out, by ascending
/// pin.
#[tactic(auto, unfolding(crate::specs::Messages::level_ended))]
pub fn end_level(machine: &mut Machine, vector: u8)
    requires { state.cpu_count machine.old.state ≤ 16 }
    ensures { machine.new ≡ record machine.old { state = spec.level_ended machine.old.state vector } }
{
    let messages = machine.ioapic.eoi(vector);
    send_all(machine, messages.as_slice());
}
