//! Accesses to the window of a vCPU's local APIC.
ghost use Rattle.std.specs.Prelude.{◌≡◌, ◌≤◌, ◌<◌, ◌^◌};
ghost use Rattle.vm_lapic.specs.Window.{effect_of};
ghost use Rattle.vm_state.specs.Machine as state;
ghost use Rattle.vm_devices.specs.Windows as spec;

use crate::heard::{CURRENT_COUNT, INITIAL_COUNT};
use crate::messages::send;
use crate::pins::end_level;
use crate::timers::{arm, current_count};
use vm_lapic::LapicEffect;
use vm_state::Machine;

/// Reads a register. The machine keeps the timer, and answers its current count; the APIC answers all else.
#[tactic(auto, unfolding(crate::specs::Windows::lapic_value))]
pub(crate) fn read_lapic(machine: &Machine, i: u8, lag: u64, offset: u32) -> u32
    requires cpu { i < state.cpu_count machine.now.state }
    requires small { i < 16 }
    ensures { result ≡ spec.lapic_value machine.now.state i lag offset }
{
    if offset == CURRENT_COUNT {
        current_count(machine, i, lag)
    } else {
        machine.cpus.at(i as usize).lapic.read(offset)
    }
}

/// Writes a register, and the timer follows a write of its initial count.
fn keep_lapic(machine: &mut Machine, i: u8, lag: u64, offset: u32, value: u32) -> LapicEffect
    requires cpu { i < state.cpu_count machine.old.state }
    requires small { i < 16 }
    requires lag { lag < 2 ^ 39 }
    ensures effect { result ≡ effect_of (state.cpu_at machine.old.state i).lapic offset value }
    ensures after { machine.new ≡ record machine.old { state = spec.lapic_kept machine.old.state i lag offset value } }
{
    let effect = machine.cpus.at_mut(i as usize).lapic.write(offset, value);
    if offset == INITIAL_COUNT {
        arm(machine, i, lag);
    }
    effect
}

/// What a write does beyond the APIC.
fn follow_lapic(machine: &mut Machine, effect: LapicEffect)
    requires { state.cpu_count machine.old.state ≤ 16 }
    ensures { machine.new ≡ record machine.old { state = spec.lapic_followed machine.old.state effect } }
{
    match effect {
        LapicEffect::Nothing => {}
        LapicEffect::Send(message) => send(machine, &message),
        LapicEffect::Eoi { vector, level } => {
            if level {
                end_level(machine, vector);
            }
        }
    }
}

/// Writes a register.
#[tactic(auto, unfolding(crate::specs::Windows::lapic_written), using(crate::proofs::Same::count_kept))]
pub(crate) fn write_lapic(machine: &mut Machine, i: u8, lag: u64, offset: u32, value: u32)
    requires cpu { i < state.cpu_count machine.old.state }
    requires cpus { state.cpu_count machine.old.state ≤ 16 }
    requires lag { lag < 2 ^ 39 }
    ensures { machine.new ≡ record machine.old { state = spec.lapic_written machine.old.state i lag offset value } }
{
    let effect = keep_lapic(machine, i, lag, offset, value);
    follow_lapic(machine, effect);
}
