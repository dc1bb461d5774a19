//! Accesses to the window of a drive.
ghost use Rattle.std.specs.Prelude.{◌≡◌, ◌≤◌, ◌<◌, ◌^◌, IsTrue, count_by, length};
ghost use Rattle.vm_ioapic.specs.Ioapic.{pin_at};
ghost use Rattle.vm_vblk.specs.Window.{line, LiesOver, after_write, effect_of};
ghost use Rattle.vm_vblk.specs.Register.{register_at};
ghost use Rattle.blk_queue.specs.Progress.{is_waiting};
ghost use Rattle.blk_queue.specs.Steps.{emptied};
ghost use Rattle.vm_state.specs.Machine as state;
ghost use Rattle.vm_state.specs.State as run_state;
ghost use Rattle.vm_state.specs.Sound.{number_of, IsSoundState};
ghost use Rattle.vm_devices.specs.Messages as messages;
ghost use Rattle.vm_devices.specs.Windows as spec;

use crate::pins::follow_pin;
use blk_queue::BlkQueue;
use vm_state::{Machine, RunState};
use vm_vblk::WindowEffect;

/// The pin of drive 0; those of the others follow.
const FIRST_PIN: u8 = 16;

/// A drive's pin follows its line, which was so before the drive changed. The drive is one of at most 8.
pub fn follow_drive(machine: &mut Machine, d: u8, was: bool)
    requires cpus { state.cpu_count machine.old.state ≤ 16 }
    requires drive { IsTrue (state.is_drive machine.old.state d) }
    requires few { state.drive_count machine.old.state ≤ 8 }
    requires count { (pin_at machine.old.state.ioapic (state.drive_pin d)).count ≡ number_of was }
    ensures { machine.new ≡ record machine.old { state = messages.pin_followed machine.old.state (state.drive_pin d) was (line (state.drive_at machine.old.state d).window) } }
{
    let now = machine.drives.at(d as usize).window.line();
    follow_pin(machine, FIRST_PIN + d, was, now);
}

/// Reads a register; the window of a drive that the machine doesn't have reads 0.
#[tactic(auto, unfolding(crate::specs::Windows::drive_value))]
pub(crate) fn read_drive(machine: &Machine, d: u8, offset: u32) -> u32
    ensures { result ≡ spec.drive_value machine.now.state d offset }
{
    if (d as usize) < machine.drives.len() {
        machine.drives.at(d as usize).window.read(offset)
    } else {
        0
    }
}

/// The device was reset: the requests that wait are cancelled, and the others are dropped. The answer is how many were
/// cancelled.
#[tactic(auto, using(crate::proofs::Emptying::emptied_counts))]
fn empty_queue(queue: &mut BlkQueue) -> u8
    ensures cancelled { result ≡ count_by is_waiting queue.old.requests }
    ensures after { queue.new ≡ emptied queue.old }
{
    let before = queue.count();
    queue.reset();
    before - queue.count()
}

/// Writes a register of a drive's window; what follows from it is left to be done.
fn write_register(machine: &mut Machine, d: u8, offset: u32, value: u32) -> WindowEffect
    requires drive { IsTrue (state.is_drive machine.old.state d) }
    requires lies { LiesOver machine.old.state.ram (state.drive_at machine.old.state d).window }
    ensures effect { result ≡ effect_of (register_at offset) value }
    ensures after { machine.new ≡ record machine.old { state = state.with_drive machine.old.state d (spec.register_written machine.old.state d offset value) } }
{
    let drive = machine.drives.at_mut(d as usize);
    drive.window.write(&machine.ram, offset, value)
}

/// The requests of a drive that wait are cancelled and counted, and the others are dropped.
fn cancel_all(run: &mut RunState, d: u8)
    requires drive { IsTrue (state.is_drive run.old.state.machine d) }
    requires image { d < length run.old.state.images }
    requires few { (run_state.image_at run.old.state d).cancelled < 2 ^ 32 }
    ensures { run.new ≡ record run.old { state = spec.queue_reset run.old.state d } }
{
    let cancelled = empty_queue(&mut run.machine.drives.at_mut(d as usize).queue);
    run.images.at_mut(d as usize).cancelled += u64::from(cancelled);
}

/// Writes a register; the window of a drive that the machine doesn't have ignores it. The pin follows the line.
#[tactic(auto, unfolding(crate::specs::Windows::drive_written, crate::specs::Windows::with_window), using(crate::proofs::Lines::drive_steps))]
pub(crate) fn write_drive(run: &mut RunState, d: u8, offset: u32, value: u32)
    requires { IsSoundState run.old.state }
    ensures { run.new ≡ record run.old { state = spec.drive_written run.old.state d offset value } }
{
    if d as usize >= run.machine.drives.len() {
        return;
    }
    let was = run.machine.drives.at(d as usize).window.line();
    match write_register(&mut run.machine, d, offset, value) {
        WindowEffect::Nothing => follow_drive(&mut run.machine, d, was),
        WindowEffect::Reset => {
            cancel_all(run, d);
            follow_drive(&mut run.machine, d, was);
        }
    }
}
