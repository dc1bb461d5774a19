//! A worker carries out a read, and completes a request: Move, Finish.
ghost use Rattle.std.specs.Prelude.{◌≡◌, ◌+◌, ◌<◌, ◌≤◌, length, IsTrue, true};
ghost use Rattle.blk_queue.specs.Progress.{ends, moves};
ghost use Rattle.blk_queue.specs.Queue as words;
ghost use Rattle.blk_queue.specs.Steps.{left};
ghost use Rattle.vq_ring.specs.Ring.{lies_in};
ghost use Rattle.vm_vblk.specs.Window.{ring_of, line};
ghost use Rattle.vm_ioapic.specs.Ioapic.{pin_at};
ghost use Rattle.vm_state.specs.Machine.{cpu_count, drive_at, drive_count, drive_pin, is_drive};
ghost use Rattle.vm_state.specs.Sound.{IsDrive, IsSoundState, number_of};
ghost use Rattle.vm_state.specs.View.{room_for};
ghost use Rattle.vm_disks.specs.Moving as spec;
ghost use Rattle.vm_disks.specs.Queueing.{with_queue};

use crate::requests::{is_ending, is_moving, place};
use crate::sectors::{moved_of, read_in};
use blk_queue::Finished;
use vm_devices::follow_drive;
use vm_state::{Drive, Holder, Machine, RunState};
use x86_fetch::CachedRam;

/// Whether a worker may move the next sector of a read.
#[tactic(auto, unfolding(crate::specs::Moving::may_move))]
pub fn may_move(run: &RunState, by: u16, d: u8, id: u32) -> bool
    ensures { result ≡ spec.may_move run.now.state by d id }
{
    if !run.machine.is_drive(d) {
        return false;
    }
    is_moving(&run.machine.drive(d).queue, id, by)
}

/// The next sector of the read of this id goes from the disk to memory.
fn fill(ram: &mut CachedRam, drive: &Drive, id: u32)
    requires drive { IsDrive ram.old.memory drive.now }
    requires may { IsTrue (words.some_request drive.now.queue id moves) }
    requires room { 2 ≤ ram.old.spare }
    ensures memory { ram.new.memory ≡ spec.with_read ram.old.memory drive.now.bytes (words.request_of drive.now.queue id) }
    ensures spare { ram.old.spare ≤ ram.new.spare + 2 }
{
    let k = place(&drive.queue, id);
    let (_, progress, request) = drive.queue.nth(k);
    read_in(ram, &drive.bytes, request, moved_of(progress));
}

/// The next sector of the read of this id goes from the disk of a drive to memory, and is counted.
fn move_in(machine: &mut Machine, d: u8, id: u32)
    requires there { d < drive_count machine.old.state }
    requires drive { IsDrive machine.old.state.ram (drive_at machine.old.state d) }
    requires may { IsTrue (words.some_request (drive_at machine.old.state d).queue id moves) }
    requires room { 2 ≤ machine.old.spare }
    ensures state { machine.new.state ≡ spec.moved_on (spec.read_in machine.old.state d id) d id true }
    ensures spare { machine.old.spare ≤ machine.new.spare + 2 }
{
    let drive = machine.drives.at_mut(d as usize);
    fill(&mut machine.ram, drive, id);
    drive.queue.moved(id);
}

/// The next sector of a read goes from the disk to memory. There is to be room for one entry.
#[tactic(auto, unfolding(crate::specs::Moving::may_move, crate::specs::Moving::after_move))]
pub fn move_sector(run: &mut RunState, by: u16, d: u8, id: u32)
    requires sound { IsSoundState run.old.state }
    requires may { IsTrue (spec.may_move run.old.state by d id) }
    requires room { 1 ≤ room_for run.old }
    ensures state { run.new.state ≡ spec.after_move run.old.state d id }
    ensures room { room_for run.old ≤ room_for run.new + 1 }
{
    move_in(&mut run.machine, d, id);
}

/// Whether the image is out for the request of this id.
fn is_held_for(holder: Option<Holder>, id: u32) -> bool
    ensures { result ≡ spec.is_held_for id holder }
{
    match holder {
        Some(holder) => holder.id == id,
        None => false,
    }
}

/// Whether a worker may complete a request: nothing of it is left to do, and the image isn't out for it.
#[tactic(auto, unfolding(crate::specs::Moving::may_finish))]
pub fn may_finish(run: &RunState, by: u16, d: u8, id: u32) -> bool
    requires { IsSoundState run.now.state }
    ensures { result ≡ spec.may_finish run.now.state by d id }
{
    if !run.machine.is_drive(d) || is_held_for(run.image(d).holder, id) {
        return false;
    }
    is_ending(&run.machine.drive(d).queue, id, by)
}

/// Tells the driver of a request that was carried out: the status byte, the used ring, the interrupt.
#[tactic(auto, unfolding(crate::specs::Moving::told_driver, vm_devices::specs::Windows::with_window))]
fn tell_driver(machine: &mut Machine, d: u8, told: Finished)
    requires cpus { cpu_count machine.old.state ≤ 16 }
    requires drive { IsTrue (is_drive machine.old.state d) }
    requires few { drive_count machine.old.state ≤ 8 }
    requires count { (pin_at machine.old.state.ioapic (drive_pin d)).count ≡ number_of (line (drive_at machine.old.state d).window) }
    requires ready { IsTrue (drive_at machine.old.state d).window.queue_ready }
    requires ring { IsTrue (lies_in (ring_of (drive_at machine.old.state d).window) machine.old.state.ram) }
    requires above_code { machine.old.state.ram.code ≤ told.status_at }
    requires in_ram { told.status_at < length machine.old.state.ram.bytes }
    requires room { 6 ≤ machine.old.spare }
    ensures state { machine.new.state ≡ spec.told_driver machine.old.state d told }
    ensures spare { machine.old.spare ≤ machine.new.spare + 6 }
{
    let drive = machine.drives.at_mut(d as usize);
    let was = drive.window.line();
    drive.window.finish(
        &mut machine.ram,
        told.head,
        told.status_at,
        told.status,
        told.len,
    );
    follow_drive(machine, d, was);
}

/// A request is completed: it leaves the queue of its drive, and the driver is told, unless it was dropped.
#[tactic(auto, using(crate::proofs::Going::drive_steps))]
fn finish_in(machine: &mut Machine, d: u8, id: u32)
    requires cpus { cpu_count machine.old.state ≤ 16 }
    requires drives { drive_count machine.old.state ≤ 8 }
    requires there { d < drive_count machine.old.state }
    requires count { (pin_at machine.old.state.ioapic (drive_pin d)).count ≡ number_of (line (drive_at machine.old.state d).window) }
    requires drive { IsDrive machine.old.state.ram (drive_at machine.old.state d) }
    requires may { IsTrue (words.some_request (drive_at machine.old.state d).queue id ends) }
    requires room { 6 ≤ machine.old.spare }
    ensures state { machine.new.state ≡ spec.finished_as (with_queue machine.old.state d (left (drive_at machine.old.state d).queue id)) d (words.request_of (drive_at machine.old.state d).queue id) }
    ensures spare { machine.old.spare ≤ machine.new.spare + 6 }
{
    let told = machine.drive_mut(d).queue.finish(id);
    if !told.silent {
        tell_driver(machine, d, told);
    }
}

/// A request is completed, and leaves the queue. There is to be room for one entry.
#[tactic(auto, unfolding(crate::specs::Moving::may_finish, crate::specs::Moving::after_finish))]
pub fn finish(run: &mut RunState, by: u16, d: u8, id: u32)
    requires sound { IsSoundState run.old.state }
    requires may { IsTrue (spec.may_finish run.old.state by d id) }
    requires room { 1 ≤ room_for run.old }
    ensures state { run.new.state ≡ spec.after_finish run.old.state d id }
    ensures room { room_for run.old ≤ room_for run.new + 1 }
{
    finish_in(&mut run.machine, d, id);
    run.image_mut(d).finished += 1;
}
