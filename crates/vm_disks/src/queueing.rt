//! A worker takes a chain off a drive's ring, and begins a request: Pull, Begin.
ghost use Rattle.std.specs.Prelude.{◌≡◌, ◌+◌, ◌<◌, ◌≤◌, IsTrue};
ghost use Rattle.vm_vblk.specs.Queue.{pull_of};
ghost use Rattle.vm_vblk.specs.Window.{LiesOver, line};
ghost use Rattle.vm_ioapic.specs.Ioapic.{pin_at};
ghost use Rattle.vm_state.specs.Machine.{cpu_count, drive_at, drive_count, drive_pin};
ghost use Rattle.vm_state.specs.Sound.{IsDrive, IsSoundState, number_of};
ghost use Rattle.vm_state.specs.View.{room_for};
ghost use Rattle.vm_disks.specs.Queueing as spec;

use crate::requests::{has_request, is_first};
use vm_devices::follow_drive;
use vm_state::{Drive, Machine, RunState};
use vm_vblk::Pulled;
use x86_fetch::CachedRam;

/// How many requests of a drive can be unfinished.
const MOST_REQUESTS: u8 = 64;

/// Whether a chain waits that a worker of the drive may take: the driver notified, fewer than 64 requests are unfinished,
/// and an id is left.
#[tactic(auto, unfolding(crate::specs::Queueing::can_pull))]
pub fn can_pull(ram: &CachedRam, drive: &Drive) -> bool
    requires { LiesOver ram.now.memory drive.now.window }
    ensures { result ≡ spec.can_pull ram.now.memory drive.now }
{
    drive.window.is_notified()
        && drive.window.waits(ram)
        && drive.queue.count() < MOST_REQUESTS
        && drive.queue.next() < u32::MAX
}

/// Whether a worker may take the next chain off the ring of a drive.
#[tactic(auto, unfolding(crate::specs::Queueing::may_pull, vm_state::specs::Requests::is_worker))]
pub fn may_pull(run: &RunState, by: u16, d: u8) -> bool
    requires { IsSoundState run.now.state }
    ensures { result ≡ spec.may_pull run.now.state by d }
{
    if !run.machine.is_worker(by, d) || run.machine.pause || run.ended.is_some() {
        return false;
    }
    can_pull(&run.machine.ram, run.machine.drive(d))
}

/// Takes the next chain off a drive's ring. What was accepted joins the queue.
#[tactic(auto, unfolding(crate::specs::Queueing::can_pull))]
fn take_chain(ram: &mut CachedRam, drive: &mut Drive)
    requires drive { IsDrive ram.old.memory drive.old }
    requires may { IsTrue (spec.can_pull ram.old.memory drive.old) }
    requires room { 6 ≤ ram.old.spare }
    ensures memory { ram.new.memory ≡ (pull_of ram.old.memory drive.old.window).memory }
    ensures drive { drive.new ≡ spec.with_pulled drive.old (pull_of ram.old.memory drive.old.window) }
    ensures spare { ram.old.spare ≤ ram.new.spare + 6 }
{
    match drive.window.pull(ram) {
        Pulled::Request(request) => {
            drive.queue.accept(request);
        }
        Pulled::Answered | Pulled::Broken => {}
    }
}

/// The next chain is taken off a drive's ring, and the drive's pin follows its line.
#[tactic(auto, unfolding(crate::specs::Queueing::pulled_in, vm_devices::specs::Windows::with_window), using(crate::proofs::Going::drive_steps))]
fn pull_in(machine: &mut Machine, d: u8)
    requires cpus { cpu_count machine.old.state ≤ 16 }
    requires drives { drive_count machine.old.state ≤ 8 }
    requires there { d < drive_count machine.old.state }
    requires count { (pin_at machine.old.state.ioapic (drive_pin d)).count ≡ number_of (line (drive_at machine.old.state d).window) }
    requires drive { IsDrive machine.old.state.ram (drive_at machine.old.state d) }
    requires may { IsTrue (spec.can_pull machine.old.state.ram (drive_at machine.old.state d)) }
    requires room { 6 ≤ machine.old.spare }
    ensures state { machine.new.state ≡ spec.pulled_in machine.old.state d (pull_of machine.old.state.ram (drive_at machine.old.state d).window) }
    ensures spare { machine.old.spare ≤ machine.new.spare + 6 }
{
    let drive = machine.drives.at_mut(d as usize);
    let was = drive.window.line();
    take_chain(&mut machine.ram, drive);
    follow_drive(machine, d, was);
}

/// A worker takes the next chain off the ring of a drive: it is accepted as a request, or answered, or the device breaks.
/// There is to be room for one entry.
#[tactic(auto, unfolding(crate::specs::Queueing::may_pull, crate::specs::Queueing::after_pull, vm_state::specs::Requests::is_worker))]
pub fn pull(run: &mut RunState, by: u16, d: u8)
    requires sound { IsSoundState run.old.state }
    requires may { IsTrue (spec.may_pull run.old.state by d) }
    requires room { 1 ≤ room_for run.old }
    ensures state { run.new.state ≡ spec.after_pull run.old.state d }
    ensures room { room_for run.old ≤ room_for run.new + 1 }
{
    pull_in(&mut run.machine, d);
}

/// Whether a worker that has no request may begin this one: it is the first that is pending.
#[tactic(auto, unfolding(crate::specs::Queueing::may_begin, vm_state::specs::Requests::is_worker))]
pub fn may_begin(run: &RunState, by: u16, d: u8, id: u32) -> bool
    requires { IsSoundState run.now.state }
    ensures { result ≡ spec.may_begin run.now.state by d id }
{
    if !run.machine.is_worker(by, d) || run.machine.pause || run.ended.is_some() {
        return false;
    }
    let queue = &run.machine.drive(d).queue;
    !has_request(queue, by) && is_first(queue, id)
}

/// A worker begins the first request of a drive that is pending.
#[tactic(auto, unfolding(crate::specs::Queueing::may_begin, crate::specs::Queueing::after_begin, vm_state::specs::Requests::is_worker))]
pub fn begin(run: &mut RunState, by: u16, d: u8, id: u32)
    requires sound { IsSoundState run.old.state }
    requires may { IsTrue (spec.may_begin run.old.state by d id) }
    ensures { run.new ≡ record run.old { state = spec.after_begin run.old.state by d } }
{
    let _id = run.machine.drive_mut(d).queue.begin(by);
}
