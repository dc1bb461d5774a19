//! A worker carries out a write or a flush at a disk's image: Hold, Put. Between the two the image is the worker's.
ghost use Rattle.std.specs.Prelude.{◌≡◌, ◌^◌, ◌<◌, ◌≤◌, length, IsTrue};
ghost use Rattle.std.specs.List.{All};
ghost use Rattle.blk_queue.specs.Progress.{puts};
ghost use Rattle.blk_queue.specs.Queue as words;
ghost use Rattle.blk_queue.specs.declared.progress.Unfinished.{Unfinished as Entry};
ghost use Rattle.vblk_req.specs.Request.{IsSound as IsAsked};
ghost use Rattle.vm_state.specs.Machine.{drive_at, drive_count};
ghost use Rattle.vm_state.specs.Requests.{capacity_of};
ghost use Rattle.vm_state.specs.Sound.{IsDrive, IsSoundState};
ghost use Rattle.vm_disks.specs.Images as spec;
ghost use Rattle.vm_disks.specs.Moving.{moved_on};

use crate::requests::{is_putting, place};
use crate::sectors::{has_data, moved_of, settle, write_out};
use vm_state::{DiskImage, Drive, Holder, Machine, RunState};
use x86_fetch::CachedRam;

/// Whether a worker may take the image for the next sector of a write, or for a flush: the image is at home.
#[tactic(auto, unfolding(crate::specs::Images::may_hold))]
pub fn may_hold(run: &RunState, by: u16, d: u8, id: u32) -> bool
    requires { IsSoundState run.now.state }
    ensures { result ≡ spec.may_hold run.now.state by d id }
{
    if !run.machine.is_drive(d) || run.image(d).holder.is_some() {
        return false;
    }
    is_putting(&run.machine.drive(d).queue, id, by)
}

/// The next sector of the write of this id goes from memory to the disk. A flush moves nothing.
fn fetch(ram: &CachedRam, drive: &mut Drive, id: u32)
    requires drive { IsDrive ram.now.memory drive.old }
    requires may { IsTrue (words.some_request drive.old.queue id puts) }
    ensures { drive.new ≡ record drive.old { bytes = spec.with_write ram.now.memory drive.old.bytes (words.request_of drive.old.queue id) } }
{
    let k = place(&drive.queue, id);
    let (_, progress, request) = drive.queue.nth(k);
    if has_data(request) {
        write_out(ram, &mut drive.bytes, request, moved_of(progress));
    }
}

/// The next sector of the write of this id goes from memory to the disk of a drive.
fn write_in(machine: &mut Machine, d: u8, id: u32)
    requires there { d < drive_count machine.old.state }
    requires drive { IsDrive machine.old.state.ram (drive_at machine.old.state d) }
    requires may { IsTrue (words.some_request (drive_at machine.old.state d).queue id puts) }
    ensures { machine.new ≡ record machine.old { state = spec.written_out machine.old.state d id } }
{
    let drive = machine.drives.at_mut(d as usize);
    fetch(&machine.ram, drive, id);
}

/// A worker takes the image of a disk. The next sector of a write goes from memory to the disk as the guest sees it.
#[tactic(auto, unfolding(crate::specs::Images::may_hold, crate::specs::Images::after_hold))]
pub fn hold(run: &mut RunState, by: u16, d: u8, id: u32)
    requires sound { IsSoundState run.old.state }
    requires may { IsTrue (spec.may_hold run.old.state by d id) }
    ensures { run.new ≡ record run.old { state = spec.after_hold run.old.state by d id } }
{
    write_in(&mut run.machine, d, id);
    run.image_mut(d).holder = Some(Holder { by, id });
}

/// Whether the pass has the image for this request.
fn is_holder(holder: Option<Holder>, by: u16, id: u32) -> bool
    ensures { result ≡ spec.is_holder by id holder }
{
    match holder {
        Some(holder) => holder.by == by && holder.id == id,
        None => false,
    }
}

/// Whether a worker may bring the image back.
#[tactic(auto, unfolding(crate::specs::Images::may_put))]
pub fn may_put(run: &RunState, by: u16, d: u8, id: u32) -> bool
    requires { IsSoundState run.now.state }
    ensures { result ≡ spec.may_put run.now.state by d id }
{
    run.machine.is_drive(d) && is_holder(run.image(d).holder, by, id)
}

/// The sector that the request of this id came to stands on the image, or is in doubt there.
fn note(image: &mut DiskImage, drive: &Drive, id: u32, ok: bool)
    requires may { IsTrue (words.some_request drive.now.queue id puts) }
    requires asked { All (λ (x : Entry). IsAsked (capacity_of drive.now.bytes) x.request) drive.now.queue.requests }
    requires small { length drive.now.bytes ≤ 2 ^ 30 }
    requires size { length image.old.bytes ≡ length drive.now.bytes }
    requires marks { length image.old.doubt ≡ capacity_of drive.now.bytes }
    ensures { image.new ≡ spec.request_put image.old drive.now.bytes (words.request_of drive.now.queue id) ok }
{
    drive.queue.is_sound();
    let k = place(&drive.queue, id);
    let (_, progress, request) = drive.queue.nth(k);
    if has_data(request) {
        let sector = request.start as usize + moved_of(progress) as usize;
        settle(image, &drive.bytes, sector, ok);
    }
}

/// The image comes back, and the sector that the request of this id came to stands on it, or is in doubt there.
fn bring_back(image: &mut DiskImage, drive: &Drive, id: u32, ok: bool)
    requires may { IsTrue (words.some_request drive.now.queue id puts) }
    requires asked { All (λ (x : Entry). IsAsked (capacity_of drive.now.bytes) x.request) drive.now.queue.requests }
    requires small { length drive.now.bytes ≤ 2 ^ 30 }
    requires size { length image.old.bytes ≡ length drive.now.bytes }
    requires marks { length image.old.doubt ≡ capacity_of drive.now.bytes }
    ensures { image.new ≡ spec.come_back (spec.request_put image.old drive.now.bytes (words.request_of drive.now.queue id) ok) }
{
    note(image, drive, id, ok);
    image.holder = None;
}

/// One more unit of the request of this id is done, or failed.
fn put_in(machine: &mut Machine, d: u8, id: u32, ok: bool)
    requires there { d < drive_count machine.old.state }
    requires may { IsTrue (words.some_request (drive_at machine.old.state d).queue id puts) }
    ensures { machine.new ≡ record machine.old { state = moved_on machine.old.state d id ok } }
{
    machine.drive_mut(d).queue.put(id, ok);
}

/// The image of a disk comes back, and whether the worker's call on it succeeded.
#[tactic(auto, unfolding(crate::specs::Images::may_put, crate::specs::Images::after_put))]
pub fn put(run: &mut RunState, by: u16, d: u8, id: u32, ok: bool)
    requires sound { IsSoundState run.old.state }
    requires may { IsTrue (spec.may_put run.old.state by d id) }
    ensures { run.new ≡ record run.old { state = spec.after_put run.old.state d id ok } }
{
    let drive = run.machine.drive(d);
    bring_back(run.images.at_mut(d as usize), drive, id, ok);
    put_in(&mut run.machine, d, id, ok);
}
