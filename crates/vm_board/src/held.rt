//! The sector for which an image is taken.
ghost use Rattle.std.specs.Prelude.{◌≡◌, ◌<◌, ◌+◌, ◌*◌, ◌^◌, ◌≤◌, true, false, length, Some, None, if◌then◌else◌};
ghost use Rattle.blk_queue.specs.Progress as far;
ghost use Rattle.vm_state.specs.Machine.{drive_count};
ghost use Rattle.vm_disks.specs.Images.{is_holder};
ghost use Rattle.vm_state.specs.State.{image_at};
ghost use Rattle.vm_state.specs.Requests as words;
ghost use Rattle.vm_board.specs.Homes as spec;

use blk_queue::Progress;
use vm_law::{Kind, Request};
use vm_table::Run;

/// The bytes of a sector.
const SECTOR: usize = 512;

/// How many units of a request are moved.
fn moved_of(progress: Progress) -> u32
    ensures { result ≡ far.moved_of progress }
{
    match progress {
        Progress::Busy { moved, .. } => moved,
        _ => 0,
    }
}

/// A sector of a disk.
fn sector_at(bytes: &[u8], sector: usize) -> [u8; 512]
    requires { 512 * sector + 512 ≤ length bytes.now }
    ensures { result ≡ words.sector_of bytes.now sector }
{
    let mut piece = [0; SECTOR];
    piece.copy_from_slice(&bytes[SECTOR * sector..SECTOR * sector + SECTOR]);
    piece
}

/// The next sector of a write when so much of it is moved, or none for a flush.
fn held_in(bytes: &[u8], progress: Progress, request: &Request) -> Option<(u64, [u8; 512])>
    requires inside { far.is_flush request.now ≡ false → 512 * (request.now.start + far.moved_of progress) + 512 ≤ length bytes.now }
    requires small { length bytes.now ≤ 2 ^ 30 }
    ensures { result ≡ (if far.is_flush request.now then None
        else Some (request.now.start + far.moved_of progress, words.sector_of bytes.now (request.now.start + far.moved_of progress))) }
{
    if request.kind == Kind::Flush {
        return None;
    }
    let sector = u64::from(request.start) + u64::from(moved_of(progress));
    Some((sector, sector_at(bytes, sector as usize)))
}

/// The sector of the request for which a pass has the image of a disk, and its bytes; none for a flush.
pub(crate) fn held_sector(run: &Run, by: u16, disk: u8, id: u32) -> Option<(u64, [u8; 512])>
    requires there { disk < drive_count run.now.state.machine }
    requires held { is_holder by id (image_at run.now.state disk).holder ≡ true }
    ensures { result ≡ spec.held_sector run.now.state disk id }
{
    run.is_sound();
    let drive = run.drive(disk);
    for k in 0..drive.queue.count() {
        let (other, progress, request) = drive.queue.nth(k);
        if other == id {
            return held_in(drive.bytes.as_slice(), progress, request);
        }
    }
    None
}
