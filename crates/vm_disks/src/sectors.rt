//! The sectors of a request, of 512 bytes each: on the disk, and in the guest's memory.
ghost use Rattle.std.specs.Prelude.{◌≡◌, ◌+◌, ◌*◌, ◌%◌, ◌^◌, ◌<◌, ◌≤◌, ◌==◌, true, false, not, length};
ghost use Rattle.std.specs.List.{All, list_all};
ghost use Rattle.blk_queue.specs.Progress as far;
ghost use Rattle.vblk_req.specs.Request.{IsSound as IsAsked};
ghost use Rattle.vm_law.specs.Memory.{read_of, written};
ghost use Rattle.vm_law.specs.declared.block.Segment.{Segment as Piece};
ghost use Rattle.vm_state.specs.Requests as spec;
ghost use Rattle.vm_state.specs.Sound.{IsWhole};
ghost use Rattle.vm_vblk.specs.Queue.{Fits};
ghost use Rattle.vm_disks.specs.Images as images;

use blk_queue::Progress;
use vm_law::{Bytes, Kind, Request, Segment, Seq};
use vm_state::DiskImage;
use x86_fetch::CachedRam;

/// The bytes of a sector.
const SECTOR: usize = 512;

/// How many units of the request are moved.
pub(crate) fn moved_of(progress: Progress) -> u32
    ensures { result ≡ far.moved_of progress }
{
    match progress {
        Progress::Busy { moved, .. } => moved,
        _ => 0,
    }
}

/// Whether the request moves sectors: it is no flush.
pub(crate) fn has_data(request: &Request) -> bool
    ensures { result ≡ not (far.is_flush request.now) }
{
    request.kind != Kind::Flush
}

/// Where in memory sector `k` of these segments is, counted from 0. They are laid end to end, and are whole sectors each.
fn address_in(segments: &[Segment], k: u32) -> u64
    requires pieces { All (λ (s : Piece). s.addr + s.len ≤ 2 ^ 30) segments.now }
    requires whole { list_all (λ (s : Piece). s.len % 512 == 0) segments.now ≡ true }
    ensures { result ≡ spec.address_in segments.now k }
{
    let mut left = 512 * u64::from(k);
    for segment in segments {
        let len = u64::from(segment.len);
        if left < len {
            return segment.addr + left;
        }
        left -= len;
    }
    0
}

/// The place on the disk of the sector that comes when `moved` are moved, in bytes.
fn byte_of(request: &Request, moved: u32) -> usize
    requires { request.now.start + moved < 2 ^ 32 }
    ensures { result ≡ 512 * (request.now.start + moved) }
{
    SECTOR * (request.start as usize + moved as usize)
}

/// The next sector of a read goes from the disk to memory, when `moved` are moved. It takes room for two pages.
pub(crate) fn read_in(ram: &mut CachedRam, disk: &Seq<u8>, request: &Request, moved: u32)
    requires asked { IsAsked (spec.capacity_of disk.now) request.now }
    requires fits { Fits ram.old.memory request.now }
    requires whole { IsWhole request.now }
    requires read { far.is_read request.now ≡ true }
    requires more { moved < request.now.count }
    requires small { length disk.now ≤ 2 ^ 30 }
    requires room { 2 ≤ ram.old.spare }
    ensures memory { ram.new.memory ≡ written ram.old.memory (spec.address_in request.now.segments.items moved) (spec.sector_of disk.now (request.now.start + moved)) }
    ensures spare { ram.old.spare ≤ ram.new.spare + 2 }
{
    ram.is_sound();
    let at = byte_of(request, moved);
    let address = address_in(request.segments.as_slice(), moved);
    ram.write(address, &disk.as_slice()[at..at + SECTOR]);
}

/// The next sector of a write goes from memory to the disk, when `moved` are moved.
pub(crate) fn write_out(ram: &CachedRam, disk: &mut Seq<u8>, request: &Request, moved: u32)
    requires asked { IsAsked (spec.capacity_of disk.old) request.now }
    requires fits { Fits ram.now.memory request.now }
    requires whole { IsWhole request.now }
    requires sectors { far.is_flush request.now ≡ false }
    requires more { moved < request.now.count }
    requires small { length disk.old ≤ 2 ^ 30 }
    ensures { disk.new ≡ spec.with_sector disk.old (request.now.start + moved) (read_of ram.now.memory (spec.address_in request.now.segments.items moved) 512) }
{
    ram.is_sound();
    let at = byte_of(request, moved);
    let address = address_in(request.segments.as_slice(), moved);
    let mut sector = [0; SECTOR];
    ram.read(address, &mut sector);
    disk.write_at(at, &sector);
}

/// A sector that the outside wrote stands on the image as on the disk; one that it couldn't write is in doubt there.
pub(crate) fn settle(image: &mut DiskImage, disk: &Seq<u8>, sector: usize, ok: bool)
    requires disk { 512 * sector + 512 ≤ length disk.now }
    requires image { 512 * sector + 512 ≤ length image.old.bytes }
    requires mark { sector < length image.old.doubt }
    requires small { length disk.now ≤ 2 ^ 30 }
    ensures { image.new ≡ images.sector_put image.old disk.now sector ok }
{
    if ok {
        let at = SECTOR * sector;
        image.bytes.write_at(at, &disk.as_slice()[at..at + SECTOR]);
        image.doubt.set(sector, false);
    } else {
        image.doubt.set(sector, true);
    }
}
