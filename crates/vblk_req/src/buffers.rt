ghost use Rattle.std.specs.Prelude.{◌≡◌, ◌≤◌, ◌<◌, ◌*◌, ◌^◌, length, map, not, ◌==◌, ◌%◌};
ghost use Rattle.std.specs.List.{sum_by, list_all};
ghost use Rattle.vblk_req.specs.Request as spec;

use arrayvec::ArrayVec;
use vm_law::{Descriptor, Segment};

/// VIRTQ_DESC_F_WRITE: the device writes the buffer, and else reads it.
const WRITE: u16 = 2;

/// How many bytes a sector has.
pub(crate) const SECTOR: u32 = 512;

/// Whether the device writes a descriptor's buffer.
pub(crate) fn is_writable(descriptor: &Descriptor) -> bool
    ensures { result ≡ spec.is_writable descriptor.now }
{
    descriptor.flags & WRITE != 0
}

/// Whether the device writes each of these buffers, or reads each.
pub(crate) fn all_go(buffers: &[Descriptor], writable: bool) -> bool
    ensures { result ≡ list_all (spec.goes writable) buffers.now }
{
    buffers
        .iter()
        .all(|descriptor| is_writable(descriptor) == writable)
}

/// Whether each of these buffers holds whole sectors.
pub(crate) fn all_whole(buffers: &[Descriptor]) -> bool
    ensures { result ≡ list_all spec.is_whole buffers.now }
{
    buffers
        .iter()
        .all(|descriptor| descriptor.len % SECTOR == 0)
}

/// How many bytes these buffers, of which there are at most 126, hold in all.
pub(crate) fn total(buffers: &[Descriptor]) -> u64
    requires { length buffers.now ≤ 126 }
    ensures { result ≡ sum_by spec.len_of buffers.now }
{
    let mut sum = 0;
    for descriptor in buffers {
        sum += u64::from(descriptor.len);
    }
    sum
}

/// The pieces of memory in these buffers, of which there are at most 126.
pub(crate) fn segments(buffers: &[Descriptor]) -> ArrayVec<Segment, 126>
    requires { length buffers.now ≤ 126 }
    ensures { result.items ≡ map spec.segment_of buffers.now }
{
    let mut segments = ArrayVec::new();
    for descriptor in buffers {
        segments.push(Segment {
            addr: descriptor.addr,
            len: descriptor.len,
        });
    }
    segments
}
