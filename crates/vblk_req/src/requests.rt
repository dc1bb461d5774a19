ghost use Rattle.std.specs.Prelude.{◌≡◌, ◌≤◌, ◌<◌, ◌+◌, nat_lt, length};
ghost use Rattle.vblk_req.specs.Request as spec;

use crate::ask::Ask;
use crate::buffers::{SECTOR, all_go, all_whole, is_writable, segments, total};
use arrayvec::ArrayVec;
use byteorder::{ByteOrder, LittleEndian};
use vm_law::{ChainList, Descriptor, Kind, Request};

/// VIRTIO_BLK_T_IN, VIRTIO_BLK_T_OUT, VIRTIO_BLK_T_FLUSH: the types of requests.
const TYPE_IN: u32 = 0;

const TYPE_OUT: u32 = 1;

const TYPE_FLUSH: u32 = 4;

/// VIRTIO_BLK_S_OK, VIRTIO_BLK_S_IOERR, VIRTIO_BLK_S_UNSUPP: the statuses of answers.
const OK: u8 = 0;

const IOERR: u8 = 1;

const UNSUPP: u8 = 2;

/// How many sectors a request has at most.
const MOST: u64 = 8192;

/// The length of a request's header.
const HEADER: u32 = 16;

/// Whether a chain begins with a header that the device reads, and ends with a status byte that it writes.
#[tactic(auto, unfolding(crate::specs::Request::is_request))]
fn is_request(descriptors: &[Descriptor]) -> bool
    ensures { result ≡ spec.is_request descriptors.now }
{
    let count = descriptors.len();
    if count < 2 {
        return false;
    }
    let first = &descriptors[0];
    let last = &descriptors[count - 1];
    !is_writable(first) && first.len == HEADER && is_writable(last) && last.len == 1
}

/// Whether sectors from a first one on end past a disk's capacity.
fn is_past(sector: u64, count: u64, sectors: u64) -> bool
    ensures { result ≡ nat_lt sectors (sector + count) }
{
    count > sectors || sector > sectors - count
}

/// Whether a request to read or write is refused: its data doesn't go the right way, isn't whole sectors, is too much or
/// isn't inside the disk, or the disk is read-only.
#[tactic(auto, unfolding(crate::specs::Request::is_refused))]
fn is_refused(writes: bool, sector: u64, buffers: &[Descriptor], sectors: u64, ro: bool) -> bool
    requires { length buffers.now ≤ 126 }
    ensures { result ≡ spec.is_refused writes sector buffers.now sectors ro }
{
    let count = total(buffers) / u64::from(SECTOR);
    !all_go(buffers, !writes)
        || !all_whole(buffers)
        || count > MOST
        || is_past(sector, count, sectors)
        || writes && ro
}

/// What a chain that reads or writes from a sector on asks for.
#[tactic(auto, unfolding(crate::specs::Request::transfer, crate::specs::Request::is_refused))]
fn transfer(chain: &ChainList, writes: bool, sector: u64, sectors: u64, ro: bool) -> Ask
    requires { 2 ≤ length chain.now.descriptors.items }
    ensures { result
        ≡ (let ds = chain.now.descriptors.items in spec.transfer chain.now.head (spec.status_of ds).addr writes sector (spec.data_of ds) sectors ro) }
{
    let descriptors = chain.descriptors.as_slice();
    let last = descriptors.len() - 1;
    let status_at = descriptors[last].addr;
    let buffers = &descriptors[1..last];
    if is_refused(writes, sector, buffers, sectors, ro) {
        return Ask::Answer {
            status: IOERR,
            at: status_at,
        };
    }
    let count = total(buffers) / u64::from(SECTOR);
    if count == 0 {
        return Ask::Answer {
            status: OK,
            at: status_at,
        };
    }
    Ask::Accept(Request {
        kind: if writes { Kind::Write } else { Kind::Read },
        head: chain.head,
        status_at,
        start: sector,
        count: count as u32,
        segments: segments(buffers),
    })
}

/// What a chain asks for, with the status byte at an address.
#[tactic(auto, unfolding(crate::specs::Request::asked, crate::specs::Request::is_request))]
fn asked(chain: &ChainList, header: &[u8; 16], sectors: u64, ro: bool) -> Ask
    ensures { result ≡ spec.asked chain.now.head chain.now.descriptors.items header.now sectors ro }
{
    let descriptors = chain.descriptors.as_slice();
    if !is_request(descriptors) {
        return Ask::Bad;
    }
    let status_at = descriptors[descriptors.len() - 1].addr;
    let sector = LittleEndian::read_u64(&header[8..]);
    match LittleEndian::read_u32(header) {
        TYPE_IN => transfer(chain, false, sector, sectors, ro),
        TYPE_OUT => transfer(chain, true, sector, sectors, ro),
        TYPE_FLUSH => Ask::Accept(flush(chain.head, status_at)),
        _ => Ask::Answer {
            status: UNSUPP,
            at: status_at,
        },
    }
}

/// A request to flush.
fn flush(head: u16, status_at: u64) -> Request
    ensures { result ≡ spec.flush head status_at }
{
    Request {
        kind: Kind::Flush,
        head,
        status_at,
        start: 0,
        count: 1,
        segments: ArrayVec::new(),
    }
}

/// What a chain asks for on a disk of `sectors` sectors, by the 16 bytes of its header.
///
/// It is tried in this order. `Bad`: the chain has no header that the device reads, or no status byte that it writes.
/// `Answer` with status 2: the type is none of read, write and flush. A flush is accepted. `Answer` with status 1: the
/// data doesn't all go the right way, a buffer isn't whole sectors, there are more than 8,192 of them or they end past the
/// disk, or the disk is read-only and the request writes. `Answer` with status 0: no sector is asked for. Else the request
/// is accepted.
///
/// Source: OASIS virtio 1.2, section 5.2.6.
pub fn request(chain: &ChainList, header: &[u8; 16], sectors: u64, ro: bool) -> Ask
    ensures value { result ≡ spec.asked chain.now.head chain.now.descriptors.items header.now sectors ro }
    ensures sound { spec.IfAccept result (spec.IsSound sectors) }
{
    asked(chain, header, sectors, ro)
}
