ghost use Rattle.std.specs.Prelude.{◌≡◌, ◌≢◌, ◌↔◌, ◌<◌, ◌≤◌, ◌+◌, ◌*◌, not, ◌==◌, IsTrue, length, is_some, IfSome, MatchOption};
ghost use Rattle.vq_ring.specs.Chain as spec;
ghost use Rattle.vq_ring.specs.Ring.{lies_in};

use crate::memory::{address, word_at};
use crate::ring::Ring;
use arrayvec::ArrayVec;
use byteorder::{ByteOrder, LittleEndian};
use vm_law::{Bytes, ChainList, Descriptor};

/// VIRTQ_DESC_F_NEXT: the link leads on.
const NEXT: u16 = 1;

/// VIRTQ_DESC_F_WRITE: the device writes the buffer, and else reads it.
const WRITE: u16 = 2;

/// VIRTQ_DESC_F_INDIRECT: the buffer is a table of descriptors.
const INDIRECT: u16 = 4;

/// What stands next on the available ring.
#[derive(PartialEq, Drop)]
pub enum Chain {
    /// Nothing: the driver made no more chains available than were taken.
    None,
    Good(ChainList),
    /// Something waits that is no chain.
    Bad,
}

/// An entry of the descriptor table.
#[derive(Clone, Copy)]
struct Entry {
    descriptor: Descriptor,
    next: u16,
}

/// The entry in 16 bytes.
fn entry_in(bytes: &[u8; 16]) -> Entry
    ensures { result ≡ record { descriptor = spec.descriptor_in bytes.now; next = spec.next_in bytes.now } }
{
    Entry {
        descriptor: Descriptor {
            addr: LittleEndian::read_u64(bytes),
            len: LittleEndian::read_u32(&bytes[8..]),
            flags: LittleEndian::read_u16(&bytes[12..]),
        },
        next: LittleEndian::read_u16(&bytes[14..]),
    }
}

/// The entry at a place of the descriptor table, which is in memory.
#[tactic(auto, unfolding(crate::specs::Chain::descriptor_at, crate::specs::Chain::next_of))]
fn entry_at<B: Bytes>(bytes: &B, ring: &Ring, place: u16) -> Entry
    requires { ring.now.desc + 16 * place + 16 ≤ length (B.memory bytes.now).bytes }
    ensures descriptor { result.descriptor ≡ spec.descriptor_at (B.memory bytes.now) ring.now place }
    ensures next { result.next ≡ spec.next_of (B.memory bytes.now) ring.now place }
{
    let mut entry = [0; 16];
    bytes.read(address(bytes, ring.desc, 16 * u64::from(place)), &mut entry);
    entry_in(&entry)
}

/// Whether the device can use a descriptor's buffer, over RAM of `ram` bytes, of which the first `code` are code.
#[tactic(auto, unfolding(crate::specs::Chain::is_usable))]
fn is_usable(descriptor: &Descriptor, code: u64, ram: u64) -> bool
    ensures { result ≡ spec.is_usable code ram descriptor.now }
{
    let len = u64::from(descriptor.len);
    descriptor.flags & INDIRECT == 0
        && len <= ram
        && descriptor.addr <= ram - len
        && (descriptor.flags & WRITE == 0 || len == 0 || code <= descriptor.addr)
}

/// The entry at a place where the links lead: `None` where it is past the table or can't be used.
fn linked<B: Bytes>(bytes: &B, ring: &Ring, place: u16) -> Option<Entry>
    requires { ring.now.desc + 16 * ring.now.size ≤ length (B.memory bytes.now).bytes }
    ensures usable { is_some result ≡ spec.is_link (B.memory bytes.now) ring.now place }
    ensures descriptor { IfSome result (λ e. e.descriptor ≡ spec.descriptor_at (B.memory bytes.now) ring.now place) }
    ensures next { IfSome result (λ e. e.next ≡ spec.next_of (B.memory bytes.now) ring.now place) }
{
    if place >= ring.size {
        return None;
    }
    let entry = entry_at(bytes, ring, place);
    if is_usable(&entry.descriptor, bytes.code(), bytes.size()) {
        Some(entry)
    } else {
        None
    }
}

/// The descriptors to which the links lead from a place, where they end and are no more than the queue has.
fn follow<B: Bytes>(bytes: &B, ring: &Ring, head: u16) -> Option<ArrayVec<Descriptor, 128>>
    requires table { ring.now.desc + 16 * ring.now.size ≤ length (B.memory bytes.now).bytes }
    requires size { ring.now.size ≤ 128 }
    ensures { MatchOption result
        (spec.chain_from (B.memory bytes.now) ring.now ring.now.size head ≡ None)
        (λ found. spec.chain_from (B.memory bytes.now) ring.now ring.now.size head ≡ Some found.items) }
{
    let mut found = ArrayVec::new();
    let mut place = head;
    for _step in 0..ring.size {
        let Some(entry) = linked(bytes, ring, place) else {
            return None;
        };
        found.push(entry.descriptor);
        if entry.descriptor.flags & NEXT == 0 {
            return Some(found);
        }
        place = entry.next;
    }
    None
}

/// Whether the driver made another chain available than were taken, of which there are `last` modulo 2^16.
#[tactic(auto, unfolding(crate::specs::Chain::next_chain), using(crate::proofs::Rings::lies))]
pub fn waits<B: Bytes>(bytes: &B, ring: &Ring, last: u16) -> bool
    requires { IsTrue (lies_in ring.now (B.memory bytes.now)) }
    ensures index { result ≡ not (spec.avail_index (B.memory bytes.now) ring.now == last) }
    ensures chain { IsTrue result ↔ (spec.next_chain (B.memory bytes.now) ring.now last ≢ Chain.None) }
{
    word_at(bytes, ring.avail, 2) != last
}

/// The chain that stands next, as the plain program says.
#[tactic(auto, unfolding(crate::specs::Chain::next_chain), using(crate::proofs::Rings::lies))]
fn chain_after<B: Bytes>(bytes: &B, ring: &Ring, last: u16) -> Chain
    requires { IsTrue (lies_in ring.now (B.memory bytes.now)) }
    ensures { result ≡ spec.next_chain (B.memory bytes.now) ring.now last }
{
    let waiting = word_at(bytes, ring.avail, 2).wrapping_sub(last);
    if waiting == 0 {
        return Chain::None;
    }
    if waiting > ring.size {
        return Chain::Bad;
    }
    let head = word_at(bytes, ring.avail, 4 + 2 * u64::from(last % ring.size));
    match follow(bytes, ring, head) {
        Some(descriptors) => Chain::Good(ChainList { head, descriptors }),
        None => Chain::Bad,
    }
}

/// The chain that stands next on the available ring, where `last` chains modulo 2^16 were taken before.
///
/// It is `None` where the ring's index is `last`. It is `Bad` where the index is ahead by more than the queue's size, or
/// where from the head no chain is reached: the links lead past the table or through more descriptors than it has, a
/// descriptor is indirect, a buffer isn't wholly in RAM, or one that is to be written touches the code.
///
/// Source: OASIS virtio 1.2, sections 2.7.5, 2.7.6 and 2.7.13.
pub fn next_chain<B: Bytes>(bytes: &B, ring: &Ring, last: u16) -> Chain
    requires { IsTrue (lies_in ring.now (B.memory bytes.now)) }
    ensures chain { spec.Tells (B.memory bytes.now) ring.now last result }
    ensures value { result ≡ spec.next_chain (B.memory bytes.now) ring.now last }
    ensures usable { spec.IfGood result (λ c. spec.AllUsable (B.memory bytes.now) c.descriptors.items) }
{
    chain_after(bytes, ring, last)
}
