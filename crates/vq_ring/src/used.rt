ghost use Rattle.std.specs.Prelude.{◌≡◌, ◌<◌, ◌≤◌, ◌+◌, ◌*◌, IsTrue, length};
ghost use Rattle.byteorder.specs.Endian.{little_bytes};
ghost use Rattle.vm_law.specs.Memory.{KeepsCode};
ghost use Rattle.vq_ring.specs.Ring.{lies_in};
ghost use Rattle.vq_ring.specs.Used as spec;

use crate::memory::{address, word_at};
use crate::ring::Ring;
use byteorder::{ByteOrder, LittleEndian};
use vm_law::Bytes;

/// VIRTQ_AVAIL_F_NO_INTERRUPT: the driver wants no interrupt when chains are used.
const NO_INTERRUPT: u16 = 1;

/// Whether the driver wants an interrupt when a chain is used.
///
/// Source: OASIS virtio 1.2, section 2.7.7.
#[tactic(auto, using(crate::proofs::Rings::lies))]
pub fn wants_interrupt<B: Bytes>(bytes: &B, ring: &Ring) -> bool
    requires { IsTrue (lies_in ring.now (B.memory bytes.now)) }
    ensures { result ≡ spec.wants_interrupt (B.memory bytes.now) ring.now }
{
    word_at(bytes, ring.avail, 0) & NO_INTERRUPT == 0
}

/// The bytes of an element of the used ring.
fn element(head: u16, len: u32) -> [u8; 8]
    ensures { result ≡ spec.used_element head len }
{
    let mut bytes = [0; 8];
    LittleEndian::write_u32(&mut bytes, u32::from(head));
    LittleEndian::write_u32(&mut bytes[4..], len);
    bytes
}

/// The two bytes of the ring's index.
fn index_bytes(index: u16) -> [u8; 2]
    ensures { result ≡ little_bytes 2 index }
{
    let mut bytes = [0; 2];
    LittleEndian::write_u16(&mut bytes, index);
    bytes
}

/// Hands the chain with this head back on the used ring, as the one that comes after `used` others modulo 2^16. `len`
/// bytes were written into its buffers. The element is written first, and then the ring's index. There is to be room for
/// four pages.
///
/// Source: OASIS virtio 1.2, section 2.7.8.
#[tactic(auto, unfolding(crate::specs::Used::with_used), using(crate::proofs::Writes::writes, crate::proofs::Rings::lies))]
pub fn push_used<B: Bytes>(bytes: &mut B, ring: &Ring, used: u16, head: u16, len: u32)
    requires ring { IsTrue (lies_in ring.now (B.memory bytes.old)) }
    requires room { 4 ≤ B.spare bytes.old }
    ensures memory { B.memory bytes.new ≡ spec.with_used (B.memory bytes.old) ring.now used head len }
    ensures kept { KeepsCode (B.memory bytes.old) (B.memory bytes.new) }
    ensures room { B.spare bytes.old ≤ B.spare bytes.new + 4 }
{
    let entry = address(bytes, ring.used, 4 + 8 * u64::from(used % ring.size));
    let index = address(bytes, ring.used, 2);
    bytes.write(entry, &element(head, len));
    bytes.write(index, &index_bytes(used.wrapping_add(1)));
}
