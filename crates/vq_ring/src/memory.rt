ghost use Rattle.std.specs.Prelude.{◌≡◌, ◌≤◌, ◌+◌, length};
ghost use Rattle.vq_ring.specs.Chain.{word_at};

use byteorder::{ByteOrder, LittleEndian};
use vm_law::Bytes;

/// The address at an offset from another one. It is in memory, whose size fits 64 bits, so the sum does not wrap.
pub(crate) fn address<B: Bytes>(bytes: &B, base: u64, offset: u64) -> u64
    requires { base + offset ≤ length (B.memory bytes.now).bytes }
    ensures { result ≡ base + offset }
{
    let _size = bytes.size();
    base + offset
}

/// The number in the two bytes at an offset from an address.
pub(crate) fn word_at<B: Bytes>(bytes: &B, base: u64, offset: u64) -> u16
    requires { base + offset + 2 ≤ length (B.memory bytes.now).bytes }
    ensures { result ≡ word_at (B.memory bytes.now) (base + offset) }
{
    let mut word = [0; 2];
    bytes.read(address(bytes, base, offset), &mut word);
    LittleEndian::read_u16(&word)
}
