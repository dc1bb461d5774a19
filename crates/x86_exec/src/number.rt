//! Numbers in memory, their lowest byte first.
ghost use Rattle.std.specs.Prelude.{◌≡◌, ◌<◌, ◌≤◌, ◌+◌, ◌*◌, ◌^◌, length};
ghost use Rattle.byteorder.specs.Endian.{little_number, little_bytes};
ghost use Rattle.x86_op.specs.Access.{IsLength};
ghost use Rattle.vm_law.specs.Memory.{read_of, written};

use byteorder::{ByteOrder, LittleEndian};
use vm_law::Bytes;

#[inline(always)]
fn load_u16<B: Bytes>(bytes: &B, at: u64) -> u16
    requires { at + 2 ≤ length (B.memory bytes.now).bytes }
    ensures { result ≡ little_number 2 (read_of (B.memory bytes.now) at 2) }
{
    let mut piece = [0; 2];
    bytes.read(at, &mut piece);
    LittleEndian::read_u16(&piece)
}

#[inline(always)]
fn load_u32<B: Bytes>(bytes: &B, at: u64) -> u32
    requires { at + 4 ≤ length (B.memory bytes.now).bytes }
    ensures { result ≡ little_number 4 (read_of (B.memory bytes.now) at 4) }
{
    let mut piece = [0; 4];
    bytes.read(at, &mut piece);
    LittleEndian::read_u32(&piece)
}

#[inline(always)]
fn load_u64<B: Bytes>(bytes: &B, at: u64) -> u64
    requires { at + 8 ≤ length (B.memory bytes.now).bytes }
    ensures { result ≡ little_number 8 (read_of (B.memory bytes.now) at 8) }
{
    let mut piece = [0; 8];
    bytes.read(at, &mut piece);
    LittleEndian::read_u64(&piece)
}

#[inline(always)]
fn load_u8<B: Bytes>(bytes: &B, at: u64) -> u8
    requires { at + 1 ≤ length (B.memory bytes.now).bytes }
    ensures { result ≡ little_number 1 (read_of (B.memory bytes.now) at 1) }
{
    let mut piece = [0; 1];
    bytes.read(at, &mut piece);
    piece[0]
}

/// The number of 1, 2, 4 or 8 bytes at an address.
#[inline(always)]
pub(crate) fn load<B: Bytes>(bytes: &B, at: u64, len: u8) -> u64
    requires length { IsLength len }
    requires inside { at + len ≤ length (B.memory bytes.now).bytes }
    ensures { result ≡ little_number len (read_of (B.memory bytes.now) at len) }
{
    match len {
        1 => u64::from(load_u8(bytes, at)),
        2 => u64::from(load_u16(bytes, at)),
        4 => u64::from(load_u32(bytes, at)),
        _ => load_u64(bytes, at),
    }
}

/// Writes the lowest 1, 2, 4 or 8 bytes of a number to an address.
#[inline(always)]
pub(crate) fn store<B: Bytes>(bytes: &mut B, at: u64, len: u8, number: u64)
    requires length { IsLength len }
    requires inside { at + len ≤ length (B.memory bytes.old).bytes }
    requires room { 2 ≤ B.spare bytes.old }
    ensures memory { B.memory bytes.new ≡ written (B.memory bytes.old) at (little_bytes len number) }
    ensures room { B.spare bytes.old ≤ B.spare bytes.new + 2 }
{
    let piece = number.to_le_bytes();
    match len {
        1 => bytes.write(at, &piece[..1]),
        2 => bytes.write(at, &piece[..2]),
        4 => bytes.write(at, &piece[..4]),
        _ => bytes.write(at, &piece),
    }
}
