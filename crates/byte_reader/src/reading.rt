ghost use Rattle.std.specs.Prelude.{◌≡◌, ◌-◌, length, take, drop};
ghost use Rattle.byte_reader.specs.Reader.{Gives, number, some_bytes};

use byteorder::{ByteOrder, LittleEndian};
use std::alloc::{AllocError, AllocFailed};
use vm_law::OutOfMemory;

/// Why bytes were refused, and how many of them were left at the place of the fault.
#[derive(Clone, Copy, Debug, PartialEq, Eq)]
pub struct Refusal<K> {
    pub left: usize,
    pub kind: K,
}

/// What a reader of bytes answers where it gives no value. `K` are the kinds of a grammar's faults.
#[derive(Debug, Drop)]
pub enum ReadError<K: Drop> {
    Memory,
    Refused(Refusal<K>),
}

impl<K: Drop> From<AllocError> for ReadError<K> {
    ghost use Rattle.byte_reader.specs.declared.reading.ReadError.TheVariants.{Memory};

    ghost from_gives = { λ _ e. e ≡ Memory };

    fn from(_error: AllocError) -> ReadError<K> {
        ReadError::Memory
    }
}

impl<K: Drop> From<OutOfMemory> for ReadError<K> {
    ghost use Rattle.byte_reader.specs.declared.reading.ReadError.TheVariants.{Memory};

    ghost from_gives = { λ _ e. e ≡ Memory };

    fn from(_error: OutOfMemory) -> ReadError<K> {
        ReadError::Memory
    }
}

impl<T: Drop, K: Drop> From<AllocFailed<T>> for ReadError<K> {
    ghost use Rattle.byte_reader.specs.declared.reading.ReadError.TheVariants.{Memory};

    ghost from_gives = { λ _ e. e ≡ Memory };

    fn from(_error: AllocFailed<T>) -> ReadError<K> {
        ReadError::Memory
    }
}

/// The fault at the first of these bytes.
pub fn refused<K: Copy>(kind: K, bytes: &[u8]) -> ReadError<K>
    ensures { result ≡ ReadError.Refused (record { left = length bytes.now; kind = kind }) }
{
    ReadError::Refused(Refusal {
        left: bytes.len(),
        kind,
    })
}

/// Reads a byte. Where there is none, `short` is the fault.
pub fn read_u8<K: Copy>(short: K, bytes: &[u8]) -> Result<(u8, &[u8]), ReadError<K>>
    ensures { Gives (λ x. (x.0, x.1.now)) result (number short 1 bytes.now) }
{
    match bytes {
        [] => Err(refused(short, bytes)),
        [first, rest @ ..] => Ok((*first, rest)),
    }
}

/// Reads a number of two bytes, the lowest first.
pub fn read_u16<K: Copy>(short: K, bytes: &[u8]) -> Result<(u16, &[u8]), ReadError<K>>
    ensures { Gives (λ x. (x.0, x.1.now)) result (number short 2 bytes.now) }
{
    if bytes.len() < 2 {
        return Err(refused(short, bytes));
    }
    Ok((LittleEndian::read_u16(bytes), &bytes[2..]))
}

/// Reads a number of four bytes, the lowest first.
pub fn read_u32<K: Copy>(short: K, bytes: &[u8]) -> Result<(u32, &[u8]), ReadError<K>>
    ensures { Gives (λ x. (x.0, x.1.now)) result (number short 4 bytes.now) }
{
    if bytes.len() < 4 {
        return Err(refused(short, bytes));
    }
    Ok((LittleEndian::read_u32(bytes), &bytes[4..]))
}

/// Reads a number of eight bytes, the lowest first.
pub fn read_u64<K: Copy>(short: K, bytes: &[u8]) -> Result<(u64, &[u8]), ReadError<K>>
    ensures { Gives (λ x. (x.0, x.1.now)) result (number short 8 bytes.now) }
{
    if bytes.len() < 8 {
        return Err(refused(short, bytes));
    }
    Ok((LittleEndian::read_u64(bytes), &bytes[8..]))
}

/// Reads so many bytes as they stand.
pub fn read_bytes<K: Copy>(
    short: K,
    count: usize,
    bytes: &[u8],
) -> Result<(&[u8], &[u8]), ReadError<K>>
    ensures { Gives (λ x. (x.0.now, x.1.now)) result (some_bytes short count bytes.now) }
{
    if bytes.len() < count {
        return Err(refused(short, bytes));
    }
    Ok((&bytes[..count], &bytes[count..]))
}
