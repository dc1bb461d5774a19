use std::alloc::{AllocError, Global};
use vm_law::Bytes;

/// How many bytes memory has.
const SIZE: usize = 0x2_0000;

/// How many of them are code.
const CODE: u64 = 0x1000;

/// The memory of a case.
#[derive(Drop)]
pub struct Ram {
    bytes: Vec<u8>,
}

impl Ram {
    /// Memory that is all 0.
    pub fn new(alloc: Global) -> Result<Ram, AllocError> {
        Ok(Ram {
            bytes: vec![in alloc; 0; SIZE]?,
        })
    }

    /// The bytes at a range, where it is in memory.
    pub fn piece(&self, at: u64, len: u64) -> Option<&[u8]> {
        let end = at.checked_add(len)?;
        self.bytes
            .as_slice()
            .get(usize::try_from(at).ok()?..usize::try_from(end).ok()?)
    }
}

impl Bytes for Ram {
    ghost use Rattle.vblk_cases.specs.declared.ram.TheConstants.{CODE};

    ghost memory = { λ r. record { bytes = r.bytes.items; code = CODE } };

    ghost spare = { λ _. 6 };

    fn size(&self) -> u64 {
        self.bytes.len() as u64
    }

    fn code(&self) -> u64 {
        CODE
    }

    fn read(&self, at: u64, into: &mut [u8]) {
        let at = at as usize;
        into.copy_from_slice(&self.bytes[at..at + into.len()]);
    }

    fn write(&mut self, at: u64, piece: &[u8]) {
        let at = at as usize;
        self.bytes[at..at + piece.len()].copy_from_slice(piece);
    }
}
