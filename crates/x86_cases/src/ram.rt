ghost use Rattle.std.specs.Prelude.{◌≡◌, ◌≤◌, length};

use std::alloc::{AllocError, Global};
use vm_law::Bytes;

/// How many bytes memory has.
pub const SIZE: u64 = 0x10_0000;

/// How many of them are code.
pub const CODE: u64 = 0x3000;

/// The memory of a case: flat, so that there is room for every page.
#[derive(Drop)]
pub struct Ram {
    bytes: Vec<u8>,
    /// From the first byte that was written up to behind the last one.
    from: usize,
    to: usize,
}

impl Bytes for Ram {
    ghost use Rattle.vm_law.specs.Memory.{Memory};
    ghost use Rattle.x86_cases.specs.declared.ram.TheConstants.{CODE};

    ghost memory = { λ r. record { bytes = r.bytes.items; code = CODE } };

    ghost spare = { λ _. 2 };

    fn size(&self) -> u64 {
        self.bytes.len() as u64
    }

    fn code(&self) -> u64 {
        CODE
    }

    fn read(&self, at: u64, into: &mut [u8]) {
        let at = at as usize;
        into.copy_from_slice(&self.bytes[at..at + into.len()]);
    }

    fn write(&mut self, at: u64, piece: &[u8]) {
        let at = at as usize;
        self.bytes[at..at + piece.len()].copy_from_slice(piece);
        self.from = self.from.min(at);
        self.to = self.to.max(at + piece.len());
    }
}

impl Ram {
    /// The memory of a case that names none: code, each byte of it the low byte of its address, and zeros.
    pub fn blank(alloc: Global) -> Result<Ram, AllocError> {
        let mut bytes = vec![in alloc; 0; SIZE as usize]?;
        for (place, byte) in bytes.iter_mut().enumerate() {
            if place < CODE as usize {
                *byte = (place & 0xFF) as u8;
            }
        }
        Ok(Ram {
            bytes,
            from: SIZE as usize,
            to: 0,
        })
    }

    /// Puts bytes into memory, where they fit.
    pub fn load(&mut self, at: u64, piece: &[u8]) {
        let len = piece.len() as u64;
        if at <= self.size() && len <= self.size() - at && len <= 512 {
            self.write(at, piece);
        }
    }

    /// Makes every byte what it is in another memory of as many bytes, if it was written.
    pub fn reset(&mut self, first: &Ram) {
        let (from, to) = (self.from, self.to);
        if from <= to && to <= self.bytes.len() && to <= first.bytes.len() {
            self.bytes[from..to].copy_from_slice(&first.bytes[from..to]);
        }
        self.from = self.bytes.len();
        self.to = 0;
    }
}
