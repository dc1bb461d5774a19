ghost use Rattle.std.specs.Prelude.{◌≡◌, ℕ, ◌+◌, ◌-◌, ◌<◌, ◌≤◌, ◌++◌, length, take, drop, replicate, slice_index, IfOk};
ghost use Rattle.guest_ram.specs.Pages.{zero_page, written_in};

use std::alloc::Global;
use std::marker::Model;
use vm_law::OutOfMemory;

/// How many bytes a page has.
pub const PAGE_SIZE: usize = 4096;

/// A page of memory that stands. Contracts see its 4,096 bytes.
#[derive(Drop)]
pub struct Page {
    bytes: Box<[u8; 4096]>,
}

impl Model for Page {
    ghost use Rattle.std.specs.Prelude.{List, ℕ};
    ghost use Rattle.std.specs.Coded.{coded_list, coded_ℕ};

    ghost Value = { List ℕ };

    ghost coded = { coded_list coded_ℕ };

    ghost view = { λ p. p.bytes.value };
}

impl Page {
    /// A page of zeros.
    pub fn zeroed(alloc: Global) -> Result<Page, OutOfMemory>
        ensures { IfOk result (λ p. p ≡ zero_page) }
    {
        let bytes = Box::new(alloc, [0; 4096])?;
        Ok(Page { bytes })
    }

    /// An equal page.
    pub fn copy(&self, alloc: Global) -> Result<Page, OutOfMemory>
        ensures { IfOk result (λ p. p ≡ self.now) }
    {
        let bytes = Box::new(alloc, *self.bytes)?;
        Ok(Page { bytes })
    }

    /// Its bytes.
    #[inline(always)]
    pub fn bytes(&self) -> &[u8; 4096]
        ensures value { result.now ≡ self.now }
        ensures size { length self.now ≡ 4096 }
        ensures bytes { (k : ℕ) → slice_index self.now k < 256 }
    {
        let bytes = &*self.bytes;
        are_bytes(bytes);
        bytes
    }

    /// Writes a piece over the bytes from an offset on.
    #[inline(always)]
    pub fn write(&mut self, offset: usize, piece: &[u8])
        requires { offset + length piece.now ≤ 4096 }
        ensures { self.new ≡ written_in self.old offset piece.now }
    {
        let bytes = &mut *self.bytes;
        bytes[offset..offset + piece.len()].copy_from_slice(piece);
    }
}

/// Each byte of a slice is below 256.
#[inline(always)]
pub fn are_bytes(bytes: &[u8])
    ensures { (k : ℕ) → slice_index bytes.now k < 256 }
{
    let _len = bytes.len();
}
