ghost use Rattle.std.specs.Prelude.{◌≡◌, ℕ, ◌+◌, ◌-◌, ◌*◌, ◌/◌, ◌%◌, ◌<◌, ◌≤◌, ◌++◌, Bool, false, length, take, drop, min, replicate, is_some, slice_index, slice_index_or, IfOk, OnOk, IfSome};
ghost use Rattle.vm_law.specs.Memory.{code_of, read_of, written};
ghost use Rattle.guest_ram.specs.GuestRam.{IsSize, IsSound, AbsentAreZero, Stand, loaded};

use crate::page::{PAGE_SIZE, Page};
use crate::places;
use std::alloc::Global;
use std::marker::Model;
use vm_law::{Bytes, FlatImage, OutOfMemory};

/// The memory of a guest, in pages of 4,096 bytes of which each is allocated at its first write.
///
/// Contracts see its bytes, how many of them are code (the first ones), which pages stand, and for how many more there is
/// room.
#[derive(Drop)]
pub struct GuestRam {
    places: Vec<Option<Page>>,
    code: u64,
    room: Vec<Page>,
}

impl Model for GuestRam {
    ghost use Rattle.guest_ram.specs.GuestRam.{Ram};
    ghost use Rattle.guest_ram.specs.Pages.{IsKept, ram_of};

    ghost Value = { Ram };

    ghost view = { λ r. ram_of r.places.items r.code r.room.items };

    ghost invariant = { λ r. IsKept r.places.items r.code r.room.items };
}

impl GuestRam {
    /// A memory of `size` bytes in which the image is loaded: its payload from address 0 on, and zeros behind it. Exactly
    /// the pages that hold a byte of the payload stand.
    ///
    /// `size` is from 1 MiB to 1 GiB and a multiple of 4,096, and neither the payload nor the code part is longer.
    pub fn new(alloc: Global, size: u64, image: &FlatImage) -> Result<GuestRam, OutOfMemory>
        requires size { IsSize size }
        requires payload { length image.now.payload ≤ size }
        requires code { image.now.code ≤ size }
        ensures memory { IfOk result (λ r. r.memory ≡ loaded size image.now) }
        ensures standing { IfOk result (λ r. Stand (replicate (size / 4096) false) r.standing 0 (length image.now.payload)) }
    {
        let places = places::loaded(alloc, size as usize / PAGE_SIZE, image.payload.as_slice())?;
        Ok(GuestRam {
            places,
            code: image.code,
            room: Vec::new(alloc),
        })
    }

    /// An equal memory, which takes memory for the pages that stand and has room for no more.
    pub fn copy(&self, alloc: Global) -> Result<GuestRam, OutOfMemory>
        ensures memory { IfOk result (λ r. r.memory ≡ self.now.memory) }
        ensures standing { IfOk result (λ r. r.standing ≡ self.now.standing) }
    {
        let places = places::copied(alloc, self.places.as_slice())?;
        Ok(GuestRam {
            places,
            code: self.code,
            room: Vec::new(alloc),
        })
    }

    /// The page of a number, counted from 0, or none where it is absent or past the end.
    pub fn page(&self, number: u32) -> Option<&[u8; 4096]>
        ensures stands { is_some result ≡ slice_index_or self.now.standing number false }
        ensures lends { IfSome result (λ page. page.now ≡ read_of self.now.memory (4096 * number) 4096) }
    {
        places::page(self.places.as_slice(), number as usize)
    }

    /// Makes room for at least so many pages. Nothing else changes, and no room is lost where memory ran out.
    pub fn reserve(&mut self, alloc: Global, pages: u32) -> Result<(), OutOfMemory>
        ensures memory { self.new.memory ≡ self.old.memory }
        ensures standing { self.new.standing ≡ self.old.standing }
        ensures ok { OnOk result (pages ≤ self.new.spare) }
        ensures kept { self.old.spare ≤ self.new.spare }
    {
        places::add_room(alloc, &mut self.room, pages as usize)
    }

    /// Copies the bytes of the code part from an address on, at most 15 of them and none behind the code part, and says
    /// how many there are. An instruction has at most 15 bytes (Intel SDM volume 2, section 2.3.11).
    pub fn fetch(&self, at: u64, into: &mut [u8; 15]) -> usize
        ensures count { result ≡ length (take 15 (drop at (code_of self.now.memory))) }
        ensures bytes { take result into.new ≡ take 15 (drop at (code_of self.now.memory)) }
    {
        if at >= self.code {
            return 0;
        }
        let count = (self.code - at).min(15) as usize;
        places::read(self.places.as_slice(), at as usize, &mut into[..count]);
        count
    }

    /// What holds of every guest memory: it has from 1 MiB to 1 GiB in whole pages, its code lies in it, each byte is
    /// one, and an absent page reads as zeros.
    pub fn is_sound(&self)
        ensures sound { IsSound self.now.memory }
        ensures bytes { (k : ℕ) → slice_index self.now.memory.bytes k < 256 }
        ensures pages { length self.now.standing * 4096 ≡ length self.now.memory.bytes }
        ensures absent { AbsentAreZero self.now }
    {
        let _places = &self.places;
    }
}

impl Bytes for GuestRam {
    ghost memory = { λ r. r.memory };

    ghost spare = { λ r. r.spare };

    #[inline(always)]
    fn size(&self) -> u64 {
        self.places.len() as u64 * PAGE_SIZE as u64
    }

    #[inline(always)]
    fn code(&self) -> u64 {
        self.code
    }

    #[inline(always)]
    fn read(&self, at: u64, into: &mut [u8]) {
        places::read(self.places.as_slice(), at as usize, into);
    }

    /// Besides what the trait says, exactly the pages that the piece touches stand afterwards that did not before.
    #[inline(always)]
    fn write(&mut self, at: u64, piece: &[u8])
        requires inside { at + length piece.now ≤ length self.old.memory.bytes }
        requires short { length piece.now ≤ 512 }
        requires room { 2 ≤ self.old.spare }
        ensures memory { self.new.memory ≡ written self.old.memory at piece.now }
        ensures room { self.old.spare ≤ self.new.spare + 2 }
        ensures standing { Stand self.old.standing self.new.standing at (length piece.now) }
    {
        places::write(&mut self.places, &mut self.room, at as usize, piece);
    }
}
