//! Guest memory that decodes each instruction of its code once.
ghost use Rattle.std.specs.Prelude.{◌≡◌, ℕ, ◌+◌, ◌*◌, ◌/◌, ◌^◌, ◌<◌, ◌≤◌, false, length, replicate, is_some, slice_index, slice_index_or, IfOk, OnErr, OnOk, IfSome};
ghost use Rattle.vm_law.specs.Memory.{KeepsSize, Memory, code_of, read_of, written};
ghost use Rattle.guest_ram.specs.GuestRam.{IsSize, IsSound, AbsentAreZero, Stand, loaded};
ghost use Rattle.x86_fetch.specs.Fetching as fetching_spec;
ghost use Rattle.x86_fetch.specs.Kept.{AreKept};
ghost use Rattle.x86_fetch.specs.Sharing.{IsNextDoneAs};
ghost use Rattle.x86_fetch.specs.Slices as spec;
ghost use Rattle.x86_exec.specs.Kept.{IsDoneAs, Stores};
ghost use Rattle.x86_exec.specs.Shared.{attempted};

use crate::fetching::{self, Next};
use crate::slices;
use crate::table::Table;
use guest_ram::{GuestRam, writes_keep_code};
use std::alloc::Global;
use std::marker::Model;
use vm_law::{Bytes, Ctx, FlatImage, Insn, OutOfMemory};
use x86_exec::{NotDone, Stored, perform_done};

/// The memory of a guest, with a table of the instructions that were decoded in its code.
///
/// Contracts see what they see of a [`GuestRam`]; each instruction that is kept is what the code decodes as at its address.
#[derive(Drop)]
pub struct CachedRam {
    ram: GuestRam,
    table: Table,
}

impl Model for CachedRam {
    ghost use Rattle.guest_ram.specs.GuestRam.{Ram};
    ghost use Rattle.vm_law.specs.Memory.{code_of};
    ghost use Rattle.x86_fetch.specs.Kept.{AreKept};

    ghost Value = { Ram };

    ghost view = { λ r. r.ram };

    ghost invariant = { λ r. AreKept (code_of r.ram.memory) r.table };
}

impl CachedRam {
    /// A memory of `size` bytes in which the image is loaded: its payload from address 0 on, and zeros behind it. Exactly
    /// the pages that hold a byte of the payload stand.
    ///
    /// `size` is from 1 MiB to 1 GiB and a multiple of 4,096, and neither the payload nor the code part is longer.
    pub fn new(alloc: Global, size: u64, image: &FlatImage) -> Result<CachedRam, OutOfMemory>
        requires size { IsSize size }
        requires payload { length image.now.payload ≤ size }
        requires code { image.now.code ≤ size }
        ensures memory { IfOk result (λ r. r.memory ≡ loaded size image.now) }
        ensures standing { IfOk result (λ r. Stand (replicate (size / 4096) false) r.standing 0 (length image.now.payload)) }
    {
        let ram = GuestRam::new(alloc, size, image)?;
        let table = Table::new(alloc)?;
        Ok(CachedRam { ram, table })
    }

    /// An equal memory, which takes memory for the pages that stand and has room for no more. It keeps no instruction yet.
    pub fn copy(&self, alloc: Global) -> Result<CachedRam, OutOfMemory>
        ensures memory { IfOk result (λ r. r.memory ≡ self.now.memory) }
        ensures standing { IfOk result (λ r. r.standing ≡ self.now.standing) }
    {
        let ram = self.ram.copy(alloc)?;
        let table = Table::new(alloc)?;
        Ok(CachedRam { ram, table })
    }

    /// The page of a number, counted from 0, or none where it is absent or past the end.
    pub fn page(&self, number: u32) -> Option<&[u8; 4096]>
        ensures stands { is_some result ≡ slice_index_or self.now.standing number false }
        ensures lends { IfSome result (λ page. page.now ≡ read_of self.now.memory (4096 * number) 4096) }
    {
        self.ram.page(number)
    }

    /// Makes room for at least so many pages. Nothing else changes, and no room is lost where memory ran out.
    pub fn reserve(&mut self, alloc: Global, pages: u32) -> Result<(), OutOfMemory>
        ensures memory { self.new.memory ≡ self.old.memory }
        ensures standing { self.new.standing ≡ self.old.standing }
        ensures ok { OnOk result (pages ≤ self.new.spare) }
        ensures kept { self.old.spare ≤ self.new.spare }
    {
        self.ram.reserve(alloc, pages)
    }

    /// What holds of every guest memory: it has from 1 MiB to 1 GiB in whole pages, its code lies in it, each byte is
    /// one, and an absent page reads as zeros.
    pub fn is_sound(&self)
        ensures sound { IsSound self.now.memory }
        ensures bytes { (k : ℕ) → slice_index self.now.memory.bytes k < 256 }
        ensures pages { length self.now.standing * 4096 ≡ length self.now.memory.bytes }
        ensures absent { AbsentAreZero self.now }
    {
        self.ram.is_sound();
    }

    /// What stands at RIP of a context, in the code. A division that faults in this context isn't local.
    pub fn next_of(&self, ctx: &Ctx) -> Next
        ensures next { result ≡ fetching_spec.next_of (code_of self.now.memory) ctx.now }
        ensures found { fetching_spec.IsFound ctx.now result }
    {
        fetching::next_of(&self.ram, &self.table, ctx)
    }

    /// Whether the next instruction is local.
    pub fn stands_local(&self, ctx: &Ctx) -> bool
        ensures { result ≡ spec.stands_local (code_of self.now.memory) ctx.now }
    {
        slices::stands_local(&self.ram, &self.table, ctx)
    }

    /// Whether the next `count` instructions are local, each in its own context.
    pub fn all_local(&self, ctx: &Ctx, count: u16) -> bool
        ensures { result ≡ spec.all_local (code_of self.now.memory) ctx.now count }
    {
        slices::all_local(&self.ram, &self.table, ctx, count)
    }

    /// What stands at RIP of a context, in the code. It is kept, so that it isn't decoded again. A division that faults in
    /// this context isn't local. Memory stays.
    #[inline(always)]
    pub fn next_kept(&mut self, ctx: &Ctx) -> Next
        ensures same { self.new ≡ self.old }
        ensures next { result ≡ fetching_spec.next_of (code_of self.old.memory) ctx.now }
        ensures found { fetching_spec.IsFound ctx.now result }
    {
        fetching::next_kept(&self.ram, &mut self.table, ctx)
    }

    /// Runs the instruction at RIP of a context where it isn't local, and is done by itself on memory and on the context. Says
    /// which bytes it stored, if any. It is kept, so that it isn't decoded again.
    ///
    /// `NotDone` exactly where it is local, where it asks something of the machine around its vCPU, and where none stands there.
    /// Then context and memory are as before.
    ///
    /// There is to be room for two pages of memory; as much is taken at most.
    #[inline(always)]
    pub fn share_done(&mut self, ctx: &mut Ctx) -> Result<Option<Stored>, NotDone>
        requires room { 2 ≤ self.old.spare }
        ensures done { IsNextDoneAs result ctx.old self.old.memory (fetching_spec.next_of (code_of self.old.memory) ctx.old) ctx.new self.new.memory }
        ensures same { OnErr result ((ctx.new ≡ ctx.old) × (self.new ≡ self.old)) }
        ensures stores { IfOk result (λ stored. Stores stored self.old.memory self.new.memory) }
        ensures size { KeepsSize self.old.memory self.new.memory }
        ensures room { self.old.spare ≤ self.new.spare + 2 }
    {
        self.ram.is_sound();
        match self.table.kept(ctx.rip) {
            Some(found) => {
                if found.is_local_in(ctx) {
                    return Err(NotDone);
                }
                let done = perform_done(ctx, &found.insn, found.len, &mut self.ram);
                if let Ok(stored) = done {
                    forget_stored(&mut self.table, self.ram.code(), stored);
                }
                done
            }
            None => self.share_anew(ctx),
        }
    }

    /// The same where it isn't kept yet.
    #[inline(never)]
    fn share_anew(&mut self, ctx: &mut Ctx) -> Result<Option<Stored>, NotDone>
        requires room { 2 ≤ self.old.spare }
        ensures done { IsNextDoneAs result ctx.old self.old.memory (fetching_spec.next_of (code_of self.old.memory) ctx.old) ctx.new self.new.memory }
        ensures same { OnErr result ((ctx.new ≡ ctx.old) × (self.new ≡ self.old)) }
        ensures stores { IfOk result (λ stored. Stores stored self.old.memory self.new.memory) }
        ensures size { KeepsSize self.old.memory self.new.memory }
        ensures room { self.old.spare ≤ self.new.spare + 2 }
    {
        match self.next_kept(ctx) {
            Next::Shared { insn, len } => self.share(ctx, &insn, len),
            Next::Local { .. } | Next::Undefined | Next::OutOfCode => Err(NotDone),
        }
    }

    /// Runs an instruction where it is done by itself.
    fn share(&mut self, ctx: &mut Ctx, insn: &Insn, len: u8) -> Result<Option<Stored>, NotDone>
        requires room { 2 ≤ self.old.spare }
        ensures done { IsDoneAs result (attempted ctx.old insn.now len self.old.memory insn.now.op) ctx.new self.new.memory }
        ensures same { OnErr result ((ctx.new ≡ ctx.old) × (self.new ≡ self.old)) }
        ensures stores { IfOk result (λ stored. Stores stored self.old.memory self.new.memory) }
        ensures size { KeepsSize self.old.memory self.new.memory }
        ensures room { self.old.spare ≤ self.new.spare + 2 }
    {
        self.ram.is_sound();
        let done = perform_done(ctx, insn, len, &mut self.ram);
        if let Ok(stored) = done {
            forget_stored(&mut self.table, self.ram.code(), stored);
        }
        done
    }

    /// Runs local instructions for as long as there are any, but at most `most`, and says how many it ran. Memory stays.
    pub fn run_slice(&mut self, ctx: &mut Ctx, most: u16) -> u16
        ensures same { self.new ≡ self.old }
        ensures ran { spec.LocalRun (code_of self.old.memory) ctx.old result ctx.new }
        ensures most { result ≡ spec.most_local (code_of self.old.memory) ctx.old most }
    {
        slices::run_slice(&self.ram, &mut self.table, ctx, most)
    }

    /// Runs that many instructions. One that isn't local is left out, and so are those behind it. Memory stays.
    pub fn run_many(&mut self, ctx: &mut Ctx, count: u16)
        ensures same { self.new ≡ self.old }
        ensures ctx { ctx.new ≡ spec.stepped_by (code_of self.old.memory) ctx.old count }
    {
        slices::run_many(&self.ram, &mut self.table, ctx, count);
    }
}

/// Makes a table right again for a code part, of so many bytes, into which an instruction stored.
#[inline(always)]
fn forget_stored(table: &mut Table, code: u64, stored: Option<Stored>)
    requires { IfSome stored (λ s. s.at + s.len < 2 ^ 63) }
    ensures { (old new : Memory) → old.code ≡ code → Stores stored old new → AreKept (code_of old) table.old → AreKept (code_of new) table.new }
{
    writes_keep_code();
    if let Some(stored) = stored {
        if stored.at < code {
            table.forget(stored.at, u64::from(stored.len));
        }
    }
}

impl Bytes for CachedRam {
    ghost memory = { λ r. r.memory };

    ghost spare = { λ r. r.spare };

    #[inline(always)]
    fn size(&self) -> u64 {
        self.ram.size()
    }

    #[inline(always)]
    fn code(&self) -> u64 {
        self.ram.code()
    }

    #[inline(always)]
    fn read(&self, at: u64, into: &mut [u8]) {
        self.ram.read(at, into);
    }

    /// Besides what the trait says, exactly the pages that the piece touches stand afterwards that did not before.
    fn write(&mut self, at: u64, piece: &[u8])
        requires inside { at + length piece.now ≤ length self.old.memory.bytes }
        requires short { length piece.now ≤ 512 }
        requires room { 2 ≤ self.old.spare }
        ensures memory { self.new.memory ≡ written self.old.memory at piece.now }
        ensures room { self.old.spare ≤ self.new.spare + 2 }
        ensures standing { Stand self.old.standing self.new.standing at (length piece.now) }
    {
        self.ram.is_sound();
        writes_keep_code();
        self.ram.write(at, piece);
        if at < self.ram.code() {
            self.table.forget(at, piece.len() as u64);
        }
    }
}
