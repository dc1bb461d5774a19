//! Copies of the pages of code.
ghost use Rattle.std.specs.Prelude.{◌≡◌, ℕ, ◌+◌, ◌*◌, ◌<◌, ◌≤◌, ◌==◌, replicate, length, take, drop, ◌++◌, slice_index, slice_set, IsTrue, IfOk};
ghost use Rattle.std.specs.List.{flat_map, list_all, range_with_len};
ghost use Rattle.x86_fetch.specs.Slices.{LocalRun, most_local, stepped};
ghost use Rattle.vm_table.specs.Rounds.{fetched_from, is_kept, looked_at, pages_looked};
ghost use Rattle.vm_state.specs.State.{page_count};
ghost use Rattle.vm_vcpu.specs.Copies.{AreCopies, AreRenewed, IsPageRenewed, is_kept_in};
ghost use Rattle.vm_state.specs.Machine.{code_of};

use std::alloc::Global;
use std::marker::Model;
use vm_board::Board;
use vm_host::Image;
use vm_law::{Ctx, OutOfMemory, Seq};
use vm_state::Versions;
use vm_table::Run;
use x86_fetch::{Code, Table, run_slice, step_local};

/// The bytes of a page of code.
const PAGE: usize = 4096;

/// The bytes of a code part.
#[derive(Drop)]
struct Bytes {
    bytes: Seq<u8>,
}

impl Code for Bytes {
    ghost bytes = { λ b. b.bytes };

    fn fetch(&self, at: u64, into: &mut [u8; 15]) -> usize {
        let size = self.bytes.len();
        if at >= size as u64 {
            return 0;
        }
        let at = at as usize;
        let count = (size - at).min(15);
        into[..count].copy_from_slice(&self.bytes.as_slice()[at..at + count]);
        count
    }
}

/// Copies of the pages of code, each with the version at which it was read, and the instructions that were decoded in them.
/// Contracts see the bytes and the versions.
#[derive(Drop)]
pub struct Copies {
    code: Bytes,
    versions: Versions,
    table: Table,
}

impl Model for Copies {
    ghost use Rattle.std.specs.Prelude.{◌≡◌, ◌≤◌, length};
    ghost use Rattle.vm_state.specs.State.{page_count};
    ghost use Rattle.x86_fetch.specs.Kept.{AreKept};
    ghost use Rattle.vm_vcpu.specs.Copies.{CopiesView, copies_code};

    ghost Value = { CopiesView };

    ghost coded = { copies_code };

    ghost view = { λ c. record { code = c.code.bytes; versions = c.versions } };

    ghost invariant = { λ c. AreKept c.code.bytes c.table × (length c.versions ≡ page_count (length c.code.bytes)) × (length c.code.bytes ≤ 16777216) };
}

impl Copies {
    /// Copies of a code part at its start, where each page has version 0.
    pub fn new(alloc: Global, code: &[u8]) -> Result<Copies, OutOfMemory>
        requires { length code.now ≤ 16777216 }
        ensures { IfOk result (λ c. c ≡ record { code = code.now; versions = replicate (page_count (length code.now)) 0 }) }
    {
        let bytes = Seq::from_slice(alloc, code)?;
        let versions = Versions::new(alloc, (code.len() + PAGE - 1) / PAGE)?;
        let table = Table::new(alloc)?;
        Ok(Copies {
            code: Bytes { bytes },
            versions,
            table,
        })
    }

    /// Runs local instructions of the copies for as long as there are any, but at most `most`, and says how many it ran.
    pub fn run(&mut self, ctx: &mut Ctx, most: u16) -> u16
        ensures same { self.new ≡ self.old }
        ensures ran { LocalRun self.old.code ctx.old result ctx.new }
        ensures most { result ≡ most_local self.old.code ctx.old most }
    {
        run_slice(&self.code, &mut self.table, ctx, most)
    }

    /// Runs the next instruction of the copies where it is local.
    fn step(&mut self, ctx: &mut Ctx)
        ensures same { self.new ≡ self.old }
        ensures ctx { ctx.new ≡ stepped self.old.code ctx.old }
    {
        step_local(&self.code, &mut self.table, ctx);
    }

    /// Whether a page has kept its version.
    fn is_kept(&self, run: &Run, page: u32) -> bool
        requires page { page < length self.now.versions }
        requires count { length self.now.versions ≡ length run.now.state.versions }
        ensures { result ≡ (slice_index run.now.state.versions page == slice_index self.now.versions page) }
    {
        run.version(page) == self.versions.at(page as usize)
    }

    /// Whether all pages have: no version goes back, so that their sum tells.
    #[inline(always)]
    fn are_all_kept(&self, run: &Run) -> bool
        requires count { length self.now.versions ≡ length run.now.state.versions }
        requires earlier { (page : ℕ) → slice_index self.now.versions page ≤ slice_index run.now.state.versions page }
        ensures { IsTrue result → (page : ℕ) → slice_index run.now.state.versions page ≡ slice_index self.now.versions page }
    {
        run.is_sound();
        run.version_total() == self.versions.total()
    }

    /// Whether the pages have from which an instruction at an address is fetched.
    fn is_fetch_kept(&self, run: &Run, at: u64) -> bool
        requires { length self.now.versions ≡ length run.now.state.versions }
        ensures { result ≡ list_all (is_kept_in run.now.state self.now.versions) (fetched_from (length self.now.code) at) }
    {
        let size = self.code.bytes.len() as u64;
        if at >= size {
            return true;
        }
        let last = (at + 15).min(size) - 1;
        self.is_kept(run, (at / PAGE as u64) as u32)
            && self.is_kept(run, (last / PAGE as u64) as u32)
    }

    /// Whether the pages have from which the first instructions from a context on are fetched.
    fn are_fetches_kept(&mut self, run: &Run, start: &Ctx, count: u16) -> bool
        requires { length self.old.versions ≡ length run.now.state.versions }
        ensures same { self.new ≡ self.old }
        ensures kept { result ≡ list_all (is_kept_in run.now.state self.old.versions) (flat_map (looked_at self.old.code start.now) (range_with_len 0 count)) }
    {
        let mut ctx = *start;
        for _done in 0..count {
            if !self.is_fetch_kept(run, ctx.rip) {
                return false;
            }
            self.step(&mut ctx);
        }
        true
    }

    /// Whether each page has kept its version that was looked at for `count` instructions from a context on, of `granted`.
    #[inline(always)]
    pub(crate) fn are_kept(&mut self, run: &Run, start: &Ctx, count: u16, granted: u16) -> bool
        requires fits { length self.old.versions ≡ length run.now.state.versions }
        requires earlier { (page : ℕ) → slice_index self.old.versions page ≤ slice_index run.now.state.versions page }
        requires few { count ≤ granted }
        ensures same { self.new ≡ self.old }
        ensures kept { result ≡ is_kept run.now.state (record { ran = count; looked = pages_looked self.old.code start.now count granted; versions = self.old.versions }) }
    {
        if self.are_all_kept(run) {
            return true;
        }
        let tried = if count < granted { count + 1 } else { granted };
        self.are_fetches_kept(run, start, tried)
    }

    /// Renews each copy whose page has another version.
    pub fn renew<I: Image + Drop>(&mut self, board: &Board<I>)
        requires { AreCopies board.now.state self.old }
        ensures { AreRenewed board.now.state self.new }
    {
        if self.are_all_kept(board.run()) {
            return;
        }
        for number in 0..self.versions.pages() as u32 {
            self.renew_page(board, number);
        }
    }

    /// Renews the copy of a page where the page has another version.
    fn renew_page<I: Image + Drop>(&mut self, board: &Board<I>, number: u32)
        requires there { number < length self.old.versions }
        requires count { length self.old.versions ≡ length board.now.state.versions }
        requires size { length self.old.code ≡ length (code_of board.now.state.machine) }
        ensures { IsPageRenewed board.now.state self.old self.new number }
    {
        let version = board.version(number);
        if self.versions.at(number as usize) != version {
            self.copy_page(board, number, version);
        }
    }

    /// Takes over a page. It stands in a function of its own, since a page on the stack is filled with zeros first.
    #[inline(never)]
    fn copy_page<I: Image + Drop>(&mut self, board: &Board<I>, number: u32, version: u64)
        requires there { number < length self.old.versions }
        requires count { length self.old.versions ≡ length board.now.state.versions }
        requires size { length self.old.code ≡ length (code_of board.now.state.machine) }
        requires pages { length self.old.versions ≡ page_count (length self.old.code) }
        requires version { version ≡ slice_index board.now.state.versions number }
        ensures { IsPageRenewed board.now.state self.old self.new number }
    {
        let mut page = [0; PAGE];
        let count = board.code_page(number, &mut page);
        self.replace(number, version, &page[..count]);
    }

    /// Replaces the copy of a page.
    fn replace(&mut self, number: u32, version: u64, page: &[u8])
        requires there { number < length self.old.versions }
        requires inside { 4096 * number + length page.now ≤ length self.old.code }
        ensures code { self.new.code ≡ take (4096 * number) self.old.code ++ page.now ++ drop (4096 * number + length page.now) self.old.code }
        ensures versions { self.new.versions ≡ slice_set self.old.versions number version }
    {
        let at = PAGE * number as usize;
        self.code.bytes.write_at(at, page);
        self.table.forget(at as u64, page.len() as u64);
        self.versions.set(number as usize, version);
    }
}
