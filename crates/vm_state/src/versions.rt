//! How often an instruction stored into each page of the code.
ghost use Rattle.std.specs.Prelude.{◌≡◌, ◌+◌, ◌%◌, ◌<◌, ◌^◌, length, replicate, slice_index, slice_set, IfOk};
ghost use Rattle.std.specs.List.{sum};
ghost use Rattle.vm_state.specs.State as state;

use std::alloc::Global;
use std::marker::Model;
use vm_law::{OutOfMemory, Seq};

/// For each page of the code how often an instruction stored into it. Contracts see the list of these counts.
///
/// Their sum is kept beside them: where one list came from another by counting on, and the sums are equal, so are the lists.
#[derive(Drop)]
pub struct Versions {
    each: Seq<u64>,
    /// Their sum, modulo 2^64.
    total: u64,
}

impl Model for Versions {
    ghost use Rattle.std.specs.Prelude.{◌≡◌, ◌%◌, ◌^◌, ℕ, List};
    ghost use Rattle.std.specs.Coded.{coded_list, coded_ℕ};
    ghost use Rattle.std.specs.List.{sum};

    ghost Value = { List ℕ };

    ghost coded = { coded_list coded_ℕ };

    ghost view = { λ v. v.each };

    ghost invariant = { λ v. v.total ≡ sum v.each % 2 ^ 64 };
}

impl Versions {
    /// Those of so many pages into which nothing was stored.
    pub fn new(alloc: Global, pages: usize) -> Result<Versions, OutOfMemory>
        ensures { IfOk result (λ v. v ≡ replicate pages 0) }
    {
        let mut each = Vec::new(alloc);
        each.resize(pages, 0)?;
        Ok(Versions {
            each: Seq::from_vec(each),
            total: 0,
        })
    }

    /// How many pages there are.
    pub fn pages(&self) -> usize
        ensures { result ≡ length self.now }
    {
        self.each.len()
    }

    /// How often an instruction stored into a page.
    #[inline(always)]
    pub fn at(&self, page: usize) -> u64
        requires { page < length self.now }
        ensures { result ≡ slice_index self.now page }
    {
        *self.each.at(page)
    }

    /// How often an instruction stored into a page of the code, of all pages together, modulo 2^64.
    #[inline(always)]
    pub fn total(&self) -> u64
        ensures { result ≡ sum self.now % 2 ^ 64 }
    {
        self.total
    }

    /// Another count for a page.
    pub fn set(&mut self, page: usize, version: u64)
        requires { page < length self.old }
        ensures { self.new ≡ slice_set self.old page version }
    {
        let before = *self.each.at(page);
        self.each.set(page, version);
        self.total = self.total.wrapping_sub(before).wrapping_add(version);
    }

    /// One more for a page.
    pub fn count(&mut self, page: usize)
        requires page { page < length self.old }
        requires fits { slice_index self.old page + 1 < 2 ^ 64 }
        ensures { self.new ≡ state.one_more self.old page }
    {
        let version = self.at(page);
        self.set(page, version + 1);
    }

    /// Equal versions.
    pub fn copy(&self, alloc: Global) -> Result<Versions, OutOfMemory>
        ensures { IfOk result (λ v. v ≡ self.now) }
    {
        let each = self.each.copy(alloc)?;
        Ok(Versions {
            each,
            total: self.total,
        })
    }
}
