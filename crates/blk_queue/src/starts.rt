ghost use Rattle.std.specs.Prelude.{◌≡◌, ◌<◌, ◌≤◌, Bool, true, false, not, ◌==◌, nat_lt, nat_le, [], ◌∷◌, filter, length, IfOk};
ghost use Rattle.std.specs.List.{All, count_by, list_any};
ghost use Rattle.std.specs.Vec.{vec_capacity};
ghost use Rattle.std.specs.List.Sorted.{IsNonDecreasingBy, IsPartitionPoint};
ghost use Rattle.blk_queue.specs.declared.starts.Mark.{Mark as Marked};
ghost use Rattle.blk_queue.specs.Starts as spec;

use std::alloc::Global;
use std::marker::Model;
use vm_law::OutOfMemory;

/// The most sectors that a request has.
const SECTORS: u64 = 8192;

/// Where a request starts, and how many sectors it has.
#[derive(Clone, Copy)]
pub(crate) struct Mark {
    pub start: u64,
    pub count: u32,
    pub id: u32,
}

/// An index of requests by their starts. Contracts see its marks by ascending start.
#[derive(Drop)]
pub(crate) struct Starts {
    marks: Vec<Mark>,
}

impl Model for Starts {
    ghost use Rattle.std.specs.Prelude.{◌≤◌, List};
    ghost use Rattle.std.specs.List.Sorted.{IsNonDecreasingBy};
    ghost use Rattle.std.specs.Vec.{vec_capacity};
    ghost use Rattle.blk_queue.specs.declared.starts.Mark.{Mark as Marked};

    ghost Value = { List Marked };

    ghost view = { λ s. s.marks.items };

    ghost invariant = { λ s. (64 ≤ vec_capacity s.marks) × IsNonDecreasingBy (λ (m : Marked). m.start) s.marks.items };
}

impl Starts {
    /// An index of nothing, with its places.
    pub(crate) fn new(alloc: Global) -> Result<Starts, OutOfMemory>
        ensures { IfOk result (λ s. s ≡ []) }
    {
        Ok(Starts {
            marks: Vec::with_capacity(alloc, 64)?,
        })
    }

    /// Takes in a mark.
    pub(crate) fn insert(&mut self, mark: Mark)
        requires { length self.old < 64 }
        ensures { (p : Marked → Bool) → count_by p self.new ≡ count_by p (mark ∷ self.old) }
    {
        let at = first_from(self.marks.as_slice(), mark.start as u128);
        let _fits = self.marks.insert(at, mark).is_ok();
    }

    /// Takes out the mark of an id.
    pub(crate) fn remove(&mut self, id: u32)
        ensures { self.new ≡ filter (λ (m : Marked). not (m.id == id)) self.old }
    {
        remove(&mut self.marks, id);
    }

    /// Takes out every mark.
    pub(crate) fn clear(&mut self)
        ensures { self.new ≡ [] }
    {
        self.marks.clear();
    }

    /// Whether a request ends at this sector.
    pub(crate) fn some_ends_at(&self, sector: u64) -> bool
        requires { All (λ (m : Marked). m.count ≤ 8192) self.now }
        ensures { result ≡ list_any (spec.ends_at sector) self.now }
    {
        near_ends_at(self.marks.as_slice(), sector)
    }

    /// The marks of the requests that start at this sector.
    pub(crate) fn starting_at(&self, sector: u128) -> &[Mark]
        ensures { result.now ≡ filter (spec.starts_at sector) self.now }
    {
        run(self.marks.as_slice(), sector)
    }

    /// An equal index.
    pub(crate) fn copy(&self, alloc: Global) -> Result<Starts, OutOfMemory>
        ensures { IfOk result (λ s. s ≡ self.now) }
    {
        let mut marks = Vec::with_capacity(alloc, 64)?;
        marks.extend_from_slice(self.marks.as_slice())?;
        Ok(Starts { marks })
    }
}

/// The place of the first mark that starts at this sector or behind it.
fn first_from(marks: &[Mark], sector: u128) -> usize
    requires { IsNonDecreasingBy (λ (m : Marked). m.start) marks.now }
    ensures within { result ≤ length marks.now }
    ensures splits { IsPartitionPoint (λ (m : Marked). nat_lt m.start sector ≡ true) (λ (m : Marked). nat_lt m.start sector ≡ false) marks.now result }
{
    marks.partition_point(|mark| (mark.start as u128) < sector)
}

/// The place of the first mark that starts behind this sector.
fn first_behind(marks: &[Mark], sector: u128) -> usize
    requires { IsNonDecreasingBy (λ (m : Marked). m.start) marks.now }
    ensures within { result ≤ length marks.now }
    ensures splits { IsPartitionPoint (λ (m : Marked). nat_le m.start sector ≡ true) (λ (m : Marked). nat_le m.start sector ≡ false) marks.now result }
{
    marks.partition_point(|mark| mark.start as u128 <= sector)
}

/// Those of these, by ascending start, that start at this sector.
fn run(marks: &[Mark], sector: u128) -> &[Mark]
    requires { IsNonDecreasingBy (λ (m : Marked). m.start) marks.now }
    ensures { result.now ≡ filter (spec.starts_at sector) marks.now }
{
    let from = first_from(marks, sector);
    let rest = &marks[from..];
    let count = first_behind(rest, sector);
    &rest[..count]
}

/// Takes out the marks of an id.
fn remove(marks: &mut Vec<Mark>, id: u32)
    ensures kept { marks.new.items ≡ filter (λ (m : Marked). not (m.id == id)) marks.old.items }
    ensures capacity { vec_capacity marks.new ≡ vec_capacity marks.old }
{
    marks.retain(|mark| mark.id != id);
}

/// Whether one of these, by ascending start, ends at this sector, looking only at those that start near it.
fn near_ends_at(marks: &[Mark], sector: u64) -> bool
    requires sorted { IsNonDecreasingBy (λ (m : Marked). m.start) marks.now }
    requires fit { All (λ (m : Marked). m.count ≤ 8192) marks.now }
    ensures { result ≡ list_any (spec.ends_at sector) marks.now }
{
    let from = first_from(marks, sector.saturating_sub(SECTORS) as u128);
    some_ends_at(&marks[from..], sector)
}

/// Whether one of these, by ascending start, ends at this sector.
fn some_ends_at(marks: &[Mark], sector: u64) -> bool
    requires { IsNonDecreasingBy (λ (m : Marked). m.start) marks.now }
    ensures { result ≡ list_any (spec.ends_at sector) marks.now }
{
    for mark in marks {
        if mark.start > sector {
            return false;
        }
        if sector - mark.start == mark.count as u64 {
            return true;
        }
    }
    false
}
