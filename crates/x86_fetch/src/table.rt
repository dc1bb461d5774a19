//! Decoded instructions by their addresses.
ghost use Rattle.std.specs.Prelude.{◌≡◌, ◌<◌, ◌≤◌, ◌+◌, ◌%◌, ◌^◌, ℕ, List, length, Ok, IfOk, IfSome};
ghost use Rattle.x86_fetch.specs.Kept.{AreKept, ChangesOnly, IsFound, IsEmptied, AreEmptied};
ghost use Rattle.x86_op.specs.Access.{is_local};
ghost use Rattle.x86_fetch.specs.Fetching as fetching;

use crate::fetching::Next;
use std::alloc::Global;
use std::marker::Model;
use vm_law::{Ctx, Insn, OutOfMemory};
use x86_op::{faults, is_local};

/// How many places a table has.
const PLACES: usize = 4096;

/// An instruction that stands in the code.
#[derive(Clone, Copy)]
pub struct Found {
    pub insn: Insn,
    /// How many bytes spell it.
    pub len: u8,
    /// Whether it touches the vCPU's own registers alone.
    pub local: bool,
}

impl Found {
    /// Whether it is local in a context, where a division that faults isn't.
    #[inline(always)]
    pub fn is_local_in(&self, ctx: &Ctx) -> bool
        requires { self.now.local ≡ is_local self.now.insn }
        ensures { result ≡ fetching.is_local_next (fetching.next_decoded ctx.now (Ok (self.now.insn, self.now.len))) }
    {
        self.local && !faults(ctx, &self.insn, 0)
    }

    /// What it is in a context: a division that faults there isn't local.
    #[inline(always)]
    pub fn next(&self, ctx: &Ctx) -> Next
        requires { self.now.local ≡ is_local self.now.insn }
        ensures next { result ≡ fetching.next_decoded ctx.now (Ok (self.now.insn, self.now.len)) }
        ensures found { fetching.IsFound ctx.now result }
    {
        let insn = self.insn;
        let len = self.len;
        if self.local && !faults(ctx, &insn, 0) {
            Next::Local { insn, len }
        } else {
            Next::Shared { insn, len }
        }
    }
}

/// A place of a table that is filled.
#[derive(Clone, Copy)]
pub struct Place {
    /// The address of the instruction.
    pub at: u64,
    pub found: Found,
}

/// A table of decoded instructions, with one place for all addresses that are equal modulo 4,096.
///
/// For which code it is right is for its owner to say: [`Table::keep`] leaves it right for each code for which it was right
/// and in which the instruction stands.
#[derive(Drop)]
pub struct Table {
    places: Vec<Option<Place>>,
}

impl Model for Table {
    ghost use Rattle.std.specs.Prelude.{List, Option};
    ghost use Rattle.x86_fetch.specs.declared.table.Place.{Place};
    ghost use Rattle.x86_fetch.specs.Kept.{IsTable};

    ghost Value = { List (Option Place) };

    ghost view = { λ t. t.places.items };

    ghost invariant = { λ t. IsTable t.places.items };
}

/// The place for an address.
fn place_of(at: u64) -> usize
    ensures { result ≡ at % 4096 }
{
    (at % 4096) as usize
}

impl Table {
    /// A table that keeps nothing.
    pub fn new(alloc: Global) -> Result<Table, OutOfMemory>
        ensures { IfOk result (λ t. (code : List ℕ) → AreKept code t) }
    {
        let mut places = Vec::new(alloc);
        places.resize(PLACES, None)?;
        Ok(Table { places })
    }

    /// The instruction at an address, where it is kept.
    #[inline(always)]
    pub fn kept(&self, at: u64) -> Option<&Found>
        ensures { IfSome result (λ found. (code : List ℕ) → AreKept code self.now → IsFound code at found.now) }
    {
        match &self.places[place_of(at)] {
            Some(place) => {
                if place.at == at {
                    Some(&place.found)
                } else {
                    None
                }
            }
            None => None,
        }
    }

    /// Keeps an instruction that stands at an address.
    pub fn keep(&mut self, at: u64, insn: Insn, len: u8)
        ensures { (code : List ℕ) → AreKept code self.old → IsFound code at (record { insn = insn; len = len; local = is_local insn }) → AreKept code self.new }
    {
        let local = is_local(&insn);
        let found = Found { insn, len, local };
        self.places[place_of(at)] = Some(Place { at, found });
    }

    /// Forgets the instructions that may hold one of the `len` bytes from an address on: those that begin less than 15 bytes
    /// before it, or in it. A table that was right for a code is right for each code that differs from it in these bytes
    /// alone.
    pub fn forget(&mut self, at: u64, len: u64)
        requires { at + len < 2 ^ 63 }
        ensures { (old new : List ℕ) → AreKept old self.old → ChangesOnly old new at len → AreKept new self.new }
    {
        let start = at.saturating_sub(14);
        let count = (at + len - start).min(PLACES as u64);
        for k in 0..count {
            empty(&mut self.places, place_of(start + k), at, len);
        }
    }

    /// Forgets all.
    pub fn clear(&mut self)
        ensures { (code : List ℕ) → AreKept code self.new }
    {
        self.places.fill(None);
    }
}

/// Empties a place whose instruction may hold one of the `len` bytes from an address on.
fn empty(places: &mut Vec<Option<Place>>, number: usize, at: u64, len: u64)
    requires place { number < length places.old.items }
    requires fits { at + len < 2 ^ 63 }
    ensures { AreEmptied places.old.items places.new.items number at len }
{
    let place = &mut places[number];
    if let Some(kept) = place {
        if at < kept.at.saturating_add(15) && kept.at < at + len {
            *place = None;
        }
    }
}
