ghost use Rattle.std.specs.Prelude.{◌≡◌, ◌<◌, ◌≤◌, ◌↔◌, IsTrue, [], length, slice_index};
ghost use Rattle.std.specs.List.{insert};

use std::marker::Model;

/// The vCPUs whose timers fired, in order. Contracts see a list of at most 16 numbers.
#[derive(Drop)]
pub struct Fired {
    cpus: [u8; 16],
    len: usize,
}

impl Model for Fired {
    ghost use Rattle.std.specs.Prelude.{List, ℕ, ◌≤◌, take};

    ghost Value = { List ℕ };

    ghost view = { λ fired. take fired.len fired.cpus };

    ghost invariant = { λ fired. fired.len ≤ 16 };
}

impl Fired {
    /// No vCPU.
    pub(crate) fn none() -> Fired
        ensures { result ≡ [] }
    {
        Fired {
            cpus: [0; 16],
            len: 0,
        }
    }

    /// How many vCPUs there are, at most 16.
    pub fn len(&self) -> usize
        ensures len { result ≡ length self.now }
        ensures bound { result ≤ 16 }
    {
        self.len
    }

    /// Whether there is none.
    pub fn is_empty(&self) -> bool
        ensures { IsTrue result ↔ (self.now ≡ []) }
    {
        self.len == 0
    }

    /// The vCPU at a place, counted from 0.
    pub fn at(&self, i: usize) -> u8
        requires { i < length self.now }
        ensures { result ≡ slice_index self.now i }
    {
        self.cpus[i]
    }

    /// The vCPUs as a slice.
    pub fn as_slice(&self) -> &[u8]
        ensures { result.now ≡ self.now }
    {
        &self.cpus[..self.len]
    }

    /// Puts a vCPU at a place; those from there on come after it.
    pub(crate) fn insert(&mut self, place: usize, cpu: u8)
        requires within { place ≤ length self.old }
        requires room { length self.old < 16 }
        ensures { self.new ≡ insert self.old place cpu }
    {
        self.cpus.copy_within(place..self.len, place + 1);
        self.cpus[place] = cpu;
        self.len += 1;
    }
}
