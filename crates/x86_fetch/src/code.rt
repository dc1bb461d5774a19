//! Whoever holds code.
ghost use Rattle.std.specs.Prelude.{◌≡◌, ℕ, List, length, take};
ghost use Rattle.x86_fetch.specs.Fetching.{fetched};
ghost use Rattle.vm_law.specs.Memory.{code_of};

use guest_ram::GuestRam;

/// Code, which begins at address 0.
pub trait Code {
    /// Its bytes.
    ghost bytes: { Self → List ℕ };

    /// Copies the bytes that are fetched at an address: at most 15, up to the end of the code. Says how many there are.
    fn fetch(&self, at: u64, into: &mut [u8; 15]) -> usize
        ensures count { result ≡ length (fetched (bytes self.now) at) }
        ensures bytes { take result into.new ≡ fetched (bytes self.now) at };
}

/// The code part of a guest's memory.
impl Code for GuestRam {
    ghost bytes = { λ r. code_of r.memory };

    fn fetch(&self, at: u64, into: &mut [u8; 15]) -> usize {
        self.fetch(at, into)
    }
}
