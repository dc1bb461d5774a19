ghost use Rattle.std.specs.Prelude.{◌≡◌, ◌+◌, ◌^◌, ◌≤◌, ◌<◌, ℕ, true, false, IfNone, IfSome, if◌then◌else◌};
ghost use Rattle.std.specs.FinSet as set;
ghost use Rattle.vm_vectors.specs.Vectors as spec;

use crate::words;
use std::marker::Model;

/// A set of interrupt vectors, numbers below 256. Contracts see it as a finite set of numbers.
///
/// Vector v is bit v % 64 of word v / 64.
#[derive(Debug, Drop)]
pub struct VectorSet {
    words: [u64; 4],
}

impl Model for VectorSet {
    ghost use Rattle.std.specs.Coded.{coded_ℕ};
    ghost use Rattle.std.specs.FinSet as set;
    ghost use Rattle.vm_vectors.specs.Vectors.{Vectors};
    ghost use Rattle.vm_vectors.specs.Words.{set_in};

    ghost Value = { Vectors };

    ghost coded = { set.code coded_ℕ };

    ghost view = { λ s. set_in s.words };
}

impl VectorSet {
    /// The set without members.
    pub fn empty() -> VectorSet
        ensures { result ≡ set.empty }
    {
        VectorSet { words: [0; 4] }
    }

    /// An equal set.
    pub fn copy(&self) -> VectorSet
        ensures { result ≡ self.now }
    {
        VectorSet { words: self.words }
    }

    /// Adds a vector.
    pub fn insert(&mut self, vector: u8)
        ensures { self.new ≡ set.insert self.old vector }
    {
        self.words[vector as usize / 64] |= 1 << (vector % 64);
    }

    /// Takes a vector out, if it is a member.
    pub fn remove(&mut self, vector: u8)
        ensures { self.new ≡ set.remove self.old vector }
    {
        self.words[vector as usize / 64] &= !(1 << (vector % 64));
    }

    /// Whether a vector is a member.
    pub fn has(&self, vector: u8) -> bool
        ensures { result ≡ spec.has self.now vector }
    {
        self.words[vector as usize / 64] >> (vector % 64) & 1 == 1
    }

    /// The highest member, or none where the set is empty.
    pub fn highest(&self) -> Option<u8>
        ensures value { result ≡ spec.highest self.now }
        ensures none { IfNone result (self.now ≡ set.empty) }
        ensures member { IfSome result (λ v. spec.has self.now v ≡ true) }
        ensures greatest { IfSome result (λ v. (w : ℕ) → v < w → spec.has self.now w ≡ false) }
    {
        words::top(&self.words)
    }

    /// Nothing from 256 on is a member.
    pub fn is_small(&self)
        ensures { (v : ℕ) → 256 ≤ v → spec.has self.now v ≡ false }
    {
        let _words = self.words;
    }

    /// Word `k` of the eight that a 256-bit register is read as: bit b is set where vector 32 k + b is a member.
    pub fn word(&self, k: u8) -> u32
        requires { k < 8 }
        ensures { result ≡ spec.word_of self.now k }
    {
        self.bits(32 * k as usize, 32)
    }

    /// The saved form: vector v is bit `v % 8` of byte `v / 8`.
    pub fn to_bytes(&self) -> [u8; 32]
        ensures bytes { result ≡ spec.bytes_of self.now }
        ensures inverse { spec.vectors_of result ≡ self.now }
    {
        self.is_small();
        let mut bytes = [0; 32];
        for (k, byte) in bytes.iter_mut().enumerate() {
            *byte = self.bits(8 * k, 8) as u8;
        }
        bytes
    }

    /// The set whose saved form the bytes are.
    pub fn from_bytes(bytes: &[u8; 32]) -> VectorSet
        ensures set { result ≡ spec.vectors_of bytes.now }
        ensures inverse { spec.bytes_of result ≡ bytes.now }
    {
        let mut set = VectorSet::empty();
        for v in 0..256usize {
            set.put(v as u8, bytes[v / 8] >> (v % 8) & 1 == 1);
        }
        set
    }

    /// Adds a vector where it is to be a member.
    fn put(&mut self, vector: u8, member: bool)
        ensures { self.new ≡ (if member then set.insert self.old vector else self.old) }
    {
        if member {
            self.insert(vector);
        }
    }

    /// The membership of `count` vectors from `first` on, as bits.
    #[tactic(auto, using(crate::proofs::Bits::bits_steps))]
    fn bits(&self, first: usize, count: usize) -> u32
        requires within { first + count ≤ 256 }
        requires fits { count ≤ 32 }
        ensures value { result ≡ spec.bits_of self.now first count }
        ensures small { result < 2 ^ count }
    {
        let mut bits = 0;
        for b in 0..count {
            if self.has((first + b) as u8) {
                bits += 1 << b;
            }
        }
        bits
    }
}
