//! The name that the last failure of a host was about.
ghost use Rattle.std.specs.Prelude.{◌≡◌, [], take};

use std::marker::Model;

/// How many bytes of a name are kept: as many as a path has at most, PATH_MAX of limits.h.
const MOST: usize = 4096;

/// The name that the last failure of a host was about: its first 4,096 bytes. No memory is taken to
/// keep it.
///
/// A name may be cut off inside a character, so it is told as bytes.
#[derive(Drop)]
pub struct FailedName {
    bytes: [u8; MOST],
    kept: usize,
}

impl Model for FailedName {
    ghost use Rattle.std.specs.Prelude.{ℕ, ◌≤◌, List, take};

    ghost Value = { List ℕ };

    ghost view = { λ n. take n.kept n.bytes };

    ghost invariant = { λ n. n.kept ≤ 4096 };
}

impl FailedName {
    /// The empty name, before the first failure.
    pub fn new() -> FailedName
        ensures { result ≡ [] }
    {
        FailedName {
            bytes: [0; MOST],
            kept: 0,
        }
    }

    /// Keeps this name, up to its first 4,096 bytes, in the place of the one before.
    pub fn set(&mut self, name: &str)
        ensures { self.new ≡ take 4096 name.now }
    {
        let kept = name.len().min(MOST);
        self.bytes[..kept].copy_from_slice(&name.as_bytes()[..kept]);
        self.kept = kept;
    }

    /// The bytes of the name.
    pub fn as_bytes(&self) -> &[u8]
        ensures { result.now ≡ self.now }
    {
        &self.bytes[..self.kept]
    }
}
