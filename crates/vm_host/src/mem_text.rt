//! A text in memory that is handed out in pieces.
ghost use Rattle.std.specs.Prelude.{◌≡◌, ◌≤◌, ◌<◌, ◌↔◌, ◌++◌, [], take, drop, length, min};

use crate::text_source::TextSource;
use std::marker::Model;

/// A text in memory, handed out in pieces of so many bytes at most.
#[derive(Drop)]
pub struct MemText<'a> {
    left: &'a [u8],
    most: usize,
}

impl<'a> Model for MemText<'a> {
    ghost use Rattle.std.specs.Prelude.{◌<◌};
    ghost use Rattle.vm_host.specs.MemState.{TextState};

    ghost Value = { TextState };

    ghost view = { λ t. record { left = t.left.now; most = t.most } };

    ghost invariant = { λ t. 0 < t.most };
}

impl<'a> MemText<'a> {
    /// All of these bytes, in pieces of at most `most`, which is above 0. A piece has at most 4,100.
    pub fn new(bytes: &'a [u8], most: usize) -> MemText<'a>
        requires { 0 < most }
        ensures { result ≡ record { left = bytes.now; most = most } }
    {
        MemText { left: bytes, most }
    }
}

impl<'a> TextSource for MemText<'a> {
    ghost left = { λ t. t.left };

    fn next(&mut self, into: &mut [u8; 4100]) -> usize
        ensures size { result ≡ min self.old.most (min 4100 (length self.old.left)) }
        ensures within { result ≤ 4100 }
        ensures bytes { self.old.left ≡ take result into.new ++ self.new.left }
        ensures none { (result ≡ 0) ↔ (self.old.left ≡ []) }
    {
        let count = self.most.min(into.len()).min(self.left.len());
        into[..count].copy_from_slice(&self.left[..count]);
        self.left = &self.left[count..];
        count
    }
}
