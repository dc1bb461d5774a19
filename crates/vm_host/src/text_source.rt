//! A text that comes in pieces.
ghost use Rattle.std.specs.Prelude.{◌≡◌, ◌≤◌, ◌↔◌, ◌++◌, [], List, ℕ, take};

/// Bytes that are handed out in pieces, in order.
pub trait TextSource {
    /// The bytes that are left.
    ghost left: { Self → List ℕ };

    /// Puts the next n bytes at the front of `into`, answers n, and leaves the rest for later. n is 0
    /// exactly where none is left.
    fn next(&mut self, into: &mut [u8; 4100]) -> usize
        ensures within { result ≤ 4100 }
        ensures bytes { left self.old ≡ take result into.new ++ left self.new }
        ensures none { (result ≡ 0) ↔ (left self.old ≡ []) };
}
