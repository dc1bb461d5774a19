//! Four words of 64 bits, of which bit v % 64 of word v / 64 stands for v.
ghost use Rattle.std.specs.Prelude.{◌≡◌, ℕ, false, MatchOption};
ghost use Rattle.vm_vectors.specs.Words.{bit_in, IsTop};

/// The highest number whose bit is set, or none.
pub fn top(words: &[u64; 4]) -> Option<u8>
    ensures { MatchOption result ((v : ℕ) → bit_in words.now v ≡ false) (IsTop words.now) }
{
    let mut below = 4;
    while below > 0 {
        let word = words[below - 1];
        if word != 0 {
            return Some((64 * below - 1 - word.leading_zeros() as usize) as u8);
        }
        below -= 1;
    }
    None
}
