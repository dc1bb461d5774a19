ghost use Rattle.std.specs.Prelude.{◌≡◌, length, if◌then◌else◌};
ghost use Rattle.byte_reader.specs.Reader.{Gives};
ghost use Rattle.byte_reader.specs.Fixed.{differs_at_once, text_at};

use crate::reading::{ReadError, refused};

// Which fault a text has that is cut.
fn cut_kind<K: Copy>(short: K, other: K, text: &[u8], bytes: &[u8]) -> K
    ensures { result ≡ (if differs_at_once text.now bytes.now then other else short) }
{
    match (text, bytes) {
        ([wanted, ..], [first, ..]) if first != wanted => other,
        _ => short,
    }
}

/// Reads a fixed text. `other` is the fault at the first byte that differs. Where the text is cut, the fault is at its
/// first byte: `other` where that byte is there and differs, and else `short`.
#[tactic(auto, unfolding(crate::specs::Fixed::text_at))]
pub fn read_text<'a, K: Copy>(
    short: K,
    other: K,
    text: &[u8],
    bytes: &'a [u8],
) -> Result<((), &'a [u8]), ReadError<K>>
    ensures { Gives (λ x. (x.0, x.1.now)) result (text_at short other text.now bytes.now) }
{
    if bytes.len() < text.len() {
        return Err(refused(cut_kind(short, other, text, bytes), bytes));
    }
    for (i, byte) in text.iter().enumerate() {
        if bytes[i] != *byte {
            return Err(refused(other, &bytes[i..]));
        }
    }
    Ok(((), &bytes[text.len()..]))
}
