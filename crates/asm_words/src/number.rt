//! Numbers: their text, and the fields that hold them.
ghost use Rattle.std.specs.Prelude.{ℕ, ◌≡◌, ◌<◌, ◌≤◌, ◌^◌, pos, neg_ℤ, option_map, IfSome};
ghost use Rattle.asm_words.specs.Number.{magnitude, number_of, half, is_within, holds, bits_in, signed_in, signed32_in};

use text_reader::{after_byte, after_prefix, number};
use vm_law::Width;

/// A field that holds a number.
#[derive(Clone, Copy)]
pub enum Field {
    /// As wide as the operand: it holds -2^(w-1) to 2^w - 1, where w are its bits.
    Whole(Width),
    /// Extended with its sign to a wider operand or address: it holds -2^(w-1) to 2^(w-1) - 1.
    Extended(Width),
}

/// The number of decimal digits, or of hexadecimal ones behind `0x`. 2^64 stands for each number that isn't below it.
pub fn magnitude(text: &str) -> Option<u128>
    ensures value { result ≡ magnitude text.now }
    ensures small { IfSome result (λ n. n ≤ 2 ^ 64) }
{
    match after_prefix(text) {
        Some(digits) => number(digits.as_bytes(), 16),
        None => number(text.as_bytes(), 10),
    }
}

/// The number of a text, with `-` before it or not. Of each number whose magnitude isn't below 2^64 that magnitude is 2^64.
pub fn number_of(text: &str) -> Option<i128>
    ensures { result ≡ number_of text.now }
{
    match after_byte(text, '-') {
        Some(digits) => {
            let n = magnitude(digits)?;
            Some(-(n as i128))
        }
        None => {
            let n = magnitude(text)?;
            Some(n as i128)
        }
    }
}

/// Half of how many numbers a field of the width tells apart.
fn half(width: Width) -> i128
    ensures { result ≡ pos (half width) }
{
    match width {
        Width::B => 0x80,
        Width::W => 0x8000,
        Width::D => 0x8000_0000,
        Width::Q => 0x8000_0000_0000_0000,
    }
}

/// Whether a number is one from -`low` up to `high`, `high` left aside.
fn is_within(low: i128, high: i128, n: i128) -> bool
    requires { (l : ℕ) × (low ≡ pos l) }
    ensures { (l h : ℕ) → low ≡ pos l → high ≡ pos h → result ≡ is_within l h n }
{
    !(n < -low) && n < high
}

/// Whether a field holds a number.
pub fn holds(field: Field, n: i128) -> bool
    ensures { result ≡ holds field n }
{
    match field {
        Field::Whole(width) => is_within(half(width), half(width) + half(width), n),
        Field::Extended(width) => is_within(half(width), half(width), n),
    }
}

/// A number's bits in a field of the width.
pub fn bits_in(width: Width, n: i128) -> u64
    ensures { result ≡ bits_in width n }
{
    let bits = n.cast_unsigned();
    match width {
        Width::B => (bits % 0x100) as u64,
        Width::W => (bits % 0x1_0000) as u64,
        Width::D => (bits % 0x1_0000_0000) as u64,
        Width::Q => (bits % 0x1_0000_0000_0000_0000) as u64,
    }
}

/// The same with their sign.
pub fn signed_in(width: Width, n: i128) -> i64
    ensures { result ≡ signed_in width n }
{
    let bits = bits_in(width, n);
    match width {
        Width::B => i64::from((bits as u8).cast_signed()),
        Width::W => i64::from((bits as u16).cast_signed()),
        Width::D => i64::from((bits as u32).cast_signed()),
        Width::Q => bits.cast_signed(),
    }
}

/// A number's bits with their sign in a field of the width, of 32 bits at the width of 64.
pub fn signed32_in(width: Width, n: i128) -> i32
    ensures { result ≡ signed32_in width n }
{
    let bits = bits_in(width, n);
    match width {
        Width::B => i32::from((bits as u8).cast_signed()),
        Width::W => i32::from((bits as u16).cast_signed()),
        Width::D => (bits as u32).cast_signed(),
        Width::Q => (bits_in(Width::D, n) as u32).cast_signed(),
    }
}
