ghost use Rattle.std.specs.Prelude.{◌≡◌, ◌≤◌, ◌<◌, ◌^◌, ◌*◌, ◌+◌, Some, None, IfSome, min, option_map, if◌then◌else◌};
ghost use Rattle.std.specs.List.{list_all};
ghost use Rattle.std.specs.Char.{digit_value};
ghost use Rattle.text_reader.specs.Digits.{is_digit, number, numeral, hex_number, after_prefix};

use crate::word::after_byte;

/// The value of a digit of a base from 2 to 16, in which letters of either case are digits from 10 on; `None` exactly
/// where the byte is no such digit.
pub fn digit(b: u8, base: u32) -> Option<u8>
    requires low { 2 ≤ base }
    requires high { base ≤ 16 }
    ensures value { result ≡ (if is_digit base b then Some (digit_value b) else None) }
    ensures small { IfSome result (λ d. d < base) }
{
    let digit = char::from(b).to_digit(base)?;
    Some(digit as u8)
}

fn is_digit(b: u8, base: u32) -> bool
    requires low { 2 ≤ base }
    requires high { base ≤ 16 }
    ensures { result ≡ is_digit base b }
{
    char::from(b).is_digit(base)
}

fn are_digits(text: &[u8], base: u32) -> bool
    requires low { 2 ≤ base }
    requires high { base ≤ 16 }
    ensures { result ≡ list_all (is_digit base) text.now }
{
    text.iter().all(|b| is_digit(*b, base))
}

/// The number of 1 to `most` digits of a base from 2 to 16, with zeros before it or not; `None` exactly where the text
/// has no digit, more of them, or something else.
pub fn numeral(text: &str, base: u32, most: usize) -> Option<u64>
    requires low { 2 ≤ base }
    requires high { base ≤ 16 }
    requires fits { base ^ most ≤ 2 ^ 64 }
    ensures value { result ≡ numeral base most text.now }
    ensures small { IfSome result (λ n. n < base ^ most) }
{
    let digits = text.as_bytes();
    if digits.is_empty() || digits.len() > most || !are_digits(digits, base) {
        return None;
    }
    u64::from_str_radix(text, base).ok()
}

/// More than any number of 64 bits.
const BEYOND: u128 = 0x1_0000_0000_0000_0000;

fn capped(n: u128) -> u128
    ensures { result ≡ min (2 ^ 64) n }
{
    if n < BEYOND { n } else { BEYOND }
}

/// The number that digits of a base from 2 to 16 write, however many they are, with zeros before it or not. 2^64 stands
/// for each number that isn't below it. `None` exactly where there is no digit or something else.
pub fn number(digits: &[u8], base: u32) -> Option<u128>
    requires low { 2 ≤ base }
    requires high { base ≤ 16 }
    ensures { result ≡ option_map (min (2 ^ 64)) (number base digits.now) }
{
    if digits.is_empty() {
        return None;
    }
    let mut n = 0u128;
    for b in digits {
        let digit = digit(*b, base)?;
        n = capped(n * u128::from(base) + u128::from(digit));
    }
    Some(n)
}

/// The number of `0x` and 1 to `most` hexadecimal digits of either case, at most 16 of them.
pub fn hex_number(text: &str, most: usize) -> Option<u64>
    requires { most ≤ 16 }
    ensures { result ≡ hex_number most text.now }
{
    numeral(after_prefix(text)?, 16, most)
}

/// What follows the `0x` that a text begins with; `None` exactly where it begins otherwise.
pub fn after_prefix(text: &str) -> Option<&str>
    ensures { option_map (λ s. s.now) result ≡ after_prefix text.now }
{
    after_byte(after_byte(text, '0')?, 'x')
}
