ghost use Rattle.std.specs.Prelude.{◌≡◌, ◌≤◌, ◌^◌, min, option_map, option_and_then, map, IfSome};
ghost use Rattle.std.specs.Str.{bytes_eq};
ghost use Rattle.std.specs.Char.{to_ascii_lowercase};
ghost use Rattle.text_reader.specs.Digits.{number};
ghost use Rattle.cfg_vm.specs.Number.{number_then, counted, count_or, at_most, has_leading_zero, bytes_of_bare, slot_number, memory_or, memory_of, with_unit, bare, sized, boolean_or};

use crate::error::PlanKind;
use text_reader::number;

/// More than any number that is allowed; larger ones are all the same.
const BEYOND: u64 = 1_073_741_825;

/// The number, or `BEYOND` where it is larger.
fn capped(n: u128) -> u64
    ensures { result ≡ min 1073741825 n }
{
    if n < u128::from(BEYOND) {
        n as u64
    } else {
        BEYOND
    }
}

/// The number that decimal digits spell, at most `BEYOND`; `None` where there is no digit or something else.
fn decimal(digits: &[u8]) -> Option<u64>
    ensures value { result ≡ option_map (min 1073741825) (number 10 digits.now) }
    ensures small { IfSome result (λ n. n ≤ 1073741825) }
{
    match number(digits, 10) {
        Some(n) => Some(capped(n)),
        None => None,
    }
}

/// A number from 1 to `high`.
fn counted(high: u8, n: u64) -> Result<u8, PlanKind>
    ensures { result ≡ counted high n }
{
    if n > u64::from(high) {
        return Err(PlanKind::Range);
    }
    if n < 1 {
        return Err(PlanKind::Range);
    }
    Ok(n as u8)
}

/// A number from 1 to `high`, or the default where there is no value.
pub(crate) fn count_or(default: u8, high: u8, text: Option<&str>) -> Result<u8, PlanKind>
    ensures { result ≡ count_or default high (option_map (λ t. t.now) text.entry) }
{
    match text {
        Some(text) => count_of(high, text.as_bytes()),
        None => Ok(default),
    }
}

fn count_of(high: u8, digits: &[u8]) -> Result<u8, PlanKind>
    ensures { result ≡ number_then (counted high) (number 10 digits.now) }
{
    match decimal(digits) {
        Some(n) => counted(high, n),
        None => Err(PlanKind::Number),
    }
}

fn at_most(most: u8, n: u64) -> Option<u8>
    ensures { result ≡ at_most most n }
{
    if n > u64::from(most) {
        None
    } else {
        Some(n as u8)
    }
}

fn has_leading_zero(digits: &[u8]) -> bool
    ensures { result ≡ has_leading_zero digits.now }
{
    match digits {
        [] => false,
        [_] => false,
        [first, _, ..] => *first == b'0',
    }
}

/// A number up to `most`.
fn number_to(most: u8, digits: &[u8]) -> Option<u8>
    ensures { result ≡ option_and_then (at_most most) (number 10 digits.now) }
{
    match decimal(digits) {
        Some(n) => at_most(most, n),
        None => None,
    }
}

/// A number up to `most` without leading zeros.
pub(crate) fn slot_number(most: u8, text: &str) -> Option<u8>
    ensures { result ≡ slot_number most text.now }
{
    if has_leading_zero(text.as_bytes()) {
        return None;
    }
    number_to(most, text.as_bytes())
}

/// A size of memory that is allowed.
fn sized(bytes: u64) -> Result<u64, PlanKind>
    ensures { result ≡ sized bytes }
{
    if bytes > 1_073_741_824 {
        return Err(PlanKind::Range);
    }
    if bytes < 1_048_576 {
        return Err(PlanKind::Range);
    }
    if bytes % 4096 == 0 {
        Ok(bytes)
    } else {
        Err(PlanKind::Range)
    }
}

/// So many units.
fn with_unit(unit: u64, digits: &[u8]) -> Result<u64, PlanKind>
    requires some { 1 ≤ unit }
    requires small { unit ≤ 2 ^ 30 }
    ensures { result ≡ with_unit unit digits.now }
{
    if digits.len() > 18 {
        return Err(PlanKind::Number);
    }
    match decimal(digits) {
        Some(n) => sized(n * unit),
        None => Err(PlanKind::Number),
    }
}

/// The bytes of a number without a unit: below 1,048,576 it counts MiB.
fn bytes_of_bare(n: u64) -> u64
    ensures { result ≡ bytes_of_bare n }
{
    if n < 1_048_576 { n * 1_048_576 } else { n }
}

/// So many MiB, or bytes.
fn bare(digits: &[u8]) -> Result<u64, PlanKind>
    ensures { result ≡ bare digits.now }
{
    if digits.len() > 18 {
        return Err(PlanKind::Number);
    }
    match decimal(digits) {
        Some(n) => sized(bytes_of_bare(n)),
        None => Err(PlanKind::Number),
    }
}

fn memory_of(text: &[u8]) -> Result<u64, PlanKind>
    ensures { result ≡ memory_of text.now }
{
    match text {
        [digits @ .., b'K' | b'k'] => with_unit(1024, digits),
        [digits @ .., b'M' | b'm'] => with_unit(1_048_576, digits),
        [digits @ .., b'G' | b'g'] => with_unit(1_073_741_824, digits),
        _ => bare(text),
    }
}

/// A size of memory in bytes; 256 MiB where there is no value.
pub(crate) fn memory_or(text: Option<&str>) -> Result<u64, PlanKind>
    ensures { result ≡ memory_or (option_map (λ t. t.now) text.entry) }
{
    match text {
        None => Ok(268_435_456),
        Some(text) => memory_of(text.as_bytes()),
    }
}

/// Whether a text is a word, in any ASCII case; the word is in lower case.
fn is_word(text: &str, word: &str) -> bool
    ensures { result ≡ bytes_eq (map to_ascii_lowercase text.now) (map to_ascii_lowercase word.now) }
{
    text.as_bytes().eq_ignore_ascii_case(word.as_bytes())
}

/// A boolean; false where there is no value.
pub(crate) fn boolean_or(text: Option<&str>) -> Result<bool, PlanKind>
    ensures { result ≡ boolean_or (option_map (λ t. t.now) text.entry) }
{
    let Some(text) = text else {
        return Ok(false);
    };
    if is_word(text, "true") || is_word(text, "on") || is_word(text, "yes") || is_word(text, "1") {
        return Ok(true);
    }
    if is_word(text, "false") || is_word(text, "off") || is_word(text, "no") || is_word(text, "0") {
        return Ok(false);
    }
    Err(PlanKind::Boolean)
}
