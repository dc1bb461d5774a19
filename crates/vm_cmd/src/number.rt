//! Numbers in decimal digits, and pairs of them.
ghost use Rattle.std.specs.Prelude.{◌≡◌, ◌≤◌, ◌^◌, option_map};
ghost use Rattle.vm_cmd.specs.Table.{number_in, counter_of, pair_of, pair_option};

use text_reader::{cut_at, numeral};

/// A number from `low` to `high` in 1 to `most` decimal digits.
pub fn number(text: &str, most: usize, low: u64, high: u64) -> Option<u64>
    requires { 10 ^ most ≤ 2 ^ 64 }
    ensures { result ≡ number_in most low high text.now }
{
    let n = numeral(text, 10, most)?;
    if n < low || n > high { None } else { Some(n) }
}

/// A number in 1 to 9 decimal digits.
pub fn counter_of(text: &str) -> Option<u32>
    ensures { result ≡ counter_of text.now }
{
    let n = numeral(text, 10, 9)?;
    Some(n as u32)
}

/// Two numbers with a colon between them.
fn pair_of(text: &str) -> Option<(u32, u32)>
    ensures { result ≡ pair_of text.now }
{
    let (first, second) = cut_at(text, ':')?;
    let first = counter_of(first)?;
    let second = counter_of(second)?;
    Some((first, second))
}

/// What an option says whose value is two numbers, and which may be left out.
pub fn pair_option(text: Option<&str>) -> Option<Option<(u32, u32)>>
    ensures { result ≡ pair_option (option_map (λ t. t.now) text.entry) }
{
    match text {
        Some(text) => Some(Some(pair_of(text)?)),
        None => Some(None),
    }
}
