//! Numbers, bytes and registers.
ghost use Rattle.std.specs.Prelude.{◌≡◌, ◌<◌, ◌^◌, IfOk, IfSome, IfNone, length, ◌∷◌};
ghost use Rattle.text_reader.specs.Digits.{numeral};
ghost use Rattle.ctl_script.specs.Numeral.{byte_of, hex_bytes, register_of, register_name};

use std::alloc::Global;
use text_reader::{digit, numeral};
use vm_law::{OutOfMemory, Seq};

/// The number of 1 to 18 decimal digits.
pub fn count(text: &str) -> Option<u64>
    ensures { result ≡ numeral 10 18 text.now }
{
    numeral(text, 10, 18)
}

/// The number of 1 to 9 decimal digits.
pub fn index(text: &str) -> Option<u64>
    ensures number { result ≡ numeral 10 9 text.now }
    ensures small { IfSome result (λ n. n < 10 ^ 9) }
{
    numeral(text, 10, 9)
}

fn first_pair(text: &[u8]) -> Option<((u8, u8), &[u8])>
    ensures some { IfSome result (λ p. text.now ≡ p.0.0 ∷ p.0.1 ∷ p.1.now) }
    ensures none { IfNone result (length text.now < 2) }
{
    match text {
        [high, low, after @ ..] => Some(((*high, *low), after)),
        _ => None,
    }
}

// The byte that two hexadecimal digits write.
fn byte_of(pair: (u8, u8)) -> Option<u8>
    ensures { result ≡ byte_of pair.0 pair.1 }
{
    let high = digit(pair.0, 16)?;
    let low = digit(pair.1, 16)?;
    Some(high * 16 + low)
}

/// The bytes that pairs of hexadecimal digits write.
pub fn hex_bytes(alloc: Global, text: &str) -> Result<Option<Seq<u8>>, OutOfMemory>
    ensures { IfOk result (λ bytes. bytes ≡ hex_bytes text.now) }
{
    let mut bytes = Vec::new(alloc);
    let mut rest = text.as_bytes();
    while let Some((pair, after)) = first_pair(rest) {
        let Some(byte) = byte_of(pair) else {
            return Ok(None);
        };
        bytes.push(byte)?;
        rest = after;
    }
    if rest.is_empty() {
        Ok(Some(Seq::from_vec(bytes)))
    } else {
        Ok(None)
    }
}

/// The number of a register: as in a context, `rip` 16, `rflags` 17.
pub fn register_of(name: &str) -> Option<u8>
    ensures { result ≡ register_of name.now }
{
    match name {
        "rax" => Some(0),
        "rcx" => Some(1),
        "rdx" => Some(2),
        "rbx" => Some(3),
        "rsp" => Some(4),
        "rbp" => Some(5),
        "rsi" => Some(6),
        "rdi" => Some(7),
        "r8" => Some(8),
        "r9" => Some(9),
        "r10" => Some(10),
        "r11" => Some(11),
        "r12" => Some(12),
        "r13" => Some(13),
        "r14" => Some(14),
        "r15" => Some(15),
        "rip" => Some(16),
        "rflags" => Some(17),
        _ => None,
    }
}

/// The name of a register.
pub fn register_name(register: u8) -> &'static str
    requires { register < 18 }
    ensures { result.now ≡ register_name register }
{
    match register {
        0 => "rax",
        1 => "rcx",
        2 => "rdx",
        3 => "rbx",
        4 => "rsp",
        5 => "rbp",
        6 => "rsi",
        7 => "rdi",
        8 => "r8",
        9 => "r9",
        10 => "r10",
        11 => "r11",
        12 => "r12",
        13 => "r13",
        14 => "r14",
        15 => "r15",
        16 => "rip",
        _ => "rflags",
    }
}
