ghost use Rattle.std.specs.Prelude.{◌≡◌, ◌+◌, ◌%◌, ◌<◌};
ghost use Rattle.x86_alu.specs.Operand.{size_of, span, is_negative};

use vm_law::Width;

/// How many bits an operand has.
#[inline(always)]
pub(crate) fn size_of(width: Width) -> u32
    ensures { result ≡ size_of width }
{
    match width {
        Width::B => 8,
        Width::W => 16,
        Width::D => 32,
        Width::Q => 64,
    }
}

/// The greatest operand: a one in each bit.
#[inline(always)]
pub(crate) fn mask_of(width: Width) -> u64
    ensures { result + 1 ≡ span width }
{
    match width {
        Width::B => 0xFF,
        Width::W => 0xFFFF,
        Width::D => 0xFFFF_FFFF,
        Width::Q => u64::MAX,
    }
}

/// The low bits of a number, as many as an operand has.
#[inline]
pub(crate) fn truncated(width: Width, number: u128) -> u64
    ensures { result ≡ number % span width }
{
    (number & u128::from(mask_of(width))) as u64
}

/// The top bit.
#[inline]
pub(crate) fn is_negative(width: Width, a: u64) -> bool
    requires { a < span width }
    ensures { result ≡ is_negative (span width) a }
{
    a >> (size_of(width) - 1) == 1
}
