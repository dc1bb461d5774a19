ghost use Rattle.std.specs.Prelude.{◌≡◌, ◌+◌, ◌*◌, ◌/◌, ◌%◌, ◌<◌, ◌≤◌, IsTrue, IfSome, is_none};
ghost use Rattle.x86_alu.specs.Operand.{span, residue};
ghost use Rattle.x86_alu.specs.Product.{value, integer, fits, product_bits, mul_flags, quotient_of, remainder_of, div_faults, div_flags};

use crate::flags::{CLEAR, Flags, with_flags};
use crate::operand::{mask_of, size_of, truncated};
use vm_law::Width;

// The greatest number of twice the width.
fn wide_mask_of(width: Width) -> u128
    ensures { result + 1 ≡ span width * span width }
{
    match width {
        Width::B => 0xFFFF,
        Width::W => 0xFFFF_FFFF,
        Width::D => 0xFFFF_FFFF_FFFF_FFFF,
        Width::Q => u128::MAX,
    }
}

// The sign and the size of the integer that an operand stands for. `mask` is the greatest operand.
fn magnitude(signed: bool, mask: u128, a: u128) -> (bool, u128)
    requires odd { mask % 2 ≡ 1 }
    requires a_fits { a ≤ mask }
    ensures value { value signed (mask + 1) a ≡ integer result.0 result.1 }
    ensures fits { result.1 ≤ mask }
    ensures some { result.1 ≡ 0 → a ≡ 0 }
{
    if signed && a > mask >> 1 {
        (true, mask - a + 1)
    } else {
        (false, a)
    }
}

// The operand that stands for an integer.
fn operand_of(mask: u128, negative: bool, size: u128) -> u128
    requires { size ≤ mask }
    ensures operand { result ≡ residue (mask + 1) (integer negative size) }
    ensures fits { result ≤ mask }
{
    if negative && size > 0 {
        mask - size + 1
    } else {
        size
    }
}

// Whether an integer has an operand.
fn fits(signed: bool, mask: u128, negative: bool, size: u128) -> bool
    requires odd { mask % 2 ≡ 1 }
    ensures fits { result ≡ fits signed (mask + 1) (integer negative size) }
    ensures within { IsTrue result → size ≤ mask }
{
    match (signed, negative) {
        (true, true) => size <= (mask >> 1) + 1,
        (true, false) => size <= mask >> 1,
        (false, true) => size == 0,
        (false, false) => size <= mask,
    }
}

/// The product of two operands, as its lower and its upper half, and RFLAGS after it, `flags` being RFLAGS before.
///
/// With `signed` it is IMUL's, else MUL's. CF and OF are set where the product doesn't fit the lower half; the other
/// four flags, which the processor leaves undefined, are clear. Source: Intel SDM volume 2, MUL and IMUL.
pub fn mul(signed: bool, width: Width, a: u64, b: u64, flags: u64) -> (u64, u64, u64)
    requires a_fits { a < span width }
    requires b_fits { b < span width }
    ensures lower { result.0 ≡ product_bits signed (span width) a b % span width }
    ensures upper { result.1 ≡ product_bits signed (span width) a b / span width }
    ensures lower_fits { result.0 < span width }
    ensures upper_fits { result.1 < span width }
    ensures flags { result.2 ≡ mul_flags signed (span width) a b flags }
{
    let mask = u128::from(mask_of(width));
    let (a_negative, a_size) = magnitude(signed, mask, u128::from(a));
    let (b_negative, b_size) = magnitude(signed, mask, u128::from(b));
    let negative = a_negative != b_negative;
    let size = a_size * b_size;
    let product = operand_of(wide_mask_of(width), negative, size);
    let over = !fits(signed, mask, negative, size);
    (
        truncated(width, product),
        truncated(width, product >> size_of(width)),
        with_flags(
            flags,
            Flags {
                cf: over,
                of: over,
                ..CLEAR
            },
        ),
    )
}

/// The quotient and the remainder of the dividend whose halves are `high` and `low`, and RFLAGS after the division,
/// `flags` being RFLAGS before. `None` where the divisor is 0 or the quotient doesn't fit: #DE.
///
/// With `signed` it is IDIV, else DIV. The quotient is rounded toward zero, and the remainder has the dividend's sign.
/// All six flags, which the processor leaves undefined, are clear. Source: Intel SDM volume 2, DIV and IDIV.
pub fn div(
    signed: bool,
    width: Width,
    high: u64,
    low: u64,
    by: u64,
    flags: u64,
) -> Option<(u64, u64, u64)>
    requires high_fits { high < span width }
    requires low_fits { low < span width }
    requires by_fits { by < span width }
    ensures faults { is_none result ≡ div_faults signed (span width) high low by }
    ensures quotient { IfSome result (λ r. r.0 ≡ residue (span width) (quotient_of signed (span width) high low by)) }
    ensures remainder { IfSome result (λ r. r.1 ≡ residue (span width) (remainder_of signed (span width) high low by)) }
    ensures quotient_fits { IfSome result (λ r. r.0 < span width) }
    ensures remainder_fits { IfSome result (λ r. r.1 < span width) }
    ensures flags { IfSome result (λ r. r.2 ≡ div_flags flags) }
{
    let mask = u128::from(mask_of(width));
    let dividend = (u128::from(high) << size_of(width)) + u128::from(low);
    let (negative, size) = magnitude(signed, wide_mask_of(width), dividend);
    let (by_negative, by_size) = magnitude(signed, mask, u128::from(by));
    if by == 0 {
        return None;
    }
    let quotient = size / by_size;
    let turned = negative != by_negative;
    if !fits(signed, mask, turned, quotient) {
        return None;
    }
    Some((
        operand_of(mask, turned, quotient) as u64,
        operand_of(mask, negative, size % by_size) as u64,
        with_flags(flags, CLEAR),
    ))
}
