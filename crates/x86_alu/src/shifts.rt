ghost use Rattle.std.specs.Prelude.{◌≡◌, ◌+◌, ◌-◌, ◌*◌, ◌/◌, ◌%◌, ◌^◌, ◌<◌, ◌≤◌, ◌==◌, ◌&&◌};
ghost use Rattle.x86_alu.specs.Operand.{size_of, span};
ghost use Rattle.x86_alu.specs.Shift.{differ, count_of, shl_of, shr_of, sar_of, rol_of, ror_of, shl_carry, shr_carry, sar_carry, rol_flags, ror_flags, shl_flags, shr_flags, sar_flags, shifted, flags_moved, shift_result, shift_flags};

use crate::flags::{Flags, is_set, of_result, with_carry_overflow, with_flags};
use crate::operand::{is_negative, mask_of, size_of, truncated};
use vm_law::{ShiftOp, Width};

/// A shift's count modulo 32, or 64 at width 64.
fn count_of(width: Width, count: u8) -> u32
    ensures { result ≡ count_of width count }
{
    match width {
        Width::Q => u32::from(count & 63),
        _ => u32::from(count & 31),
    }
}

// SHL: what leaves at the top is lost.
fn shl(width: Width, a: u64, n: u32) -> u64
    requires fits { a < span width }
    requires count { n ≤ 64 }
    ensures { result ≡ shl_of (size_of width) a n }
{
    truncated(width, u128::from(a) << n)
}

// SAR: a negative operand is turned over, shifted, and turned back.
fn sar(width: Width, a: u64, n: u32) -> u64
    requires fits { a < span width }
    requires count { n < 64 }
    ensures result { result ≡ sar_of (size_of width) a n }
    ensures fits { result < span width }
{
    let mask = mask_of(width);
    if is_negative(width, a) {
        mask - ((mask - a) >> n)
    } else {
        a >> n
    }
}

// ROL: what leaves at the top comes in at the bottom.
fn rol(width: Width, a: u64, n: u32) -> u64
    requires { a < span width }
    ensures result { result ≡ rol_of (size_of width) a n }
    ensures fits { result < span width }
{
    let size = size_of(width);
    let by = n % size;
    shl(width, a, by) + (u128::from(a) >> (size - by)) as u64
}

// ROR: what leaves at the bottom comes in at the top.
fn ror(width: Width, a: u64, n: u32) -> u64
    requires { a < span width }
    ensures result { result ≡ ror_of (size_of width) a n }
    ensures fits { result < span width }
{
    let size = size_of(width);
    let by = n % size;
    (a >> by) + shl(width, a, size - by)
}

// Whether one of two is true, and not both.
fn differ(a: bool, b: bool) -> bool
    ensures { result ≡ differ a b }
{
    a != b
}

// A flag that is defined for a count of 1.
fn at_one(n: u32, flag: bool) -> bool
    ensures { result ≡ (n == 1 && flag) }
{
    n == 1 && flag
}

// The bit that SHL moves out last.
#[tactic(auto, unfolding(crate::specs::Shift::shl_carry))]
fn shl_carry(width: Width, a: u64, n: u32) -> bool
    requires { 0 < n }
    ensures { result ≡ shl_carry (size_of width) a n }
{
    let size = size_of(width);
    n < size && is_set(a, size - n)
}

// The bit that SHR moves out last.
#[tactic(auto, unfolding(crate::specs::Shift::shr_carry))]
fn shr_carry(width: Width, a: u64, n: u32) -> bool
    requires { 0 < n }
    ensures { result ≡ shr_carry (size_of width) a n }
{
    n < size_of(width) && is_set(a, n - 1)
}

// The bit that SAR moves out last.
fn sar_carry(width: Width, a: u64, n: u32) -> bool
    requires fits { a < span width }
    requires some { 0 < n }
    requires count { n < 64 }
    ensures { result ≡ sar_carry (size_of width) a n }
{
    is_set(sar(width, a, n - 1), 0)
}

// RFLAGS after ROL; `word` is the operand after it.
#[tactic(auto, unfolding(crate::specs::Shift::rol_flags))]
fn rol_flags(width: Width, word: u64, n: u32, flags: u64) -> u64
    requires { word < span width }
    ensures { result ≡ rol_flags (size_of width) word n flags }
{
    let carry = is_set(word, 0);
    let turned = differ(is_negative(width, word), carry);
    with_carry_overflow(flags, carry, at_one(n, turned))
}

// RFLAGS after ROR; `word` is the operand after it.
#[tactic(auto, unfolding(crate::specs::Shift::ror_flags))]
fn ror_flags(width: Width, word: u64, n: u32, flags: u64) -> u64
    requires { word < span width }
    ensures { result ≡ ror_flags (size_of width) word n flags }
{
    let top = is_negative(width, word);
    let turned = differ(top, is_set(word, size_of(width) - 2));
    with_carry_overflow(flags, top, at_one(n, turned))
}

// The flags of SHL; `word` is the operand after it.
#[tactic(auto, unfolding(crate::specs::Shift::shl_flags))]
fn shl_flags(width: Width, a: u64, word: u64, n: u32) -> Flags
    requires some { 0 < n }
    requires fits { word < span width }
    ensures { result ≡ shl_flags (size_of width) a word n }
{
    let carry = shl_carry(width, a, n);
    let turned = differ(is_negative(width, word), carry);
    Flags {
        cf: carry,
        of: at_one(n, turned),
        ..of_result(width, word)
    }
}

// The flags of SHR; `word` is the operand after it.
#[tactic(auto, unfolding(crate::specs::Shift::shr_flags))]
fn shr_flags(width: Width, a: u64, word: u64, n: u32) -> Flags
    requires some { 0 < n }
    requires a_fits { a < span width }
    requires fits { word < span width }
    ensures { result ≡ shr_flags (size_of width) a word n }
{
    Flags {
        cf: shr_carry(width, a, n),
        of: at_one(n, is_negative(width, a)),
        ..of_result(width, word)
    }
}

// The flags of SAR; `word` is the operand after it.
#[tactic(auto, unfolding(crate::specs::Shift::sar_flags))]
fn sar_flags(width: Width, a: u64, word: u64, n: u32) -> Flags
    requires some { 0 < n }
    requires count { n < 64 }
    requires a_fits { a < span width }
    requires fits { word < span width }
    ensures { result ≡ sar_flags (size_of width) a word n }
{
    Flags {
        cf: sar_carry(width, a, n),
        ..of_result(width, word)
    }
}

// The operand after a shift or rotate.
#[tactic(auto, unfolding(crate::specs::Shift::shifted))]
fn shifted(op: ShiftOp, width: Width, a: u64, n: u32) -> u64
    requires a_fits { a < span width }
    requires count { n < 64 }
    ensures result { result ≡ shifted op (size_of width) a n }
    ensures fits { result < span width }
{
    match op {
        ShiftOp::Rol => rol(width, a, n),
        ShiftOp::Ror => ror(width, a, n),
        ShiftOp::Shl => shl(width, a, n),
        ShiftOp::Shr => a >> n,
        ShiftOp::Sar => sar(width, a, n),
    }
}

// RFLAGS after a shift or rotate by a count that is not 0; `word` is the operand after it.
#[tactic(auto, unfolding(crate::specs::Shift::flags_moved))]
fn flags_moved(op: ShiftOp, width: Width, a: u64, word: u64, n: u32, flags: u64) -> u64
    requires some { 0 < n }
    requires count { n < 64 }
    requires a_fits { a < span width }
    requires fits { word < span width }
    ensures { result ≡ flags_moved op (size_of width) a word n flags }
{
    match op {
        ShiftOp::Rol => rol_flags(width, word, n, flags),
        ShiftOp::Ror => ror_flags(width, word, n, flags),
        ShiftOp::Shl => with_flags(flags, shl_flags(width, a, word, n)),
        ShiftOp::Shr => with_flags(flags, shr_flags(width, a, word, n)),
        ShiftOp::Sar => with_flags(flags, sar_flags(width, a, word, n)),
    }
}

/// A shift or rotate of `a` by a count, and RFLAGS after it, `flags` being RFLAGS before.
///
/// The count is taken modulo 32, or 64 at width 64, and a count that is then 0 changes no flag. Rotates change CF and OF alone; no operation changes a bit that isn't one of the six status
/// flags. What the processor leaves undefined is clear: AF of a shift, OF at a count other than 1, and CF of SHL and
/// SHR at a count that isn't below the width. Source: Intel SDM volume 2, SAL/SAR/SHL/SHR and RCL/RCR/ROL/ROR.
#[tactic(auto, unfolding(crate::specs::Shift::shift_flags))]
pub fn shift(op: ShiftOp, width: Width, a: u64, count: u8, flags: u64) -> (u64, u64)
    requires { a < span width }
    ensures result { result.0 ≡ shift_result op width a count }
    ensures fits { result.0 < span width }
    ensures flags { result.1 ≡ shift_flags op width a count flags }
{
    let n = count_of(width, count);
    let word = shifted(op, width, a, n);
    if n == 0 {
        return (word, flags);
    }
    (word, flags_moved(op, width, a, word, n, flags))
}
