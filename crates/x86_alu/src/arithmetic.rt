ghost use Rattle.std.specs.Prelude.{◌≡◌, ◌+◌, ◌-◌, ◌%◌, ◌<◌, nat_lt, nat_le, pos, ◌+ℤ◌, ◌-ℤ◌, not};
ghost use Rattle.x86_alu.specs.Operand.{span, signed, fits_signed};
ghost use Rattle.x86_alu.specs.Flags.{bit, carry_of, of_result, with_flags};
ghost use Rattle.x86_alu.specs.Arithmetic.{sum_of, added, difference_of, subtracted, alu_result, alu_flags};

use crate::flags::{CF, Flags, is_set, of_result, with_flags};
use crate::op::AluOp;
use crate::operand::{mask_of, size_of, truncated};
use vm_law::Width;

// The sum has another sign than both numbers.
#[inline]
fn sum_overflows(width: Width, a: u64, b: u64, carry: bool, sum: u64) -> bool
    requires a_fits { a < span width }
    requires b_fits { b < span width }
    requires is_sum { sum ≡ sum_of (span width) a b (bit carry) }
    ensures { result ≡ not (fits_signed (span width) (signed (span width) a +ℤ signed (span width) b +ℤ pos (bit carry))) }
{
    is_set((a ^ sum) & (b ^ sum), size_of(width) - 1)
}

// What the low four bits carry is seen in the fifth, which is otherwise that of one number or the other.
#[inline]
fn sum_carries_digit(width: Width, a: u64, b: u64, carry: bool, sum: u64) -> bool
    requires { sum ≡ sum_of (span width) a b (bit carry) }
    ensures { result ≡ nat_le 16 (a % 16 + b % 16 + bit carry) }
{
    is_set(a ^ b ^ sum, 4)
}

/// The sum of two operands and a carry, and its flags.
#[inline(always)]
#[tactic(auto, unfolding(crate::specs::Arithmetic::added))]
fn added(width: Width, a: u64, b: u64, carry: bool) -> (u64, Flags)
    requires a_fits { a < span width }
    requires b_fits { b < span width }
    ensures sum { result.0 ≡ sum_of (span width) a b (bit carry) }
    ensures flags { result.1 ≡ added (span width) a b (bit carry) }
{
    let wide = u128::from(a) + u128::from(b) + u128::from(carry);
    let sum = truncated(width, wide);
    let flags = Flags {
        cf: wide > u128::from(mask_of(width)),
        af: sum_carries_digit(width, a, b, carry, sum),
        of: sum_overflows(width, a, b, carry, sum),
        ..of_result(width, sum)
    };
    (sum, flags)
}

// The numbers have different signs, and the difference hasn't the first one's.
#[inline]
fn difference_overflows(width: Width, a: u64, b: u64, borrow: bool, difference: u64) -> bool
    requires a_fits { a < span width }
    requires b_fits { b < span width }
    requires is_difference { difference ≡ difference_of (span width) a b (bit borrow) }
    ensures { result ≡ not (fits_signed (span width) (signed (span width) a -ℤ signed (span width) b -ℤ pos (bit borrow))) }
{
    is_set((a ^ b) & (a ^ difference), size_of(width) - 1)
}

// What the low four bits borrow is seen in the fifth, as in a sum.
#[inline]
fn difference_borrows_digit(width: Width, a: u64, b: u64, borrow: bool, difference: u64) -> bool
    requires b_fits { b < span width }
    requires is_difference { difference ≡ difference_of (span width) a b (bit borrow) }
    ensures { result ≡ nat_lt (a % 16) (b % 16 + bit borrow) }
{
    is_set(a ^ b ^ difference, 4)
}

/// The difference of two operands and a borrow, and its flags.
#[inline(always)]
#[tactic(auto, unfolding(crate::specs::Arithmetic::subtracted))]
fn subtracted(width: Width, a: u64, b: u64, borrow: bool) -> (u64, Flags)
    requires a_fits { a < span width }
    requires b_fits { b < span width }
    ensures difference { result.0 ≡ difference_of (span width) a b (bit borrow) }
    ensures flags { result.1 ≡ subtracted (span width) a b (bit borrow) }
{
    let taken = u128::from(b) + u128::from(borrow);
    let difference = truncated(
        width,
        u128::from(mask_of(width)) + 1 + u128::from(a) - taken,
    );
    let flags = Flags {
        cf: u128::from(a) < taken,
        af: difference_borrows_digit(width, a, b, borrow, difference),
        of: difference_overflows(width, a, b, borrow, difference),
        ..of_result(width, difference)
    };
    (difference, flags)
}

// A bitwise result with its flags.
#[inline]
fn bitwise(width: Width, word: u64) -> (u64, Flags)
    requires { word < span width }
    ensures word { result.0 ≡ word }
    ensures flags { result.1 ≡ of_result (span width) word }
{
    (word, of_result(width, word))
}

// The same answer with another carry flag.
#[inline]
fn keeping_carry(carry: bool, answer: (u64, Flags)) -> (u64, Flags)
    ensures word { result.0 ≡ answer.0 }
    ensures flags { result.1 ≡ record answer.1 { cf = carry } }
{
    (
        answer.0,
        Flags {
            cf: carry,
            ..answer.1
        },
    )
}

// An answer with its flags written into RFLAGS.
#[inline]
fn finished(rflags: u64, answer: (u64, Flags)) -> (u64, u64)
    ensures word { result.0 ≡ answer.0 }
    ensures flags { result.1 ≡ with_flags rflags answer.1 }
{
    (answer.0, with_flags(rflags, answer.1))
}

/// The result of an operation on operands of `width`, and RFLAGS after it.
///
/// `flags` is RFLAGS before: of it ADC and SBB read the carry flag, INC and DEC keep it, NOT keeps all, and every
/// operation keeps all bits but the six status flags. NOT, NEG, INC and DEC ignore `b`. The result of CMP and TEST is
/// for the caller to drop. Source: Intel SDM volume 2, the pages of the instructions.
#[inline(always)]
#[tactic(auto, unfolding(crate::specs::Arithmetic::alu_result, crate::specs::Arithmetic::alu_flags))]
pub fn alu(op: AluOp, width: Width, a: u64, b: u64, flags: u64) -> (u64, u64)
    requires a_fits { a < span width }
    requires b_fits { b < span width }
    ensures result { result.0 ≡ alu_result op (span width) a b (carry_of flags) }
    ensures fits { result.0 < span width }
    ensures flags { result.1 ≡ alu_flags op (span width) a b flags }
{
    match op {
        AluOp::Add => finished(flags, added(width, a, b, false)),
        AluOp::Adc => finished(flags, added(width, a, b, is_set(flags, CF))),
        AluOp::Sub | AluOp::Cmp => finished(flags, subtracted(width, a, b, false)),
        AluOp::Sbb => finished(flags, subtracted(width, a, b, is_set(flags, CF))),
        AluOp::And | AluOp::Test => finished(flags, bitwise(width, a & b)),
        AluOp::Or => finished(flags, bitwise(width, a | b)),
        AluOp::Xor => finished(flags, bitwise(width, a ^ b)),
        AluOp::Not => (mask_of(width) - a, flags),
        AluOp::Neg => finished(flags, subtracted(width, 0, a, false)),
        AluOp::Inc => finished(
            flags,
            keeping_carry(is_set(flags, CF), added(width, a, 1, false)),
        ),
        AluOp::Dec => finished(
            flags,
            keeping_carry(is_set(flags, CF), subtracted(width, a, 1, false)),
        ),
    }
}
