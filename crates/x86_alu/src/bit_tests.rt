ghost use Rattle.std.specs.Prelude.{◌≡◌, ◌≢◌, ◌+◌, ◌<◌, ◌==◌, if◌then◌else◌};
ghost use Rattle.x86_alu.specs.Operand.{size_of, span};
ghost use Rattle.x86_alu.specs.BitTest.{IsLowestOne, IsHighestOne, lowest_one, highest_one, bit_result, test_flags, scan_flags, bit_flags};

use crate::flags::{CLEAR, Flags, ZF, is_set, with_bit, with_flags};
use crate::op::BitOp;
use crate::operand::size_of;
use vm_law::Width;

// RFLAGS after a test of a bit.
#[tactic(auto, unfolding(crate::specs::BitTest::test_flags))]
fn test_flags(width: Width, a: u64, index: u64, flags: u64) -> u64
    ensures { result ≡ test_flags (size_of width) a index flags }
{
    let place = (index % u64::from(size_of(width))) as u32;
    with_flags(
        flags,
        Flags {
            cf: is_set(a, place),
            zf: is_set(flags, ZF),
            ..CLEAR
        },
    )
}

// RFLAGS after a scan.
#[tactic(auto, unfolding(crate::specs::BitTest::scan_flags))]
fn scan_flags(source: u64, flags: u64) -> u64
    ensures { result ≡ scan_flags source flags }
{
    with_flags(
        flags,
        Flags {
            zf: source == 0,
            ..CLEAR
        },
    )
}

// The place of the lowest 1, or `a` where there is none.
fn scan_forward(a: u64, source: u64) -> u64
    ensures result { result ≡ (if source == 0 then a else lowest_one source) }
    ensures lowest { 0 < source → IsLowestOne source result }
    ensures small { 0 < source → result < 64 }
{
    if source == 0 {
        return a;
    }
    u64::from(source.trailing_zeros())
}

// The place of the highest 1, or `a` where there is none.
fn scan_reverse(a: u64, source: u64) -> u64
    ensures result { result ≡ (if source == 0 then a else highest_one source) }
    ensures highest { 0 < source → IsHighestOne source result }
    ensures small { 0 < source → result < 64 }
{
    if source == 0 {
        return a;
    }
    u64::from(63 - source.leading_zeros())
}

/// A test of one bit or a scan for one, and RFLAGS after it, `flags` being RFLAGS before.
///
/// `a` is the destination before, `b` the index of a test, which is taken modulo the width, or the operand that a scan
/// looks through. A scan of 0 leaves `a`. A test puts the bit into CF and keeps ZF; a scan sets ZF where there is
/// nothing to find; of the other flags, which the processor leaves undefined, all are clear.
/// Source: Intel SDM volume 2, BT, BTS, BTR, BTC, BSF and BSR.
#[tactic(auto, unfolding(crate::specs::BitTest::bit_flags, crate::specs::BitTest::bit_result))]
pub fn bits(op: BitOp, width: Width, a: u64, b: u64, flags: u64) -> (u64, u64)
    requires a_fits { a < span width }
    requires b_fits { b < span width }
    requires not_byte { width ≢ Width.B }
    ensures result { result.0 ≡ bit_result op (size_of width) a b }
    ensures lowest { op ≡ BitOp.Bsf → 0 < b → IsLowestOne b result.0 }
    ensures highest { op ≡ BitOp.Bsr → 0 < b → IsHighestOne b result.0 }
    ensures fits { result.0 < span width }
    ensures flags { result.1 ≡ bit_flags op (size_of width) a b flags }
{
    let place = (b % u64::from(size_of(width))) as u32;
    match op {
        BitOp::Bt => (a, test_flags(width, a, b, flags)),
        BitOp::Bts => (with_bit(a, place, true), test_flags(width, a, b, flags)),
        BitOp::Btr => (with_bit(a, place, false), test_flags(width, a, b, flags)),
        BitOp::Btc => (
            with_bit(a, place, !is_set(a, place)),
            test_flags(width, a, b, flags),
        ),
        BitOp::Bsf => (scan_forward(a, b), scan_flags(b, flags)),
        BitOp::Bsr => (scan_reverse(a, b), scan_flags(b, flags)),
    }
}
