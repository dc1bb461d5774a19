//! Each call once. What a processor answers to some 600 operations are cases of the program `x86_cases`.
use vm_law::{ShiftOp, Width};
use x86_alu::{AluOp, BitOp, Flags, alu, bits, div, mul, only_these_change, shift};

// Every bit of RFLAGS but the six status flags: no call reads or changes one of them.
const OTHERS: u64 = 0xFFFF_FFFF_FFFF_F72A;

// 0x7F + 0x80 and the carry is 0x100: CF, PF, AF and ZF are set.
#[test]
fn a_sum_with_its_carry(rt: HostRuntime) {
    let (word, flags) = alu(AluOp::Adc, Width::B, 0x7F, 0x80, OTHERS | 1);
    assert!(rt; word == 0 && flags == OTHERS | 0x55);
}

// SHL of 32 ones by 33 moves one place: CF and SF are set.
#[test]
fn a_shift_by_its_count_modulo_the_width(rt: HostRuntime) {
    let (word, flags) = shift(ShiftOp::Shl, Width::D, 0xFFFF_FFFF, 33, OTHERS);
    assert!(rt; word == 0xFFFF_FFFE && flags == OTHERS | 0x81);
}

// -2 times 128 is -256, which doesn't fit a byte: CF and OF are set.
#[test]
fn a_signed_product(rt: HostRuntime) {
    let (lower, upper, flags) = mul(true, Width::B, 0xFE, 0x80, OTHERS);
    assert!(rt; lower == 0 && upper == 1 && flags == OTHERS | 0x801);
}

// -7 by 2 is -3, and -1 remains.
#[test]
fn a_signed_quotient(rt: HostRuntime) {
    let answer = div(true, Width::W, 0xFFFF, 0xFFF9, 2, OTHERS | 0x8D5);
    assert!(rt; answer == Some((0xFFFD, 0xFFFF, OTHERS)));
    assert!(rt; div(false, Width::W, 0, 5, 0, 0).is_none());
}

// Bit 35 is bit 3 at 32 bits.
#[test]
fn a_test_and_a_scan(rt: HostRuntime) {
    let (word, flags) = bits(BitOp::Btr, Width::D, 0xF, 35, OTHERS | 0x40);
    assert!(rt; word == 7 && flags == OTHERS | 0x41);
    assert!(rt; bits(BitOp::Bsf, Width::Q, 0, 0x80, OTHERS) == (7, OTHERS));
}

#[test]
fn the_law_of_the_flags_is_a_call() {
    only_these_change(
        OTHERS,
        Flags {
            cf: true,
            pf: false,
            af: true,
            zf: false,
            sf: true,
            of: false,
        },
    );
}
