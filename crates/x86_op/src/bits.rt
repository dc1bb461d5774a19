//! Shifts, rotates, tests and scans of bits. `ctx` is the context behind the instruction.
//! Source: Intel SDM volume 2, the pages of the instructions.
ghost use Rattle.std.specs.Prelude.{◌≡◌, ◌≢◌, ◌<◌, false};
ghost use Rattle.x86_alu.specs.Operand.{span};
ghost use Rattle.x86_op.specs.Bits as spec;

use crate::operand::{register, set_value, source_at, value_at};
use vm_law::{BitTestOp, Count, Ctx, Loc, ShiftOp, Src, Width};
use x86_alu::{BitOp, bits};

// The count of a shift, before it is taken modulo 32 or 64.
#[tactic(auto, unfolding(crate::specs::Bits::count_at))]
fn count_at(ctx: &Ctx, count: Count) -> u8
    ensures { result ≡ spec.count_at ctx.now count }
{
    match count {
        Count::Imm(n) => n,
        Count::Cl => (register(ctx, 1) % 0x100) as u8,
    }
}

/// Shifts and rotates. Answers the operand after.
#[inline(never)]
#[tactic(auto, unfolding(crate::specs::Bits::shift_done, crate::specs::Done::flagged))]
pub(crate) fn shift(
    ctx: &mut Ctx,
    width: Width,
    read: u64,
    op: ShiftOp,
    loc: &Loc,
    count: Count,
) -> u64
    ensures ctx { ctx.new ≡ (spec.shift_done ctx.old width read op loc.now count).ctx }
    ensures stored { result ≡ (spec.shift_done ctx.old width read op loc.now count).stored }
    ensures fits { result < span width }
{
    let a = value_at(ctx, width, read, loc);
    let n = count_at(ctx, count);
    let (word, flags) = x86_alu::shift(op, width, a, n, ctx.rflags);
    ctx.rflags = flags;
    set_value(ctx, width, loc, word);
    word
}

// The operation, with its result and its flags.
#[inline(always)]
#[tactic(auto, unfolding(crate::specs::Bits::bit_of))]
fn bit_of(op: BitTestOp) -> BitOp
    ensures { result ≡ spec.bit_of op }
{
    match op {
        BitTestOp::Bt => BitOp::Bt,
        BitTestOp::Bts => BitOp::Bts,
        BitTestOp::Btr => BitOp::Btr,
        BitTestOp::Btc => BitOp::Btc,
    }
}

/// Whether the operand is only read.
#[inline(always)]
pub(crate) fn only_tests(op: BitTestOp) -> bool
    ensures { result ≡ spec.only_tests op }
{
    match op {
        BitTestOp::Bt => true,
        BitTestOp::Bts | BitTestOp::Btr | BitTestOp::Btc => false,
    }
}

// The width at which there is no test or scan.
fn is_byte(width: Width) -> bool
    ensures answer { result ≡ spec.is_byte width }
    ensures other { result ≡ false → width ≢ Width.B }
{
    match width {
        Width::B => true,
        Width::W | Width::D | Width::Q => false,
    }
}

// A test of the bit of `a` that `b` names, modulo the width; `loc` is the place that held `a`.
#[tactic(auto, unfolding(crate::specs::Bits::tested, crate::specs::Done::flagged))]
fn test(ctx: &mut Ctx, width: Width, op: BitTestOp, loc: &Loc, a: u64, b: u64) -> u64
    requires a_fits { a < span width }
    requires b_fits { b < span width }
    requires not_byte { width ≢ Width.B }
    ensures ctx { ctx.new ≡ (spec.tested ctx.old width op loc.now a b).ctx }
    ensures stored { result ≡ (spec.tested ctx.old width op loc.now a b).stored }
    ensures fits { result < span width }
{
    let (word, flags) = bits(bit_of(op), width, a, b, ctx.rflags);
    ctx.rflags = flags;
    if only_tests(op) {
        return 0;
    }
    set_value(ctx, width, loc, word);
    word
}

/// BT, BTS, BTR, BTC. Answers the operand after, which BT doesn't write.
///
/// No instruction does this to 8 bits; at that width the context stays.
#[inline(never)]
#[tactic(auto, unfolding(crate::specs::Bits::bit_done))]
pub(crate) fn bit(
    ctx: &mut Ctx,
    width: Width,
    read: u64,
    op: BitTestOp,
    loc: &Loc,
    src: &Src,
) -> u64
    ensures ctx { ctx.new ≡ (spec.bit_done ctx.old width read op loc.now src.now).ctx }
    ensures stored { result ≡ (spec.bit_done ctx.old width read op loc.now src.now).stored }
    ensures fits { result < span width }
{
    if is_byte(width) {
        return 0;
    }
    let a = value_at(ctx, width, read, loc);
    let b = source_at(ctx, width, read, src);
    test(ctx, width, op, loc, a, b)
}

// A scan of `b` for a one, whose place goes into a register. A scan of 0 leaves the register.
#[tactic(auto, unfolding(crate::specs::Bits::scanned, crate::specs::Done::flagged))]
fn scan_for(ctx: &mut Ctx, op: BitOp, width: Width, r: u8, b: u64)
    requires fits { b < span width }
    requires not_byte { width ≢ Width.B }
    ensures { ctx.new ≡ spec.scanned ctx.old op width r b }
{
    let (word, flags) = bits(op, width, 0, b, ctx.rflags);
    ctx.rflags = flags;
    if b != 0 {
        set_value(ctx, width, &Loc::Reg(r), word);
    }
}

/// BSF and BSR. A scan of 0 leaves the whole register.
///
/// No instruction does this to 8 bits; at that width the context stays.
#[inline(never)]
#[tactic(auto, unfolding(crate::specs::Bits::scan_done))]
pub(crate) fn scan(ctx: &mut Ctx, op: BitOp, width: Width, read: u64, r: u8, loc: &Loc)
    ensures { ctx.new ≡ spec.scan_done ctx.old op width read r loc.now }
{
    if !is_byte(width) {
        let b = value_at(ctx, width, read, loc);
        scan_for(ctx, op, width, r, b);
    }
}
