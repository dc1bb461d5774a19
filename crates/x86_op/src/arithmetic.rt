//! ADD to CMP, TEST, NOT, NEG, INC, DEC, MUL, IMUL, DIV, IDIV. `ctx` is the context behind the instruction.
//! Source: Intel SDM volume 2, the pages of the instructions.
ghost use Rattle.std.specs.Prelude.{◌≡◌, ◌<◌};
ghost use Rattle.x86_alu.specs.Operand.{span};
ghost use Rattle.x86_alu.specs.Flags.{carry_of};
ghost use Rattle.x86_alu.specs.Arithmetic.{alu_result, alu_flags};
ghost use Rattle.x86_op.specs.Operand as operand;
ghost use Rattle.x86_op.specs.Arithmetic as spec;

use crate::operand::{
    immediate, merged, quick_source_at, register, set_pair, set_register, set_value, source_at,
    truncated, upper_half, value_at,
};
use vm_law::{ArithmeticOp, Ctx, Loc, Src, UnaryOp, Width};
use x86_alu::{AluOp, alu, div, mul};

/// The operation that gives the result and the flags.
#[inline(always)]
#[tactic(auto, unfolding(crate::specs::Arithmetic::alu_of))]
fn alu_of(op: ArithmeticOp) -> AluOp
    ensures { result ≡ spec.alu_of op }
{
    match op {
        ArithmeticOp::Add => AluOp::Add,
        ArithmeticOp::Or => AluOp::Or,
        ArithmeticOp::Adc => AluOp::Adc,
        ArithmeticOp::Sbb => AluOp::Sbb,
        ArithmeticOp::And => AluOp::And,
        ArithmeticOp::Sub => AluOp::Sub,
        ArithmeticOp::Xor => AluOp::Xor,
        ArithmeticOp::Cmp => AluOp::Cmp,
    }
}

/// Whether the result is dropped.
#[inline(always)]
pub(crate) fn drops_result(op: ArithmeticOp) -> bool
    ensures { result ≡ spec.drops_result op }
{
    match op {
        ArithmeticOp::Add
        | ArithmeticOp::Or
        | ArithmeticOp::Adc
        | ArithmeticOp::Sbb
        | ArithmeticOp::And
        | ArithmeticOp::Sub
        | ArithmeticOp::Xor => false,
        ArithmeticOp::Cmp => true,
    }
}

/// An operation whose result goes to the place that held `a`. Answers the result.
#[inline(always)]
#[tactic(auto, unfolding(crate::specs::Arithmetic::operated, crate::specs::Done::flagged))]
pub(crate) fn operate(ctx: &mut Ctx, op: AluOp, width: Width, loc: &Loc, a: u64, b: u64) -> u64
    requires a_fits { a < span width }
    requires b_fits { b < span width }
    ensures ctx { ctx.new ≡ (spec.operated ctx.old op width loc.now a b).ctx }
    ensures stored { result ≡ (spec.operated ctx.old op width loc.now a b).stored }
    ensures fits { result < span width }
{
    let (word, flags) = alu(op, width, a, b, ctx.rflags);
    ctx.rflags = flags;
    set_value(ctx, width, loc, word);
    word
}

/// An operation whose result is dropped.
#[inline(always)]
#[tactic(auto, unfolding(crate::specs::Arithmetic::compared, crate::specs::Done::flagged))]
pub(crate) fn compare(ctx: &mut Ctx, op: AluOp, width: Width, a: u64, b: u64)
    requires a_fits { a < span width }
    requires b_fits { b < span width }
    ensures { ctx.new ≡ spec.compared ctx.old op width a b }
{
    ctx.rflags = alu(op, width, a, b, ctx.rflags).1;
}

/// ADD to CMP. Answers the value for an operand in memory, which CMP doesn't write.
///
/// 32 and 64 bits have code of their own for a register.
#[inline(always)]
pub(crate) fn alu_done(
    ctx: &mut Ctx,
    width: Width,
    read: u64,
    op: ArithmeticOp,
    loc: &Loc,
    src: &Src,
) -> u64
    ensures ctx { ctx.new ≡ (spec.alu_done ctx.old width read op loc.now src.now).ctx }
    ensures stored { result ≡ (spec.alu_done ctx.old width read op loc.now src.now).stored }
    ensures fits { result < span width }
{
    match width {
        Width::D => alu_wide(ctx, Width::D, read, op, loc, src),
        Width::Q => alu_wide(ctx, Width::Q, read, op, loc, src),
        Width::B | Width::W => alu_anywhere(ctx, width, read, op, loc, src),
    }
}

// The same, where one of the 16 registers is looked for first.
#[inline(always)]
fn alu_wide(ctx: &mut Ctx, width: Width, read: u64, op: ArithmeticOp, loc: &Loc, src: &Src) -> u64
    ensures ctx { ctx.new ≡ (spec.alu_done ctx.old width read op loc.now src.now).ctx }
    ensures stored { result ≡ (spec.alu_done ctx.old width read op loc.now src.now).stored }
    ensures fits { result < span width }
{
    match *loc {
        Loc::Reg(r) if r < 16 => alu_in_register(ctx, width, read, op, r, src),
        _ => alu_anywhere(ctx, width, read, op, loc, src),
    }
}

// The same in a register.
#[inline(always)]
#[tactic(auto, unfolding(crate::specs::Arithmetic::alu_done, crate::specs::Arithmetic::operated, crate::specs::Arithmetic::compared, crate::specs::Done::flagged, crate::specs::Operand::value_at, crate::specs::Operand::with_value))]
fn alu_in_register(
    ctx: &mut Ctx,
    width: Width,
    read: u64,
    op: ArithmeticOp,
    r: u8,
    src: &Src,
) -> u64
    ensures ctx { ctx.new ≡ (spec.alu_done ctx.old width read op (Loc.Reg r) src.now).ctx }
    ensures stored { result ≡ (spec.alu_done ctx.old width read op (Loc.Reg r) src.now).stored }
    ensures fits { result < span width }
{
    let a = truncated(width, register(ctx, r));
    let b = quick_source_at(ctx, width, read, src);
    let (word, flags) = alu(alu_of(op), width, a, b, ctx.rflags);
    ctx.rflags = flags;
    if drops_result(op) {
        return 0;
    }
    let old = register(ctx, r);
    set_register(ctx, r, merged(width, old, word));
    word
}

// The same of any operand. Each width has code of its own.
#[inline(never)]
fn alu_anywhere(
    ctx: &mut Ctx,
    width: Width,
    read: u64,
    op: ArithmeticOp,
    loc: &Loc,
    src: &Src,
) -> u64
    ensures ctx { ctx.new ≡ (spec.alu_done ctx.old width read op loc.now src.now).ctx }
    ensures stored { result ≡ (spec.alu_done ctx.old width read op loc.now src.now).stored }
    ensures fits { result < span width }
{
    match width {
        Width::B => alu_at(ctx, Width::B, read, op, loc, src),
        Width::W => alu_at(ctx, Width::W, read, op, loc, src),
        Width::D => alu_at(ctx, Width::D, read, op, loc, src),
        Width::Q => alu_at(ctx, Width::Q, read, op, loc, src),
    }
}

#[inline(always)]
#[tactic(auto, unfolding(crate::specs::Arithmetic::alu_done, crate::specs::Arithmetic::operated, crate::specs::Arithmetic::compared, crate::specs::Done::flagged))]
fn alu_at(ctx: &mut Ctx, width: Width, read: u64, op: ArithmeticOp, loc: &Loc, src: &Src) -> u64
    ensures ctx { ctx.new ≡ (spec.alu_done ctx.old width read op loc.now src.now).ctx }
    ensures stored { result ≡ (spec.alu_done ctx.old width read op loc.now src.now).stored }
    ensures fits { result < span width }
{
    let a = value_at(ctx, width, read, loc);
    let b = source_at(ctx, width, read, src);
    let (word, flags) = alu(alu_of(op), width, a, b, ctx.rflags);
    ctx.rflags = flags;
    if drops_result(op) {
        return 0;
    }
    set_value(ctx, width, loc, word);
    word
}

/// MUL, or with `signed` IMUL, of rAX by `b` into rDX:rAX, at width 8 of AL into AX.
#[tactic(auto, unfolding(crate::specs::Arithmetic::multiplied, crate::specs::Done::flagged))]
fn multiply(ctx: &mut Ctx, signed: bool, width: Width, b: u64)
    requires { b < span width }
    ensures { ctx.new ≡ spec.multiplied ctx.old signed width b }
{
    let a = value_at(ctx, width, 0, &Loc::Reg(0));
    let (lower, upper, flags) = mul(signed, width, a, b, ctx.rflags);
    ctx.rflags = flags;
    set_pair(ctx, width, lower, upper);
}

// IMUL into a register, which takes the lower half of the product.
#[tactic(auto, unfolding(crate::specs::Arithmetic::multiplied_to, crate::specs::Done::flagged))]
fn multiply_to(ctx: &mut Ctx, width: Width, r: u8, a: u64, b: u64)
    requires a_fits { a < span width }
    requires b_fits { b < span width }
    ensures { ctx.new ≡ spec.multiplied_to ctx.old width r a b }
{
    let (lower, _, flags) = mul(true, width, a, b, ctx.rflags);
    ctx.rflags = flags;
    set_value(ctx, width, &Loc::Reg(r), lower);
}

// Whether DIV, or with `signed` IDIV, raises #DE.
#[tactic(auto, unfolding(crate::specs::Arithmetic::faults_by))]
fn faults_by(ctx: &Ctx, signed: bool, width: Width, by: u64) -> bool
    requires { by < span width }
    ensures { result ≡ spec.faults_by ctx.now signed width by }
{
    let high = value_at(ctx, width, 0, &upper_half(width));
    let low = value_at(ctx, width, 0, &Loc::Reg(0));
    div(signed, width, high, low, by, ctx.rflags).is_none()
}

// The same of an operand.
#[inline(never)]
fn faults_at(ctx: &Ctx, signed: bool, width: Width, read: u64, loc: &Loc) -> bool
    ensures { result ≡ spec.faults_by ctx.now signed width (operand.value_at ctx.now width read loc.now) }
{
    let by = value_at(ctx, width, read, loc);
    faults_by(ctx, signed, width, by)
}

/// DIV, or with `signed` IDIV, of rDX:rAX, at width 8 of AX. Where it raises #DE the context stays.
#[tactic(auto, unfolding(crate::specs::Arithmetic::divided, crate::specs::Done::flagged))]
fn divide(ctx: &mut Ctx, signed: bool, width: Width, by: u64)
    requires { by < span width }
    ensures { ctx.new ≡ spec.divided ctx.old signed width by }
{
    let high = value_at(ctx, width, 0, &upper_half(width));
    let low = value_at(ctx, width, 0, &Loc::Reg(0));
    if let Some((quotient, remainder, flags)) = div(signed, width, high, low, by, ctx.rflags) {
        ctx.rflags = flags;
        set_pair(ctx, width, quotient, remainder);
    }
}

/// NOT, NEG, MUL, IMUL, DIV, IDIV. Answers the value for an operand in memory, which NOT and NEG write.
#[inline(never)]
#[tactic(auto, unfolding(crate::specs::Arithmetic::unary_done))]
pub(crate) fn unary_done(ctx: &mut Ctx, width: Width, read: u64, op: UnaryOp, loc: &Loc) -> u64
    ensures ctx { ctx.new ≡ (spec.unary_done ctx.old width read op loc.now).ctx }
    ensures stored { result ≡ (spec.unary_done ctx.old width read op loc.now).stored }
    ensures fits { result < span width }
{
    let a = value_at(ctx, width, read, loc);
    match op {
        UnaryOp::Not => return operate(ctx, AluOp::Not, width, loc, a, 0),
        UnaryOp::Neg => return operate(ctx, AluOp::Neg, width, loc, a, 0),
        UnaryOp::Mul => multiply(ctx, false, width, a),
        UnaryOp::Imul => multiply(ctx, true, width, a),
        UnaryOp::Div => divide(ctx, false, width, a),
        UnaryOp::Idiv => divide(ctx, true, width, a),
    }
    0
}

/// Whether a division raises #DE.
#[inline(always)]
#[tactic(auto, unfolding(crate::specs::Arithmetic::unary_faults))]
pub(crate) fn unary_faults(ctx: &Ctx, width: Width, read: u64, op: UnaryOp, loc: &Loc) -> bool
    ensures { result ≡ spec.unary_faults ctx.now width read op loc.now }
{
    match op {
        UnaryOp::Not | UnaryOp::Neg | UnaryOp::Mul | UnaryOp::Imul => false,
        UnaryOp::Div => faults_at(ctx, false, width, read, loc),
        UnaryOp::Idiv => faults_at(ctx, true, width, read, loc),
    }
}

/// IMUL of a register by an operand.
#[inline(never)]
#[tactic(auto, unfolding(crate::specs::Arithmetic::imul2_done))]
pub(crate) fn imul2(ctx: &mut Ctx, width: Width, read: u64, r: u8, loc: &Loc)
    ensures { ctx.new ≡ spec.imul2_done ctx.old width read r loc.now }
{
    let a = value_at(ctx, width, read, &Loc::Reg(r));
    let b = value_at(ctx, width, read, loc);
    multiply_to(ctx, width, r, a, b);
}

/// IMUL of an operand by an immediate into a register.
#[inline(never)]
#[tactic(auto, unfolding(crate::specs::Arithmetic::imul3_done))]
pub(crate) fn imul3(ctx: &mut Ctx, width: Width, read: u64, r: u8, loc: &Loc, value: i32)
    ensures { ctx.new ≡ spec.imul3_done ctx.old width read r loc.now value }
{
    let a = value_at(ctx, width, read, loc);
    multiply_to(ctx, width, r, a, immediate(width, i64::from(value)));
}
