//! MOV, MOVZX, MOVSX, LEA, XCHG, CMPXCHG, XADD, BSWAP, SETcc, CMOVcc, CBW and CWD with their wider forms. `ctx` is the
//! context behind the instruction, and `read` what was read at its operand in memory; an `u64` that is answered is the value
//! for that operand. Source: Intel SDM volume 2, the pages of the instructions.
ghost use Rattle.std.specs.Prelude.{◌≡◌, ◌+◌, ◌<◌};
ghost use Rattle.x86_alu.specs.Operand.{span, is_negative};
ghost use Rattle.x86_op.specs.Moves as spec;

use crate::address::address_of;
use crate::arithmetic::{compare, operate};
use crate::condition::holds;
use crate::operand::{set_value, source_at, truncated, value_at};
use vm_law::{Condition, Ctx, Loc, Mem, Src, Width};
use x86_alu::AluOp;

// The accumulator, and where its sign goes.
const AX: Loc = Loc::Reg(0);

const DX: Loc = Loc::Reg(2);

#[inline(always)]
#[tactic(auto, unfolding(crate::specs::Moves::mov_done))]
pub(crate) fn mov(ctx: &mut Ctx, width: Width, read: u64, loc: &Loc, src: &Src) -> u64
    ensures ctx { ctx.new ≡ (spec.mov_done ctx.old width read loc.now src.now).ctx }
    ensures stored { result ≡ (spec.mov_done ctx.old width read loc.now src.now).stored }
{
    let value = source_at(ctx, width, read, src);
    set_value(ctx, width, loc, value);
    value
}

// The greatest operand.
fn mask_of(width: Width) -> u64
    ensures { result + 1 ≡ span width }
{
    match width {
        Width::B => 0xFF,
        Width::W => 0xFFFF,
        Width::D => 0xFFFF_FFFF,
        Width::Q => u64::MAX,
    }
}

// The top bit.
#[tactic(auto, unfolding(x86_alu::specs::Operand::is_negative))]
fn is_negative(width: Width, a: u64) -> bool
    ensures { result ≡ is_negative (span width) a }
{
    a > mask_of(width) / 2
}

// A value of one width as one of another, with its sign.
#[tactic(auto, unfolding(crate::specs::Moves::sign_extended))]
fn sign_extended(from: Width, to: Width, value: u64) -> u64
    requires { value < span from }
    ensures result { result ≡ spec.sign_extended from to value }
    ensures fits { result < span to }
{
    if is_negative(from, value) {
        truncated(to, u64::MAX - (mask_of(from) - value))
    } else {
        truncated(to, value)
    }
}

#[inline(never)]
#[tactic(auto, unfolding(crate::specs::Moves::movzx_done))]
pub(crate) fn movzx(ctx: &mut Ctx, width: Width, read: u64, r: u8, from: Width, loc: &Loc)
    ensures { ctx.new ≡ spec.movzx_done ctx.old width read r from loc.now }
{
    let value = value_at(ctx, from, read, loc);
    set_value(ctx, width, &Loc::Reg(r), truncated(width, value));
}

#[inline(never)]
#[tactic(auto, unfolding(crate::specs::Moves::movsx_done))]
pub(crate) fn movsx(ctx: &mut Ctx, width: Width, read: u64, r: u8, from: Width, loc: &Loc)
    ensures { ctx.new ≡ spec.movsx_done ctx.old width read r from loc.now }
{
    let value = value_at(ctx, from, read, loc);
    set_value(ctx, width, &Loc::Reg(r), sign_extended(from, width, value));
}

/// LEA: the address itself, as many of its low bits as the register has.
#[inline(always)]
#[tactic(auto, unfolding(crate::specs::Moves::lea_done))]
pub(crate) fn lea(ctx: &mut Ctx, width: Width, r: u8, mem: &Mem)
    ensures { ctx.new ≡ spec.lea_done ctx.old width r mem.now }
{
    let address = address_of(ctx, mem);
    set_value(ctx, width, &Loc::Reg(r), truncated(width, address));
}

/// XCHG: each takes the other's value.
#[inline(never)]
#[tactic(auto, unfolding(crate::specs::Moves::xchg_done))]
pub(crate) fn xchg(ctx: &mut Ctx, width: Width, read: u64, a: &Loc, b: &Loc) -> u64
    ensures ctx { ctx.new ≡ (spec.xchg_done ctx.old width read a.now b.now).ctx }
    ensures stored { result ≡ (spec.xchg_done ctx.old width read a.now b.now).stored }
{
    let first = value_at(ctx, width, read, a);
    let second = value_at(ctx, width, read, b);
    set_value(ctx, width, a, second);
    set_value(ctx, width, b, first);
    second
}

/// Whether CMPXCHG's destination holds what the accumulator holds.
#[tactic(auto, unfolding(crate::specs::Moves::is_equal))]
pub(crate) fn is_equal(ctx: &Ctx, width: Width, read: u64, a: &Loc) -> bool
    ensures { result ≡ spec.is_equal ctx.now width read a.now }
{
    value_at(ctx, width, read, &AX) == value_at(ctx, width, read, a)
}

/// CMPXCHG: the flags of a CMP of the accumulator with the destination; the destination takes the source where they are
/// equal, and else the accumulator takes the destination.
#[inline(never)]
#[tactic(auto, unfolding(crate::specs::Moves::cmpxchg_done, crate::specs::Moves::is_equal))]
pub(crate) fn cmpxchg(ctx: &mut Ctx, width: Width, read: u64, a: &Loc, b: &Loc) -> u64
    ensures ctx { ctx.new ≡ (spec.cmpxchg_done ctx.old width read a.now b.now).ctx }
    ensures stored { result ≡ (spec.cmpxchg_done ctx.old width read a.now b.now).stored }
{
    let accumulator = value_at(ctx, width, read, &AX);
    let held = value_at(ctx, width, read, a);
    let source = value_at(ctx, width, read, b);
    compare(ctx, AluOp::Cmp, width, accumulator, held);
    if accumulator == held {
        set_value(ctx, width, a, source);
        source
    } else {
        set_value(ctx, width, &AX, held);
        held
    }
}

/// XADD: the source takes the destination, and then the destination takes the sum.
#[inline(never)]
#[tactic(auto, unfolding(crate::specs::Moves::xadd_done))]
pub(crate) fn xadd(ctx: &mut Ctx, width: Width, read: u64, a: &Loc, b: &Loc) -> u64
    ensures ctx { ctx.new ≡ (spec.xadd_done ctx.old width read a.now b.now).ctx }
    ensures stored { result ≡ (spec.xadd_done ctx.old width read a.now b.now).stored }
{
    let held = value_at(ctx, width, read, a);
    let source = value_at(ctx, width, read, b);
    set_value(ctx, width, b, held);
    operate(ctx, AluOp::Add, width, a, held, source)
}

// The bytes in the other order.
#[tactic(auto, unfolding(crate::specs::Moves::swapped))]
fn swapped(width: Width, value: u64) -> u64
    requires { value < span width }
    ensures result { result ≡ spec.swapped width value }
    ensures fits { result < span width }
{
    match width {
        Width::B => value,
        Width::W => u64::from((value as u16).swap_bytes()),
        Width::D => u64::from((value as u32).swap_bytes()),
        Width::Q => value.swap_bytes(),
    }
}

#[inline(never)]
#[tactic(auto, unfolding(crate::specs::Moves::bswap_done))]
pub(crate) fn bswap(ctx: &mut Ctx, width: Width, r: u8)
    ensures { ctx.new ≡ spec.bswap_done ctx.old width r }
{
    let value = value_at(ctx, width, 0, &Loc::Reg(r));
    set_value(ctx, width, &Loc::Reg(r), swapped(width, value));
}

#[inline(never)]
#[tactic(auto, unfolding(crate::specs::Moves::setcc_done))]
pub(crate) fn setcc(ctx: &mut Ctx, condition: Condition, loc: &Loc) -> u64
    ensures ctx { ctx.new ≡ (spec.setcc_done ctx.old condition loc.now).ctx }
    ensures stored { result ≡ (spec.setcc_done ctx.old condition loc.now).stored }
{
    let value = u64::from(holds(ctx.rflags, condition));
    set_value(ctx, Width::B, loc, value);
    value
}

/// CMOVcc: where the condition is false the register keeps its value, of which 32 bits clear the upper half.
#[inline(never)]
#[tactic(auto, unfolding(crate::specs::Moves::cmov_done))]
pub(crate) fn cmov(ctx: &mut Ctx, width: Width, read: u64, condition: Condition, r: u8, loc: &Loc)
    ensures { ctx.new ≡ spec.cmov_done ctx.old width read condition r loc.now }
{
    let value = if holds(ctx.rflags, condition) {
        value_at(ctx, width, read, loc)
    } else {
        value_at(ctx, width, read, &Loc::Reg(r))
    };
    set_value(ctx, width, &Loc::Reg(r), value);
}

// Half as wide.
fn half_of(width: Width) -> Width
    ensures { result ≡ spec.half_of width }
{
    match width {
        Width::B | Width::W => Width::B,
        Width::D => Width::W,
        Width::Q => Width::D,
    }
}

/// CBW, CWDE, CDQE: rAX becomes its lower half with its sign.
#[inline(never)]
#[tactic(auto, unfolding(crate::specs::Moves::widen_done))]
pub(crate) fn widen(ctx: &mut Ctx, width: Width)
    ensures { ctx.new ≡ spec.widen_done ctx.old width }
{
    let half = half_of(width);
    let value = value_at(ctx, half, 0, &AX);
    set_value(ctx, width, &AX, sign_extended(half, width, value));
}

/// CWD, CDQ, CQO: each bit of rDX becomes the sign of rAX.
#[inline(never)]
#[tactic(auto, unfolding(crate::specs::Moves::sign_fill_done))]
pub(crate) fn sign_fill(ctx: &mut Ctx, width: Width)
    ensures { ctx.new ≡ spec.sign_fill_done ctx.old width }
{
    let accumulator = value_at(ctx, width, 0, &AX);
    let fill = if is_negative(width, accumulator) {
        mask_of(width)
    } else {
        0
    };
    set_value(ctx, width, &DX, fill);
}
