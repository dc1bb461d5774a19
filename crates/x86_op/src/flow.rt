//! Jumps, calls, the stack, and instructions on flags alone. `ctx` is the context behind the instruction, so its RIP is
//! that of the next one. Source: Intel SDM volume 2, the pages of the instructions, and volume 1, section 3.4.3.
ghost use Rattle.std.specs.Prelude.{◌≡◌};
ghost use Rattle.x86_op.specs.Flow as spec;

use crate::condition::holds;
use crate::flags::{CF, DF, IF, is_set, with_bit};
use crate::operand::{register, set_register, source_at};
use vm_law::{Condition, Ctx, Src, Width};

// RSP and RBP.
pub(crate) const SP: u8 = 4;

pub(crate) const BP: u8 = 5;

// 8 bytes down, modulo 2^64.
const DOWN: u64 = 0xFFFF_FFFF_FFFF_FFF8;

#[inline(always)]
#[tactic(auto, unfolding(crate::specs::Flow::jumped_to))]
pub(crate) fn jump_to(ctx: &mut Ctx, rip: u64)
    ensures { ctx.new ≡ spec.jumped_to ctx.old rip }
{
    ctx.rip = rip;
}

/// Jumps by a displacement from the next instruction on.
#[inline(always)]
#[tactic(auto, unfolding(crate::specs::Flow::jumped))]
pub(crate) fn jump(ctx: &mut Ctx, by: i32)
    ensures { ctx.new ≡ spec.jumped ctx.old by }
{
    let next = ctx.rip;
    jump_to(ctx, next.wrapping_add(i64::from(by).cast_unsigned()));
}

#[inline(always)]
#[tactic(auto, unfolding(crate::specs::Flow::jcc_done))]
pub(crate) fn jcc(ctx: &mut Ctx, condition: Condition, by: i32)
    ensures { ctx.new ≡ spec.jcc_done ctx.old condition by }
{
    if holds(ctx.rflags, condition) {
        jump(ctx, by);
    }
}

// Moves RSP, modulo 2^64.
#[inline(always)]
#[tactic(auto, unfolding(crate::specs::Flow::moved_stack))]
fn move_stack(ctx: &mut Ctx, by: u64)
    ensures { ctx.new ≡ spec.moved_stack ctx.old by }
{
    let top = register(ctx, SP);
    set_register(ctx, SP, top.wrapping_add(by));
}

/// Where the next push goes to.
#[inline(always)]
#[tactic(auto, unfolding(crate::specs::Flow::top_of))]
pub(crate) fn top_of(ctx: &Ctx) -> u64
    ensures { result ≡ spec.top_of ctx.now }
{
    register(ctx, SP).wrapping_add(DOWN)
}

/// PUSH: the old value of RSP where it is the source.
#[inline(always)]
#[tactic(auto, unfolding(crate::specs::Flow::push_done))]
pub(crate) fn push(ctx: &mut Ctx, read: u64, src: &Src) -> u64
    ensures ctx { ctx.new ≡ (spec.push_done ctx.old read src.now).ctx }
    ensures stored { result ≡ (spec.push_done ctx.old read src.now).stored }
{
    let value = source_at(ctx, Width::Q, read, src);
    move_stack(ctx, DOWN);
    value
}

/// POP: RSP takes the popped value where it is the destination.
#[inline(always)]
#[tactic(auto, unfolding(crate::specs::Flow::pop_done))]
pub(crate) fn pop(ctx: &mut Ctx, read: u64, r: u8)
    ensures { ctx.new ≡ spec.pop_done ctx.old read r }
{
    move_stack(ctx, 8);
    set_register(ctx, r, read);
}

#[inline(always)]
#[tactic(auto, unfolding(crate::specs::Flow::call_done))]
pub(crate) fn call(ctx: &mut Ctx, by: i32) -> u64
    ensures ctx { ctx.new ≡ (spec.call_done ctx.old by).ctx }
    ensures stored { result ≡ (spec.call_done ctx.old by).stored }
{
    let back = ctx.rip;
    move_stack(ctx, DOWN);
    jump(ctx, by);
    back
}

/// CALL of a register, which is read before RSP moves.
#[inline(always)]
#[tactic(auto, unfolding(crate::specs::Flow::call_register_done))]
pub(crate) fn call_register(ctx: &mut Ctx, r: u8) -> u64
    ensures ctx { ctx.new ≡ (spec.call_register_done ctx.old r).ctx }
    ensures stored { result ≡ (spec.call_register_done ctx.old r).stored }
{
    let next = ctx.rip;
    let target = register(ctx, r);
    move_stack(ctx, DOWN);
    jump_to(ctx, target);
    next
}

/// RET, which drops `n` bytes besides.
#[inline(always)]
#[tactic(auto, unfolding(crate::specs::Flow::ret_done))]
pub(crate) fn ret(ctx: &mut Ctx, read: u64, n: u16)
    ensures { ctx.new ≡ spec.ret_done ctx.old read n }
{
    move_stack(ctx, 8 + u64::from(n));
    jump_to(ctx, read);
}

/// LEAVE: RSP becomes RBP, from where RBP is popped.
#[tactic(auto, unfolding(crate::specs::Flow::leave_done))]
pub(crate) fn leave(ctx: &mut Ctx, read: u64)
    ensures { ctx.new ≡ spec.leave_done ctx.old read }
{
    let frame = register(ctx, BP);
    set_register(ctx, SP, frame.wrapping_add(8));
    set_register(ctx, BP, read);
}

/// What POPF and IRETQ write of a value: CF, PF, AF, ZF, SF, IF, DF and OF; bit 1 is always 1, and all others are 0.
#[tactic(auto, unfolding(crate::specs::Flow::masked_flags))]
pub fn masked_flags(value: u64) -> u64
    ensures { result ≡ spec.masked_flags value }
{
    value & 0xED5 | 2
}

#[tactic(auto, unfolding(crate::specs::Flow::pushf_done))]
pub(crate) fn pushf(ctx: &mut Ctx) -> u64
    ensures ctx { ctx.new ≡ (spec.pushf_done ctx.old).ctx }
    ensures stored { result ≡ (spec.pushf_done ctx.old).stored }
{
    let flags = ctx.rflags;
    move_stack(ctx, DOWN);
    flags
}

#[tactic(auto, unfolding(crate::specs::Done::flagged, crate::specs::Flow::popf_done))]
pub(crate) fn popf(ctx: &mut Ctx, read: u64)
    ensures { ctx.new ≡ spec.popf_done ctx.old read }
{
    move_stack(ctx, 8);
    ctx.rflags = masked_flags(read);
}

#[tactic(auto, unfolding(crate::specs::Done::flagged, crate::specs::Flow::carry_done))]
pub(crate) fn set_carry(ctx: &mut Ctx, on: bool)
    ensures { ctx.new ≡ spec.carry_done ctx.old on }
{
    ctx.rflags = with_bit(ctx.rflags, CF, on);
}

#[tactic(auto, unfolding(crate::specs::Done::flagged, crate::specs::Flow::direction_done))]
pub(crate) fn set_direction(ctx: &mut Ctx, on: bool)
    ensures { ctx.new ≡ spec.direction_done ctx.old on }
{
    ctx.rflags = with_bit(ctx.rflags, DF, on);
}

/// STI holds interrupts off until the next instruction is done, where they weren't enabled before.
#[tactic(auto, unfolding(crate::specs::Flow::sti_done))]
pub(crate) fn sti(ctx: &mut Ctx)
    ensures { ctx.new ≡ spec.sti_done ctx.old }
{
    ctx.shadow = !is_set(ctx.rflags, IF);
    ctx.rflags = with_bit(ctx.rflags, IF, true);
}

#[tactic(auto, unfolding(crate::specs::Done::flagged, crate::specs::Flow::cli_done))]
pub(crate) fn cli(ctx: &mut Ctx)
    ensures { ctx.new ≡ spec.cli_done ctx.old }
{
    ctx.rflags = with_bit(ctx.rflags, IF, false);
}
