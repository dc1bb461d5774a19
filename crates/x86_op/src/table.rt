//! What each instruction computes.
ghost use Rattle.std.specs.Prelude.{◌≡◌, IsTrue, not, if◌then◌else◌};
ghost use Rattle.x86_alu.specs.Flags.{carry_of};
ghost use Rattle.x86_op.specs.Access.{is_local};
ghost use Rattle.x86_op.specs.Operand.{value_at, source_at, passed};
ghost use Rattle.x86_op.specs.Arithmetic as divisions;
ghost use Rattle.x86_op.specs.Arithmetic.{operated, compared};
ghost use Rattle.x86_op.specs.Flow.{jumped_to, carry_done};
ghost use Rattle.x86_op.specs.Table as spec;

use crate::arithmetic::{alu_done, compare, imul2, imul3, operate, unary_done, unary_faults};
use crate::bits::{bit, scan, shift};
use crate::flags::{CF, is_set};
use crate::flow::{
    call, call_register, cli, jcc, jump, jump_to, leave, pop, popf, push, pushf, ret, set_carry,
    set_direction, sti,
};
use crate::moves::{
    bswap, cmov, cmpxchg, is_equal, lea, mov, movsx, movzx, setcc, sign_fill, widen, xadd, xchg,
};
use crate::operand::{pass, source_at, value_at};
use vm_law::{Ctx, Insn, Loc, Op, Src, UnaryOp, Width};
use x86_alu::{AluOp, BitOp};

// INC and DEC.
#[inline(always)]
fn step(ctx: &mut Ctx, op: AluOp, width: Width, read: u64, loc: &Loc) -> u64
    ensures ctx { ctx.new ≡ (operated ctx.old op width loc.now (value_at ctx.old width read loc.now) 0).ctx }
    ensures stored { result ≡ (operated ctx.old op width loc.now (value_at ctx.old width read loc.now) 0).stored }
{
    let a = value_at(ctx, width, read, loc);
    operate(ctx, op, width, loc, a, 0)
}

#[inline(always)]
fn test(ctx: &mut Ctx, width: Width, read: u64, loc: &Loc, src: &Src)
    ensures { ctx.new ≡ compared ctx.old AluOp.Test width (value_at ctx.old width read loc.now) (source_at ctx.old width read src.now) }
{
    let a = value_at(ctx, width, read, loc);
    let b = source_at(ctx, width, read, src);
    compare(ctx, AluOp::Test, width, a, b);
}

#[inline(always)]
fn jump_to_value(ctx: &mut Ctx, read: u64, loc: &Loc)
    ensures { ctx.new ≡ jumped_to ctx.old (value_at ctx.old Width.Q read loc.now) }
{
    let target = value_at(ctx, Width::Q, read, loc);
    jump_to(ctx, target);
}

#[inline(always)]
fn complement_carry(ctx: &mut Ctx)
    ensures { ctx.new ≡ carry_done ctx.old (not (carry_of ctx.old.rflags)) }
{
    let on = !is_set(ctx.rflags, CF);
    set_carry(ctx, on);
}

// What an operation computes, by its line of the table. Those that answer a value have one for their operand in memory.
#[inline(always)]
#[tactic(auto, unfolding(crate::specs::Table::line))]
fn done(ctx: &mut Ctx, op: &Op, width: Width, read: u64) -> u64
    ensures ctx { ctx.new ≡ ((spec.line width op.now).done ctx.old read).ctx }
    ensures stored { result ≡ ((spec.line width op.now).done ctx.old read).stored }
{
    match op {
        Op::Alu(op, loc, src) => return alu_done(ctx, width, read, *op, loc, src),
        Op::Unary(op, loc) => return unary_done(ctx, width, read, *op, loc),
        Op::Inc(loc) => return step(ctx, AluOp::Inc, width, read, loc),
        Op::Dec(loc) => return step(ctx, AluOp::Dec, width, read, loc),
        Op::Mov(loc, src) => return mov(ctx, width, read, loc, src),
        Op::Xchg(a, b) => return xchg(ctx, width, read, a, b),
        Op::CmpXchg(a, b) => return cmpxchg(ctx, width, read, a, b),
        Op::Xadd(a, b) => return xadd(ctx, width, read, a, b),
        Op::Shift(op, loc, count) => return shift(ctx, width, read, *op, loc, *count),
        Op::Bit(op, loc, src) => return bit(ctx, width, read, *op, loc, src),
        Op::SetCc(condition, loc) => return setcc(ctx, *condition, loc),
        Op::Call(by) => return call(ctx, *by),
        Op::CallReg(r) => return call_register(ctx, *r),
        Op::Push(src) => return push(ctx, read, src),
        Op::PushF => return pushf(ctx),
        Op::Test(loc, src) => test(ctx, width, read, loc, src),
        Op::Imul2(r, loc) => imul2(ctx, width, read, *r, loc),
        Op::Imul3(r, loc, value) => imul3(ctx, width, read, *r, loc, *value),
        Op::MovZx(r, from, loc) => movzx(ctx, width, read, *r, *from, loc),
        Op::MovSx(r, from, loc) => movsx(ctx, width, read, *r, *from, loc),
        Op::Lea(r, mem) => lea(ctx, width, *r, mem),
        Op::Bsf(r, loc) => scan(ctx, BitOp::Bsf, width, read, *r, loc),
        Op::Bsr(r, loc) => scan(ctx, BitOp::Bsr, width, read, *r, loc),
        Op::Bswap(r) => bswap(ctx, width, *r),
        Op::CMov(condition, r, loc) => cmov(ctx, width, read, *condition, *r, loc),
        Op::Widen => widen(ctx, width),
        Op::SignFill => sign_fill(ctx, width),
        Op::Jcc(condition, by) => jcc(ctx, *condition, *by),
        Op::Jmp(by) => jump(ctx, *by),
        Op::JmpTo(loc) => jump_to_value(ctx, read, loc),
        Op::Ret(n) => ret(ctx, read, *n),
        Op::Pop(r) => pop(ctx, read, *r),
        Op::Leave => leave(ctx, read),
        Op::PopF => popf(ctx, read),
        Op::Clc => set_carry(ctx, false),
        Op::Stc => set_carry(ctx, true),
        Op::Cmc => complement_carry(ctx),
        Op::Cld => set_direction(ctx, false),
        Op::Std => set_direction(ctx, true),
        Op::Sti => sti(ctx),
        Op::Cli => cli(ctx),
        Op::In(_) | Op::Out(_) | Op::Int(_) | Op::Iret | Op::Ud2 | Op::Lidt(_) | Op::Hlt => {}
        Op::Nop(_) | Op::Pause | Op::Endbr | Op::Fence(_) => {}
    }
    0
}

#[inline(never)]
fn done_byte(ctx: &mut Ctx, op: &Op, read: u64) -> u64
    ensures ctx { ctx.new ≡ ((spec.line Width.B op.now).done ctx.old read).ctx }
    ensures stored { result ≡ ((spec.line Width.B op.now).done ctx.old read).stored }
{
    done(ctx, op, Width::B, read)
}

#[inline(never)]
fn done_word(ctx: &mut Ctx, op: &Op, read: u64) -> u64
    ensures ctx { ctx.new ≡ ((spec.line Width.W op.now).done ctx.old read).ctx }
    ensures stored { result ≡ ((spec.line Width.W op.now).done ctx.old read).stored }
{
    done(ctx, op, Width::W, read)
}

// The same of any operation. Each width has code of its own.
#[inline(never)]
fn done_at(ctx: &mut Ctx, op: &Op, width: Width, read: u64) -> u64
    ensures ctx { ctx.new ≡ ((spec.line width op.now).done ctx.old read).ctx }
    ensures stored { result ≡ ((spec.line width op.now).done ctx.old read).stored }
{
    match width {
        Width::B => done_byte(ctx, op, read),
        Width::W => done_word(ctx, op, read),
        Width::D => done(ctx, op, Width::D, read),
        Width::Q => done(ctx, op, Width::Q, read),
    }
}

/// What an instruction of `len` bytes computes: registers and flags after it, in `ctx`, and the value for its operand in
/// memory, which is answered where it stores one. `read` is what was read at that operand or from the stack.
///
/// NOP, PAUSE, ENDBR64, fences, and what isn't computed here, IN, OUT, INT, IRETQ, UD2, LIDT and HLT, only pass. A division
/// that can't be done does so too: ask [`faults`] first. Source: Intel SDM volume 2.
///
/// What reaches memory most often has code of its own.
#[inline(always)]
#[tactic(auto, unfolding(crate::specs::Table::line))]
pub fn compute(ctx: &mut Ctx, insn: &Insn, len: u8, read: u64) -> u64
    ensures ctx { ctx.new ≡ (spec.computed ctx.old insn.now len read).ctx }
    ensures stored { result ≡ (spec.computed ctx.old insn.now len read).stored }
{
    pass(ctx, len);
    match &insn.op {
        Op::Mov(loc, src) => mov(ctx, insn.width, read, loc, src),
        Op::Call(by) => call(ctx, *by),
        Op::Push(src) => push(ctx, read, src),
        Op::Ret(n) => {
            ret(ctx, read, *n);
            0
        }
        Op::Pop(r) => {
            pop(ctx, read, *r);
            0
        }
        _ => done_at(ctx, &insn.op, insn.width, read),
    }
}

/// Whether an instruction raises #DE: a division by 0, or one whose quotient doesn't fit. `ctx` is the context before it.
/// Source: Intel SDM volume 2, DIV and IDIV.
#[inline(always)]
#[tactic(auto, unfolding(crate::specs::Table::line))]
pub fn faults(ctx: &Ctx, insn: &Insn, read: u64) -> bool
    ensures { result ≡ spec.faults ctx.now insn.now read }
{
    match &insn.op {
        Op::Unary(op, loc) => unary_faults(ctx, insn.width, read, *op, loc),
        _ => false,
    }
}

/// Whether an instruction is a CMPXCHG whose destination holds what the accumulator holds, so that it is written.
/// Source: Intel SDM volume 2, CMPXCHG.
#[tactic(auto, unfolding(crate::specs::Table::line))]
pub fn matches_accumulator(ctx: &Ctx, insn: &Insn, read: u64) -> bool
    ensures { result ≡ spec.matches_accumulator ctx.now insn.now read }
{
    match &insn.op {
        Op::CmpXchg(a, _) => is_equal(ctx, insn.width, read, a),
        _ => false,
    }
}

// NOT, NEG, MUL, IMUL, DIV, IDIV of a register. `false` is #DE.
#[inline(never)]
fn run_unary(ctx: &mut Ctx, width: Width, len: u8, op: UnaryOp, loc: &Loc) -> bool
    ensures answer { result ≡ not (divisions.unary_faults ctx.old width 0 op loc.now) }
    ensures ctx { ctx.new ≡ (if divisions.unary_faults ctx.old width 0 op loc.now then ctx.old
        else (divisions.unary_done (passed ctx.old len) width 0 op loc.now).ctx) }
{
    if unary_faults(ctx, width, 0, op, loc) {
        return false;
    }
    pass(ctx, len);
    unary_done(ctx, width, 0, op, loc);
    true
}

// Runs a local instruction that is no division.
#[inline(never)]
fn run_any(ctx: &mut Ctx, insn: &Insn, len: u8)
    ensures { ctx.new ≡ (spec.computed ctx.old insn.now len 0).ctx }
{
    pass(ctx, len);
    done_at(ctx, &insn.op, insn.width, 0);
}

/// Runs a local instruction of `len` bytes. `false` is #DE, which leaves the context.
///
/// What stands most often in loops has code of its own.
#[inline(always)]
#[tactic(auto, unfolding(crate::specs::Table::line))]
pub fn run_local(ctx: &mut Ctx, insn: &Insn, len: u8) -> bool
    requires { IsTrue (is_local insn.now) }
    ensures answer { result ≡ not (spec.faults ctx.old insn.now 0) }
    ensures ctx { ctx.new ≡ (if spec.faults ctx.old insn.now 0 then ctx.old else (spec.computed ctx.old insn.now len 0).ctx) }
{
    match &insn.op {
        Op::Unary(op, loc) => return run_unary(ctx, insn.width, len, *op, loc),
        Op::Alu(op, loc, src) => {
            pass(ctx, len);
            alu_done(ctx, insn.width, 0, *op, loc, src);
        }
        Op::Mov(loc, src) => {
            pass(ctx, len);
            mov(ctx, insn.width, 0, loc, src);
        }
        Op::Lea(r, mem) => {
            pass(ctx, len);
            lea(ctx, insn.width, *r, mem);
        }
        Op::Jcc(condition, by) => {
            pass(ctx, len);
            jcc(ctx, *condition, *by);
        }
        Op::Jmp(by) => {
            pass(ctx, len);
            jump(ctx, *by);
        }
        _ => run_any(ctx, insn, len),
    }
    true
}
