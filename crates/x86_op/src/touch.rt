//! What an operation touches besides the registers and flags of its vCPU.
//! Source: Intel SDM volume 2, the pages of the instructions.
ghost use Rattle.std.specs.Prelude.{◌≡◌};
ghost use Rattle.x86_op.specs.Touch as spec;
ghost use Rattle.x86_op.specs.Table.{line_of};

use crate::access::Way;
use crate::arithmetic::drops_result;
use crate::bits::only_tests;
use vm_law::{Insn, Loc, Mem, Op, Src, UnaryOp, Width};

/// What an operation touches besides registers and flags.
#[derive(Clone, Copy)]
pub(crate) enum Touch {
    Nothing,
    /// An operand in memory.
    Operand(Way, Width, Mem),
    /// 8 bytes below RSP, which are pushed.
    Push,
    /// 8 bytes at RSP, which are popped.
    Pop,
    /// 8 bytes at RBP, which LEAVE pops.
    Frame,
    /// Ports, interrupts and the state of the vCPU.
    System,
}

// An operand, where it is in memory.
#[inline(always)]
#[tactic(auto, unfolding(crate::specs::Touch::in_memory))]
fn in_memory(way: Way, loc: &Loc) -> Option<(Way, Mem)>
    ensures { result ≡ spec.in_memory way loc.now }
{
    match *loc {
        Loc::Mem(mem) => Some((way, mem)),
        Loc::Reg(_) | Loc::High(_) => None,
    }
}

#[inline(always)]
#[tactic(auto, unfolding(crate::specs::Touch::source_in_memory))]
fn source_in_memory(src: &Src) -> Option<(Way, Mem)>
    ensures { result ≡ spec.source_in_memory src.now }
{
    match src {
        Src::Loc(loc) => in_memory(Way::Load, loc),
        Src::Imm(_) => None,
    }
}

// The first of two operands that is in memory. No instruction has two.
#[inline(always)]
#[tactic(auto, unfolding(crate::specs::Touch::either))]
fn either(first: Option<(Way, Mem)>, second: Option<(Way, Mem)>) -> Option<(Way, Mem)>
    ensures { result ≡ spec.either first second }
{
    match first {
        Some(place) => Some(place),
        None => second,
    }
}

#[inline(always)]
#[tactic(auto, unfolding(crate::specs::Touch::operand))]
fn operand(width: Width, place: Option<(Way, Mem)>) -> Touch
    ensures { result ≡ spec.operand width place }
{
    match place {
        None => Touch::Nothing,
        Some((way, mem)) => Touch::Operand(way, width, mem),
    }
}

// One operand, which may be in memory.
#[inline(always)]
fn at(way: Way, width: Width, loc: &Loc) -> Touch
    ensures { result ≡ spec.operand width (spec.in_memory way loc.now) }
{
    operand(width, in_memory(way, loc))
}

// A destination and a source.
#[inline(always)]
fn with_source(way: Way, width: Width, loc: &Loc, src: &Src) -> Touch
    ensures { result ≡ spec.with_source way width loc.now src.now }
{
    operand(width, either(in_memory(way, loc), source_in_memory(src)))
}

#[inline(always)]
#[tactic(auto, unfolding(crate::specs::Touch::stores_unless))]
fn stores_unless(reads: bool) -> Way
    ensures { result ≡ spec.stores_unless reads }
{
    if reads { Way::Load } else { Way::Modify }
}

// Whether the result doesn't go where the operand stands.
#[inline(always)]
fn only_reads(op: UnaryOp) -> bool
    ensures { result ≡ spec.only_reads op }
{
    match op {
        UnaryOp::Not | UnaryOp::Neg => false,
        UnaryOp::Mul | UnaryOp::Imul | UnaryOp::Div | UnaryOp::Idiv => true,
    }
}

/// What an instruction touches, by its line of the table.
#[inline(always)]
#[tactic(auto, unfolding(crate::specs::Table::line))]
pub(crate) fn touched(insn: &Insn) -> Touch
    ensures { result ≡ (line_of insn.now).touch }
{
    let width = insn.width;
    match &insn.op {
        Op::Alu(op, loc, src) => with_source(stores_unless(drops_result(*op)), width, loc, src),
        Op::Test(loc, src) => with_source(Way::Load, width, loc, src),
        Op::Mov(loc, src) => with_source(Way::Store, width, loc, src),
        Op::Unary(op, loc) => at(stores_unless(only_reads(*op)), width, loc),
        Op::Bit(op, loc, _) => at(stores_unless(only_tests(*op)), width, loc),
        Op::Inc(loc) | Op::Dec(loc) | Op::Xadd(loc, _) | Op::Shift(_, loc, _) => at(
            Way::Modify,
            width,
            loc,
        ),
        Op::Imul2(_, loc) | Op::Imul3(_, loc, _) | Op::CMov(_, _, loc) => at(Way::Load, width, loc),
        Op::Bsf(_, loc) | Op::Bsr(_, loc) => at(Way::Load, width, loc),
        Op::MovZx(_, from, loc) | Op::MovSx(_, from, loc) => at(Way::Load, *from, loc),
        Op::JmpTo(loc) => at(Way::Load, Width::Q, loc),
        Op::SetCc(_, loc) => at(Way::Store, Width::B, loc),
        Op::Xchg(a, b) => operand(
            width,
            either(in_memory(Way::Modify, a), in_memory(Way::Modify, b)),
        ),
        Op::CmpXchg(a, _) => at(Way::Compare, width, a),
        Op::Push(_) | Op::Call(_) | Op::CallReg(_) | Op::PushF => Touch::Push,
        Op::Pop(_) | Op::Ret(_) | Op::PopF => Touch::Pop,
        Op::Leave => Touch::Frame,
        Op::In(_) | Op::Out(_) | Op::Int(_) | Op::Iret | Op::Ud2 | Op::Lidt(_) => Touch::System,
        Op::Hlt | Op::Sti | Op::Cli => Touch::System,
        Op::Lea(..) | Op::Bswap(_) | Op::Jcc(..) | Op::Jmp(_) => Touch::Nothing,
        Op::Widen | Op::SignFill | Op::Clc | Op::Stc | Op::Cmc | Op::Cld | Op::Std => {
            Touch::Nothing
        }
        Op::Nop(_) | Op::Pause | Op::Endbr | Op::Fence(_) => Touch::Nothing,
    }
}
