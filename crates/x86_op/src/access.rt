//! Which memory an instruction accesses, and whether it is local.
//! Source: Intel SDM volume 2, the pages of the instructions.
ghost use Rattle.std.specs.Prelude.{◌≡◌, ◌/◌, ◌≤◌, None, IfSome, IsTrue};
ghost use Rattle.x86_alu.specs.Operand.{size_of};
ghost use Rattle.x86_op.specs.Access as spec;
ghost use Rattle.x86_op.specs.Operand.{passed};
ghost use Rattle.x86_op.specs.Table.{NeverFaults};

use crate::address::address_behind;
use crate::flow::{BP, SP, top_of};
use crate::operand::register;
use crate::touch::{Touch, touched};
use vm_law::{Ctx, Insn, Loc, Mem, Op, Src, Width};

/// How an instruction accesses memory.
#[derive(Clone, Copy, Debug, PartialEq, Eq)]
pub enum Way {
    Load,
    Store,
    /// A load and a store, as one.
    Modify,
    /// A load, and a store where what was loaded equals the accumulator.
    Compare,
}

/// An access: the bytes at `at` plus 0 to `len` minus 1, modulo 2^64.
#[derive(Clone, Copy, PartialEq, Eq)]
pub struct Access {
    pub way: Way,
    pub at: u64,
    pub len: u8,
}

#[inline(always)]
fn bytes_of(width: Width) -> u8
    ensures result { result ≡ size_of width / 8 }
    ensures length { spec.IsLength result }
    ensures some { 1 ≤ result }
    ensures most { result ≤ 8 }
{
    match width {
        Width::B => 1,
        Width::W => 2,
        Width::D => 4,
        Width::Q => 8,
    }
}

// An access to 8 bytes of the stack.
#[inline(always)]
fn stack(way: Way, at: u64) -> Option<Access>
    ensures { result ≡ Some (record { way = way; at = at; len = 8 }) }
{
    Some(Access { way, at, len: 8 })
}

// An access to an operand in memory.
#[inline(always)]
#[tactic(auto, using(crate::proofs::Passed::as_before), unfolding(crate::specs::Access::access_to))]
fn operand(ctx: &Ctx, len: u8, way: Way, width: Width, mem: &Mem) -> Option<Access>
    ensures result { result ≡ spec.access_to (passed ctx.now len) (Touch.Operand way width mem.now) }
    ensures length { IfSome result (λ access. spec.IsLength access.len) }
    ensures some { IfSome result (λ access. 1 ≤ access.len) }
    ensures most { IfSome result (λ access. access.len ≤ 8) }
{
    Some(Access {
        way,
        at: address_behind(ctx, len, mem),
        len: bytes_of(width),
    })
}

// The access by what an instruction touches.
#[inline(never)]
#[tactic(auto, using(crate::proofs::Passed::as_before), unfolding(crate::specs::Access::access_to, crate::specs::Access::access_of))]
fn access_by_touch(ctx: &Ctx, insn: &Insn, len: u8) -> Option<Access>
    ensures result { result ≡ spec.access_of ctx.now insn.now len }
    ensures length { IfSome result (λ access. spec.IsLength access.len) }
    ensures some { IfSome result (λ access. 1 ≤ access.len) }
    ensures most { IfSome result (λ access. access.len ≤ 8) }
{
    match touched(insn) {
        Touch::Nothing | Touch::System => None,
        Touch::Operand(way, width, mem) => operand(ctx, len, way, width, &mem),
        Touch::Push => stack(Way::Store, top_of(ctx)),
        Touch::Pop => stack(Way::Load, register(ctx, SP)),
        Touch::Frame => stack(Way::Load, register(ctx, BP)),
    }
}

/// The access of a MOV, PUSH, POP, CALL or RET of `len` bytes, which guests run most: a load or a store, behind which no
/// division follows. `None` says nothing.
#[inline(always)]
#[tactic(auto, using(crate::proofs::Passed::as_before), unfolding(crate::specs::Access::access_of, crate::specs::Access::access_to, crate::specs::Table::line, crate::specs::Touch::with_source, crate::specs::Touch::operand, crate::specs::Touch::either, crate::specs::Touch::in_memory, crate::specs::Touch::source_in_memory))]
pub fn plain_access(ctx: &Ctx, insn: &Insn, len: u8) -> Option<Access>
    ensures result { IfSome result (λ access. spec.access_of ctx.now insn.now len ≡ Some access) }
    ensures length { IfSome result (λ access. spec.IsLength access.len) }
    ensures some { IfSome result (λ access. 1 ≤ access.len) }
    ensures most { IfSome result (λ access. access.len ≤ 8) }
    ensures divides { IfSome result (λ access. NeverFaults insn.now) }
{
    match &insn.op {
        Op::Mov(Loc::Mem(mem), _) => operand(ctx, len, Way::Store, insn.width, mem),
        Op::Mov(Loc::Reg(_), Src::Loc(Loc::Mem(mem))) => operand(
            ctx,
            len,
            Way::Load,
            insn.width,
            mem,
        ),
        Op::Push(_) | Op::Call(_) => stack(Way::Store, top_of(ctx)),
        Op::Pop(_) | Op::Ret(_) => stack(Way::Load, register(ctx, SP)),
        _ => None,
    }
}

/// The access to memory that an instruction of `len` bytes makes, where it makes one; `ctx` is the context before it.
///
/// That of IRETQ and LIDT, which pop five numbers and read ten bytes, is left to whoever runs them.
#[inline(always)]
pub fn access_of(ctx: &Ctx, insn: &Insn, len: u8) -> Option<Access>
    ensures result { result ≡ spec.access_of ctx.now insn.now len }
    ensures length { IfSome result (λ access. spec.IsLength access.len) }
    ensures some { IfSome result (λ access. 1 ≤ access.len) }
    ensures most { IfSome result (λ access. access.len ≤ 8) }
{
    match plain_access(ctx, insn, len) {
        Some(access) => Some(access),
        None => access_by_touch(ctx, insn, len),
    }
}

/// Whether an instruction touches its vCPU's own registers and flags alone: no operand of it is in memory and accessed,
/// it uses neither stack nor ports, and neither raises, ends, awaits nor holds off an interrupt.
#[tactic(auto, unfolding(crate::specs::Access::is_nothing, crate::specs::Access::is_local))]
pub fn is_local(insn: &Insn) -> bool
    ensures { result ≡ spec.is_local insn.now }
{
    match touched(insn) {
        Touch::Nothing => true,
        Touch::Operand(..) | Touch::Push | Touch::Pop | Touch::Frame | Touch::System => false,
    }
}

/// A law: a local instruction makes no access.
#[tactic(auto, using(crate::proofs::Passed::local_has_none))]
pub fn local_has_no_access(ctx: &Ctx, insn: &Insn, len: u8)
    requires { IsTrue (spec.is_local insn.now) }
    ensures { spec.access_of ctx.now insn.now len ≡ None }
{}
