//! Addresses of operands in memory.
ghost use Rattle.std.specs.Prelude.{◌≡◌, ◌+◌, ◌*◌, ◌%◌, ◌^◌, if◌then◌else◌};
ghost use Rattle.std.specs.Int.{w64, cast_unsigned};
ghost use Rattle.x86_op.specs.Operand.{passed};
ghost use Rattle.x86_op.specs.Address as spec;

use crate::operand::register;
use vm_law::{Ctx, Mem};

// A register that may be left out.
#[inline(always)]
#[tactic(auto, unfolding(crate::specs::Address::part))]
fn part(ctx: &Ctx, r: Option<u8>) -> u64
    ensures { result ≡ spec.part ctx.now r }
{
    match r {
        None => 0,
        Some(r) => register(ctx, r),
    }
}

// The address of an operand where `next` is the address of the next instruction.
#[inline(always)]
fn address_from(ctx: &Ctx, next: u64, mem: &Mem) -> u64
    ensures { result ≡ (spec.part ctx.now mem.now.base + spec.part ctx.now mem.now.index * mem.now.scale
        + cast_unsigned w64 mem.now.disp + (if mem.now.rip then next else 0)) % 2 ^ 64 }
{
    let from = if mem.rip { next } else { 0 };
    let index = part(ctx, mem.index).wrapping_mul(u64::from(mem.scale));
    let disp = i64::from(mem.disp).cast_unsigned();
    part(ctx, mem.base)
        .wrapping_add(index)
        .wrapping_add(disp)
        .wrapping_add(from)
}

/// The address of an operand, modulo 2^64. `ctx` is the context behind the instruction.
/// Source: Intel SDM volume 1, section 3.7.5, and volume 2, section 2.2.1.6.
#[tactic(auto, unfolding(crate::specs::Address::address_of))]
pub fn address_of(ctx: &Ctx, mem: &Mem) -> u64
    ensures { result ≡ spec.address_of ctx.now mem.now }
{
    address_from(ctx, ctx.rip, mem)
}

/// The address of an operand of an instruction of `len` bytes, modulo 2^64. `ctx` is the context before it.
/// Source: Intel SDM volume 1, section 3.7.5, and volume 2, section 2.2.1.6.
#[inline(always)]
#[tactic(auto, using(crate::proofs::Passed::address_of_passed))]
pub fn address_behind(ctx: &Ctx, len: u8, mem: &Mem) -> u64
    ensures { result ≡ spec.address_of (passed ctx.now len) mem.now }
{
    address_from(ctx, ctx.rip.wrapping_add(u64::from(len)), mem)
}
