//! IRETQ, LIDT and the ports.
ghost use Rattle.std.specs.Prelude.{◌≡◌, OnErr, IfOk, drop};
ghost use Rattle.byteorder.specs.Endian.{little_number};
ghost use Rattle.vm_law.specs.Memory.{Memory};
ghost use Rattle.x86_exec.specs.Kept.{IsDoneAs, outcome, Stores};
ghost use Rattle.x86_exec.specs.Shared as spec;
ghost use Rattle.x86_exec.specs.declared.effect.Effect.TheVariants as effect;

use crate::effect::{Effect, NotDone, Performed, Stored};
use crate::reached::read_at;
use byteorder::{ByteOrder, LittleEndian};
use vm_law::{Bytes, Ctx, Loc, Mem, Width};
use x86_op::{address_behind, masked_flags, pass, register, set_register, value_at};

/// RSP by its number.
const RSP: u8 = 4;

/// RDX by its number.
const RDX: u8 = 2;

/// RIP, RFLAGS and RSP in a frame.
fn popped(frame: &[u8; 40]) -> (u64, u64, u64)
    ensures rip { result.0 ≡ little_number 8 frame.now }
    ensures rflags { result.1 ≡ little_number 8 (drop 16 frame.now) }
    ensures rsp { result.2 ≡ little_number 8 (drop 24 frame.now) }
{
    let rip = LittleEndian::read_u64(frame);
    let rflags = LittleEndian::read_u64(&frame[16..]);
    let rsp = LittleEndian::read_u64(&frame[24..]);
    (rip, rflags, rsp)
}

#[tactic(auto, unfolding(crate::specs::Shared::returned))]
fn return_by(ctx: &mut Ctx, len: u8, frame: &[u8; 40])
    ensures { ctx.new ≡ spec.returned ctx.old len frame.now }
{
    let (rip, rflags, rsp) = popped(frame);
    pass(ctx, len);
    set_register(ctx, RSP, rsp);
    ctx.rip = rip;
    ctx.rflags = masked_flags(rflags);
    ctx.nmi_block = false;
}

#[inline(never)]
#[tactic(auto, unfolding(crate::specs::Shared::iret))]
pub(crate) fn iret<B: Bytes>(ctx: &mut Ctx, len: u8, bytes: &B) -> Result<Performed, Effect>
    ensures outcome { outcome result ctx.new (B.memory bytes.now) ≡ spec.iret ctx.old len (B.memory bytes.now) }
    ensures done { IfOk result (λ p. p.effect ≡ effect.Done) }
    ensures refused { OnErr result (ctx.new ≡ ctx.old) }
    ensures stores { IfOk result (λ p. Stores p.stored (B.memory bytes.now) (B.memory bytes.now)) }
{
    let frame = read_at::<B, 40>(bytes, register(ctx, RSP))?;
    return_by(ctx, len, &frame);
    Ok(Performed::asking(Effect::Done))
}

/// IRETQ where it is done by itself.
#[inline(never)]
pub(crate) fn iret_done<B: Bytes>(
    ctx: &mut Ctx,
    len: u8,
    bytes: &B,
) -> Result<Option<Stored>, NotDone>
    ensures done { IsDoneAs result (spec.iret ctx.old len (B.memory bytes.now)) ctx.new (B.memory bytes.now) }
    ensures same { OnErr result (ctx.new ≡ ctx.old) }
    ensures stores { IfOk result (λ stored. Stores stored (B.memory bytes.now) (B.memory bytes.now)) }
{
    match iret(ctx, len, bytes) {
        Ok(performed) => Ok(performed.stored),
        Err(_) => Err(NotDone),
    }
}

#[tactic(auto, unfolding(crate::specs::Shared::with_idt))]
fn set_idt(ctx: &mut Ctx, len: u8, operand: &[u8; 10])
    ensures { ctx.new ≡ spec.with_idt ctx.old len operand.now }
{
    pass(ctx, len);
    ctx.idt_limit = LittleEndian::read_u16(operand);
    ctx.idt_base = LittleEndian::read_u64(&operand[2..]);
}

#[inline(never)]
#[tactic(auto, unfolding(crate::specs::Shared::lidt))]
pub(crate) fn lidt<B: Bytes>(
    ctx: &mut Ctx,
    len: u8,
    bytes: &B,
    operand: &Mem,
) -> Result<Performed, Effect>
    ensures outcome { outcome result ctx.new (B.memory bytes.now) ≡ spec.lidt ctx.old len (B.memory bytes.now) operand.now }
    ensures done { IfOk result (λ p. p.effect ≡ effect.Done) }
    ensures refused { OnErr result (ctx.new ≡ ctx.old) }
    ensures stores { IfOk result (λ p. Stores p.stored (B.memory bytes.now) (B.memory bytes.now)) }
{
    let operand = read_at::<B, 10>(bytes, address_behind(ctx, len, operand))?;
    set_idt(ctx, len, &operand);
    Ok(Performed::asking(Effect::Done))
}

/// LIDT where it is done by itself.
#[inline(never)]
pub(crate) fn lidt_done<B: Bytes>(
    ctx: &mut Ctx,
    len: u8,
    bytes: &B,
    operand: &Mem,
) -> Result<Option<Stored>, NotDone>
    ensures done { IsDoneAs result (spec.lidt ctx.old len (B.memory bytes.now) operand.now) ctx.new (B.memory bytes.now) }
    ensures same { OnErr result (ctx.new ≡ ctx.old) }
    ensures stores { IfOk result (λ stored. Stores stored (B.memory bytes.now) (B.memory bytes.now)) }
{
    match lidt(ctx, len, bytes, operand) {
        Ok(performed) => Ok(performed.stored),
        Err(_) => Err(NotDone),
    }
}

/// The port that is named, or else DX.
#[tactic(auto, unfolding(crate::specs::Shared::port_of))]
pub(crate) fn port_of(ctx: &Ctx, port: Option<u8>) -> u16
    ensures { result ≡ spec.port_of ctx.now port }
{
    match port {
        None => (register(ctx, RDX) & 0xFFFF) as u16,
        Some(port) => u16::from(port),
    }
}

#[inline(never)]
#[tactic(auto, unfolding(crate::specs::Shared::out))]
pub(crate) fn out(ctx: &mut Ctx, len: u8, width: Width, port: Option<u8>) -> Performed
    ensures shared { (mem : Memory) → record { effect = result.effect; ctx = ctx.new; memory = mem; stored = result.stored } ≡ spec.out ctx.old len mem width port }
    ensures stores { (mem : Memory) → Stores result.stored mem mem }
{
    let port = port_of(ctx, port);
    let value = (value_at(ctx, width, 0, &Loc::Reg(0)) & 0xFFFF_FFFF) as u32;
    pass(ctx, len);
    Performed::asking(Effect::PortOut { port, width, value })
}
