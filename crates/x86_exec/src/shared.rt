//! The instructions, and their completion.
ghost use Rattle.std.specs.Prelude.{◌≡◌, ◌%◌, ◌≤◌, ◌+◌, OnErr, IfOk};
ghost use Rattle.vm_law.specs.Memory.{KeepsSize};
ghost use Rattle.x86_alu.specs.Operand.{span};
ghost use Rattle.x86_exec.specs.Kept.{IsDoneAs, Leaves, Stores, outcome};
ghost use Rattle.x86_exec.specs.Shared as spec;

use crate::access::{with_access, with_access_done};
use crate::effect::{Effect, NotDone, Performed, Stored};
use crate::system::{iret, iret_done, lidt, lidt_done, out, port_of};
use vm_law::{Bytes, Ctx, Insn, Loc, Op, Width};
use x86_op::{compute, pass, set_value};

#[inline(always)]
#[tactic(auto, unfolding(crate::specs::Shared::attempted))]
fn attempt<B: Bytes>(
    ctx: &mut Ctx,
    insn: &Insn,
    len: u8,
    bytes: &mut B,
) -> Result<Performed, Effect>
    requires room { 2 ≤ B.spare bytes.old }
    ensures outcome { outcome result ctx.new (B.memory bytes.new) ≡ spec.attempted ctx.old insn.now len (B.memory bytes.old) insn.now.op }
    ensures refused { OnErr result ((ctx.new ≡ ctx.old) × (bytes.new ≡ bytes.old)) }
    ensures stores { IfOk result (λ p. Stores p.stored (B.memory bytes.old) (B.memory bytes.new)) }
    ensures room { B.spare bytes.old ≤ B.spare bytes.new + 2 }
{
    match &insn.op {
        Op::In(port) => Err(Effect::PortIn {
            port: port_of(ctx, *port),
            width: insn.width,
        }),
        Op::Out(port) => Ok(out(ctx, len, insn.width, *port)),
        Op::Int(vector) => Err(Effect::Trap {
            vector: *vector,
            error: None,
        }),
        Op::Ud2 => Err(Effect::Trap {
            vector: 6,
            error: None,
        }),
        Op::Hlt => {
            pass(ctx, len);
            Ok(Performed::asking(Effect::Halt))
        }
        Op::Iret => iret(ctx, len, bytes),
        Op::Lidt(operand) => lidt(ctx, len, bytes, operand),
        _ => with_access(ctx, insn, len, bytes),
    }
}

/// Runs an instruction of `len` bytes, and says which bytes of memory it stored. `ctx` is the context before it.
///
/// An access is judged in this order: a byte at an address that isn't canonical is #GP with error code 0; a byte in a
/// device's window is `Stop::Device`, but for a MOV of 32 bits at a multiple of 4, which becomes a `Load` or a `Store`
/// of the machine; and a byte outside memory is `Stop::Memory`. A store may go to the code. A division that can't be
/// done is #DE after its load, and CMPXCHG stores where it finds what the accumulator holds.
///
/// Where memory has changed the instruction is done. The context is as before at `Trap`, `Stop`, `PortIn` and `Load`,
/// and behind the instruction else. The one who delivers a `Trap` of INT lets it return behind the instruction.
///
/// There is to be room for two pages of memory; as much is taken at most.
///
/// Source: Intel SDM volume 2, the pages of the instructions, and volume 3, section 6.15 (#DE, #UD, #GP).
pub fn perform<B: Bytes>(ctx: &mut Ctx, insn: &Insn, len: u8, bytes: &mut B) -> Performed
    requires room { 2 ≤ B.spare bytes.old }
    ensures effect { result.effect ≡ (spec.shared ctx.old insn.now len (B.memory bytes.old)).effect }
    ensures stored { result.stored ≡ (spec.shared ctx.old insn.now len (B.memory bytes.old)).stored }
    ensures ctx { ctx.new ≡ (spec.shared ctx.old insn.now len (B.memory bytes.old)).ctx }
    ensures memory { B.memory bytes.new ≡ (spec.shared ctx.old insn.now len (B.memory bytes.old)).memory }
    ensures leaves { Leaves result.effect ctx.old ctx.new (B.memory bytes.old) (B.memory bytes.new) }
    ensures stores { Stores result.stored (B.memory bytes.old) (B.memory bytes.new) }
    ensures size { KeepsSize (B.memory bytes.old) (B.memory bytes.new) }
    ensures room { B.spare bytes.old ≤ B.spare bytes.new + 2 }
{
    match attempt(ctx, insn, len, bytes) {
        Ok(performed) => performed,
        Err(effect) => Performed::asking(effect),
    }
}

/// Runs an instruction of `len` bytes where it is done by itself, as [`perform`] does, and says which bytes of memory it stored,
/// if any.
///
/// `NotDone` exactly where the machine around its vCPU is asked for something: the delivery of an exception, a port, a device's
/// window, the halt, or the end of the run. Then context and memory are as before.
///
/// There is to be room for two pages of memory; as much is taken at most.
///
/// Source: Intel SDM volume 2, the pages of the instructions.
#[inline(always)]
#[tactic(auto, unfolding(crate::specs::Shared::attempted, crate::specs::Shared::out))]
pub fn perform_done<B: Bytes>(
    ctx: &mut Ctx,
    insn: &Insn,
    len: u8,
    bytes: &mut B,
) -> Result<Option<Stored>, NotDone>
    requires room { 2 ≤ B.spare bytes.old }
    ensures done { IsDoneAs result (spec.attempted ctx.old insn.now len (B.memory bytes.old) insn.now.op) ctx.new (B.memory bytes.new) }
    ensures same { OnErr result ((ctx.new ≡ ctx.old) × (bytes.new ≡ bytes.old)) }
    ensures stores { IfOk result (λ stored. Stores stored (B.memory bytes.old) (B.memory bytes.new)) }
    ensures size { KeepsSize (B.memory bytes.old) (B.memory bytes.new) }
    ensures room { B.spare bytes.old ≤ B.spare bytes.new + 2 }
{
    match &insn.op {
        Op::In(_) | Op::Out(_) | Op::Int(_) | Op::Ud2 | Op::Hlt => Err(NotDone),
        Op::Iret => iret_done(ctx, len, bytes),
        Op::Lidt(operand) => lidt_done(ctx, len, bytes, operand),
        _ => with_access_done(ctx, insn, len, bytes),
    }
}

/// Runs an instruction of `len` bytes, as [`perform`] does. `ctx` is the context before it.
///
/// Source: Intel SDM volume 2, the pages of the instructions, and volume 3, section 6.15 (#DE, #UD, #GP).
pub fn run_shared<B: Bytes>(ctx: &mut Ctx, insn: &Insn, len: u8, bytes: &mut B) -> Effect
    requires room { 2 ≤ B.spare bytes.old }
    ensures effect { result ≡ (spec.shared ctx.old insn.now len (B.memory bytes.old)).effect }
    ensures ctx { ctx.new ≡ (spec.shared ctx.old insn.now len (B.memory bytes.old)).ctx }
    ensures memory { B.memory bytes.new ≡ (spec.shared ctx.old insn.now len (B.memory bytes.old)).memory }
    ensures leaves { Leaves result ctx.old ctx.new (B.memory bytes.old) (B.memory bytes.new) }
    ensures size { KeepsSize (B.memory bytes.old) (B.memory bytes.new) }
    ensures room { B.spare bytes.old ≤ B.spare bytes.new + 2 }
{
    perform(ctx, insn, len, bytes).effect
}

/// The lowest bits of what a port answered.
fn narrowed(width: Width, value: u32) -> u64
    ensures { result ≡ value % span width }
{
    match width {
        Width::B => u64::from(value & 0xFF),
        Width::W => u64::from(value & 0xFFFF),
        Width::D | Width::Q => u64::from(value),
    }
}

/// Completes an instruction that asked for a number by `PortIn` or `Load`, now that it is there. `ctx` is the context
/// before the instruction. AL, AX or EAX takes the lowest bits of a port's number, a MOV's register that of a window.
///
/// Source: Intel SDM volume 2, IN and MOV.
#[tactic(auto, unfolding(crate::specs::Shared::completed_op))]
pub fn complete(ctx: &mut Ctx, insn: &Insn, len: u8, value: u32)
    ensures { ctx.new ≡ spec.completed ctx.old insn.now len value }
{
    match insn.op {
        Op::In(_) => {
            pass(ctx, len);
            set_value(ctx, insn.width, &Loc::Reg(0), narrowed(insn.width, value));
        }
        _ => {
            compute(ctx, insn, len, u64::from(value));
        }
    }
}
