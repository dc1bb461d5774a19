ghost use Rattle.std.specs.Prelude.{◌≡◌, ◌≤◌, ◌+◌, OnErr};
ghost use Rattle.vm_law.specs.Memory.{KeepsCode};
ghost use Rattle.x86_trap.specs.Delivery as spec;

use crate::frame::push_frame;
use crate::gate::{Gate, GateKind, gate_of};
use vm_law::{Bytes, Ctx, Stop};

/// IF, bit 9 of RFLAGS. Source: Intel SDM volume 1, section 3.4.3.3.
const IF: u64 = 0x200;

/// Delivers an interrupt or exception through the gate of its vector: it aligns the stack to 16 bytes, pushes SS, RSP,
/// RFLAGS, CS, RIP and, where there is one, the error code, and goes on at the gate's target with RSP at the frame.
/// An interrupt gate clears IF. What was held off after an STI isn't any more, and `nmi` blocks further NMIs.
///
/// It is `Stop::Gate` where the IDT has no good gate of the vector in memory, else `Stop::Frame` where the frame isn't
/// all in RAM above the code. At a Stop context and memory are as before.
///
/// There is to be room for two pages of memory; as much is taken at most.
///
/// Source: Intel SDM volume 3, sections 6.10 to 6.14.
#[tactic(auto, unfolding(crate::specs::Delivery::delivered, crate::specs::Delivery::through))]
pub fn deliver<B: Bytes>(
    ctx: &mut Ctx,
    bytes: &mut B,
    vector: u8,
    error: Option<u64>,
    nmi: bool,
) -> Result<(), Stop>
    requires room { 2 ≤ B.spare bytes.old }
    ensures answer { result ≡ (spec.delivered ctx.old (B.memory bytes.old) vector error nmi).answer }
    ensures ctx { ctx.new ≡ (spec.delivered ctx.old (B.memory bytes.old) vector error nmi).ctx }
    ensures memory { B.memory bytes.new ≡ (spec.delivered ctx.old (B.memory bytes.old) vector error nmi).memory }
    ensures kept { OnErr result ((ctx.new ≡ ctx.old) × (B.memory bytes.new ≡ B.memory bytes.old)) }
    ensures code { KeepsCode (B.memory bytes.old) (B.memory bytes.new) }
    ensures room { B.spare bytes.old ≤ B.spare bytes.new + 2 }
{
    let Some(gate) = gate_of(ctx, bytes, vector) else {
        return Err(Stop::Gate(vector));
    };
    let Some(at) = push_frame(ctx, bytes, error) else {
        return Err(Stop::Frame(vector));
    };
    enter(ctx, gate, at, nmi);
    Ok(())
}

/// Goes on at a gate's target, with RSP at the frame.
#[tactic(auto, unfolding(crate::specs::Delivery::entered))]
fn enter(ctx: &mut Ctx, gate: Gate, at: u64, nmi: bool)
    ensures { ctx.new ≡ spec.entered ctx.old gate at nmi }
{
    ctx.regs[4] = at;
    ctx.rip = gate.target;
    ctx.rflags = flags_in(gate.kind, ctx.rflags);
    ctx.shadow = false;
    ctx.nmi_block = nmi || ctx.nmi_block;
}

/// RFLAGS behind a gate.
fn flags_in(kind: GateKind, flags: u64) -> u64
    ensures { result ≡ spec.flags_in kind flags }
{
    match kind {
        GateKind::Interrupt => flags - (flags & IF),
        GateKind::Trap => flags,
    }
}
