ghost use Rattle.std.specs.Prelude.{◌≡◌, ◌<◌, ◌≤◌, ◌+◌, ◌*◌, length};
ghost use Rattle.std.specs.Bool.{OnTrue};
ghost use Rattle.vm_bus.specs.Area.{area_of};
ghost use Rattle.x86_trap.specs.Gate as spec;

use byteorder::{ByteOrder, LittleEndian};
use vm_bus::{Area, area_at};
use vm_law::{Bytes, Ctx};

/// What a gate does to IF. Source: Intel SDM volume 3, section 6.12.1.2.
#[derive(Clone, Copy, Debug, PartialEq, Eq)]
pub(crate) enum GateKind {
    /// Clears IF.
    Interrupt,
    /// Leaves it.
    Trap,
}

/// A gate that is present and has no stack of its own. Source: Intel SDM volume 3, section 6.14.1.
#[derive(Clone, Copy, PartialEq, Eq)]
pub(crate) struct Gate {
    pub(crate) target: u64,
    pub(crate) kind: GateKind,
}

/// The gate of a vector, where the IDT has one in memory, and a good one.
#[tactic(auto, unfolding(crate::specs::Gate::gate_of))]
pub(crate) fn gate_of<B: Bytes>(ctx: &Ctx, bytes: &B, vector: u8) -> Option<Gate>
    ensures { result ≡ spec.gate_of ctx.now (B.memory bytes.now) vector }
{
    let place = 16 * u16::from(vector);
    if place + 15 > ctx.idt_limit {
        return None;
    }
    let at = ctx.idt_base.wrapping_add(u64::from(place));
    if !is_memory(at, 16, bytes.code(), bytes.size()) {
        return None;
    }
    let mut gate = [0; 16];
    bytes.read(at, &mut gate);
    gate_in(&gate)
}

/// Whether RAM, with or without code, is at a whole range.
fn is_memory(at: u64, len: u64, code: u64, ram: u64) -> bool
    ensures area { result ≡ spec.is_memory (area_of at len code ram) }
    ensures inside { OnTrue result (0 < len → at + len ≤ ram) }
{
    match area_at(at, len, code, ram) {
        Area::Ram | Area::Code => true,
        _ => false,
    }
}

/// The gate in 16 bytes, if it is a good one.
#[tactic(auto, unfolding(crate::specs::Gate::gate_in))]
fn gate_in(bytes: &[u8; 16]) -> Option<Gate>
    ensures { result ≡ spec.gate_in bytes.now }
{
    if bytes[4] % 8 != 0 {
        return None;
    }
    let kind = kind_of(bytes[5])?;
    Some(Gate {
        target: target_of(bytes),
        kind,
    })
}

/// The kind of a gate by its byte 5, which has the present bit, the privilege level, and the type.
fn kind_of(byte: u8) -> Option<GateKind>
    ensures { result ≡ spec.kind_of byte }
{
    if byte < 0x80 {
        return None;
    }
    match byte % 32 {
        0x0E => Some(GateKind::Interrupt),
        0x0F => Some(GateKind::Trap),
        _ => None,
    }
}

/// Where a gate leads.
fn target_of(bytes: &[u8; 16]) -> u64
    ensures { result ≡ spec.target_of bytes.now }
{
    let low = LittleEndian::read_u16(bytes);
    let middle = LittleEndian::read_u16(&bytes[6..]);
    let high = LittleEndian::read_u32(&bytes[8..]);
    u64::from(low) + 0x1_0000 * u64::from(middle) + 0x1_0000_0000 * u64::from(high)
}
