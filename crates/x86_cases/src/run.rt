use crate::case::{Case, Event};
use crate::print::{print_effect, print_stop, print_stored};
use crate::ram::Ram;
use std::alloc::AllocError;
use vm_law::{Ctx, Insn};
use x86_decode::{DecodeFault, decode};
use x86_exec::{Effect, NotDone, complete, is_local, perform, perform_done, run_local, run_shared};
use x86_trap::deliver;

/// Puts the memory of a case into memory.
pub fn load(ram: &mut Ram, case: &Case) {
    for piece in &case.memory {
        ram.load(piece.at, piece.bytes.as_slice());
    }
}

/// Runs an instruction that isn't local and prints what it asks, and what it stored where the case wants that.
fn run_printed(
    ctx: &mut Ctx,
    ram: &mut Ram,
    case: &Case,
    insn: &Insn,
    len: u8,
    out: &mut String,
) -> Result<Effect, AllocError> {
    if !case.stored {
        let effect = match perform_done(ctx, insn, len, ram) {
            Ok(_) => Effect::Done,
            Err(NotDone) => run_shared(ctx, insn, len, ram),
        };
        print_effect(&effect, out)?;
        return Ok(effect);
    }
    let performed = perform(ctx, insn, len, ram);
    print_effect(&performed.effect, out)?;
    print_stored(performed.stored, out)?;
    Ok(performed.effect)
}

/// Runs an instruction.
fn run_instruction(
    ctx: &mut Ctx,
    ram: &mut Ram,
    case: &Case,
    bytes: &[u8],
    out: &mut String,
) -> Result<(), AllocError> {
    let (insn, len) = match decode(bytes) {
        Ok(found) => found,
        Err(DecodeFault::Short) => return out.push_str("short"),
        Err(DecodeFault::Unknown) => return out.push_str("undefined"),
    };
    if is_local(&insn) {
        let done = run_local(ctx, &insn, len);
        return out.push_str(if done { "local done" } else { "local trap 0" });
    }
    let effect = run_printed(ctx, ram, case, &insn, len, out)?;
    if matches!(effect, Effect::PortIn { .. } | Effect::Load { .. }) {
        complete(ctx, &insn, len, case.answer);
    }
    Ok(())
}

/// Delivers a vector.
fn run_delivery(
    ctx: &mut Ctx,
    ram: &mut Ram,
    case: &Case,
    vector: u8,
    out: &mut String,
) -> Result<(), AllocError> {
    match deliver(ctx, ram, vector, case.error, case.nmi) {
        Ok(()) => out.push_str("delivered"),
        Err(stop) => print_stop(stop, out),
    }
}

/// Runs a case, and says what became of it.
pub fn run(ctx: &mut Ctx, ram: &mut Ram, case: &Case, out: &mut String) -> Result<(), AllocError> {
    match &case.event {
        Event::Instruction(bytes) => run_instruction(ctx, ram, case, bytes.as_slice(), out),
        Event::Delivery(vector) => run_delivery(ctx, ram, case, *vector, out),
    }
}
