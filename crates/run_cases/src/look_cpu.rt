//! What is looked up of a vCPU.

use crate::case::{CaseError, byte, dword};
use crate::print::{bit, print_count, print_hex, print_stage, print_vectors};
use std::alloc::AllocError;
use std::fmt::Write;
use vm_law::Ctx;
use vm_state::Cpu;
use vm_table::Run;

/// The parts of a context, in the order in which `parts` has them.
const NAMES: [&str; 22] = [
    "rax", "rcx", "rdx", "rbx", "rsp", "rbp", "rsi", "rdi", "r8", "r9", "r10", "r11", "r12", "r13",
    "r14", "r15", "rip", "rflags", "idtbase", "idtlimit", "shadow", "nmiblock",
];

/// The parts of a context, in the order of `NAMES`.
fn parts(ctx: &Ctx) -> [u64; 22] {
    let mut values = [0; 22];
    values[..16].copy_from_slice(&ctx.regs);
    values[16] = ctx.rip;
    values[17] = ctx.rflags;
    values[18] = ctx.idt_base;
    values[19] = u64::from(ctx.idt_limit);
    values[20] = u64::from(ctx.shadow);
    values[21] = u64::from(ctx.nmi_block);
    values
}

/// A part of the context, where it is named so.
fn look_context(cpu: &Cpu, name: &str, out: &mut String) -> Result<bool, AllocError> {
    match NAMES.iter().position(|known| *known == name) {
        Some(number) if number < 22 => {
            print_hex(parts(&cpu.ctx)[number], out)?;
            Ok(true)
        }
        _ => Ok(false),
    }
}

/// A part of the local APIC.
fn look_apic(cpu: &Cpu, name: &str, out: &mut String) -> Result<bool, AllocError> {
    let state = cpu.lapic.saved();
    let printed = match name {
        "irr" => print_vectors(&state.irr, out),
        "isr" => print_vectors(&state.isr, out),
        "tmr" => print_vectors(&state.tmr, out),
        "tpr" => print_hex(u64::from(state.tpr), out),
        "svr" => print_hex(u64::from(state.svr), out),
        _ => return Ok(false),
    };
    printed?;
    Ok(true)
}

fn print_startup(startup: Option<u8>, out: &mut String) -> Result<(), AllocError> {
    match startup {
        None => out.push('-'),
        Some(vector) => write!(out, "{vector:02x}"),
    }
}

/// What a vCPU is at.
fn look_stage(cpu: &Cpu, name: &str, out: &mut String) -> Result<bool, AllocError> {
    let printed = match name {
        "stage" => print_stage(cpu.stage.now(), out),
        "started" => out.push_str(bit(cpu.started)),
        "halted" => out.push_str(bit(cpu.halted)),
        "nmi" => out.push_str(bit(cpu.nmi)),
        "startup" => print_startup(cpu.startup, out),
        _ => return Ok(false),
    };
    printed?;
    Ok(true)
}

/// What a run keeps of a vCPU, which there is.
fn look_seat(run: &Run, name: &str, i: u8, out: &mut String) -> Result<bool, AllocError> {
    if i >= run.cpu_count() {
        return Ok(false);
    }
    let printed = match name {
        "deliverable" => out.push_str(bit(run.deliverable(i))),
        "eager" => out.push_str(bit(run.eager(i))),
        "due" => out.push_str(bit(run.exit_due(i))),
        "left" => print_count(u64::from(run.left(i)), out),
        "ran" => print_count(run.ran(i), out),
        _ => return Ok(false),
    };
    printed?;
    Ok(true)
}

/// A register of the local APIC.
fn print_register(cpu: &Cpu, offset: u64, out: &mut String) -> Result<(), CaseError> {
    let value = cpu.lapic.read(dword(offset)?);
    Ok(print_hex(u64::from(value), out)?)
}

/// What a vCPU of a machine has.
fn look_state(cpu: &Cpu, name: &str, out: &mut String) -> Result<bool, AllocError> {
    Ok(look_context(cpu, name, out)? || look_apic(cpu, name, out)? || look_stage(cpu, name, out)?)
}

/// Prints what a vCPU has under a name, where there is such a thing.
pub fn look_cpu(
    run: &Run,
    name: &str,
    numbers: &[u64; 3],
    out: &mut String,
) -> Result<bool, CaseError> {
    let Ok(i) = byte(numbers[0]) else {
        return Ok(false);
    };
    if i >= run.cpu_count() {
        return Ok(false);
    }
    if name == "apic" {
        print_register(run.cpu(i), numbers[1], out)?;
        return Ok(true);
    }
    if name == "timer" && i < 16 {
        print_count(run.machine().timers.left(i), out)?;
        return Ok(true);
    }
    Ok(look_state(run.cpu(i), name, out)? || look_seat(run, name, i, out)?)
}
