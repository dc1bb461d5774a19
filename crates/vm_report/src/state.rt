//! The state of each vCPU as JSON.
ghost use Rattle.std.specs.Prelude.{◌≡◌, ◌<◌, IfOk, map, codes};
ghost use Rattle.std.specs.String.{string_bytes};
ghost use Rattle.serde_json.specs.View.{view};
ghost use Rattle.vm_state.specs.Machine.{cpu_at, cpu_count};
ghost use Rattle.vm_vectors.specs.Vectors.{vectors_of};
ghost use Rattle.vm_report.specs.StateText.{members_data, state_data, stage_word, vectors_data, register_data, registers_data, registers_in, cpu_data, cpus_data, state_text};

use ctl_script::Hex16;
use serde_json::{Value, json};
use std::alloc::{AllocError, Global};
use vm_law::{Ctx, OutOfMemory, Owned};
use vm_state::Cpu;
use vm_table::Run;
use vm_vectors::VectorSet;

/// The word for a stage.
fn stage_word(stage: Owned) -> &'static str
    ensures { result.now ≡ stage_word stage }
{
    match stage {
        Owned::Idle => "idle",
        Owned::Frozen(_) => "frozen",
        Owned::Running(_) => "running",
        Owned::Sleeping(_) => "sleeping",
    }
}

/// The vectors of a set in their saved form, in ascending order.
#[tactic(auto, using(crate::proofs::Ranges::filter_more))]
fn vectors_value(alloc: Global, saved: &[u8; 32]) -> Result<Value, AllocError>
    ensures { IfOk result (λ v. view v ≡ vectors_data (vectors_of saved.now)) }
{
    let set = VectorSet::from_bytes(saved);
    let mut values = Vec::new(alloc);
    for vector in 0..256u16 {
        if set.has(vector as u8) {
            values.push(Value::from(vector))?;
        }
    }
    Ok(Value::Array(values))
}

/// A register, as `0x` and 16 hexadecimal digits.
fn register_value(alloc: Global, register: u64) -> Result<Value, AllocError>
    ensures { IfOk result (λ v. view v ≡ register_data register) }
{
    let digits = Hex16(register);
    let text = format!(in alloc; "0x{digits}")?;
    Ok(Value::String(text))
}

/// The sixteen registers, RIP and RFLAGS.
fn registers_value(alloc: Global, ctx: &Ctx) -> Result<Value, AllocError>
    ensures { IfOk result (λ v. view v ≡ registers_data ctx.now) }
{
    let mut values = Vec::new(alloc);
    for register in &ctx.regs {
        values.push(register_value(alloc, *register)?)?;
    }
    values.push(register_value(alloc, ctx.rip)?)?;
    values.push(register_value(alloc, ctx.rflags)?)?;
    Ok(Value::Array(values))
}

/// The members of a vCPU, of their values.
fn cpu_json(
    alloc: Global,
    cpu: &Cpu,
    irr: Value,
    isr: Value,
    regs: Value,
    tmr: Value,
) -> Result<Value, AllocError>
    ensures { IfOk result (λ v. view v ≡ members_data cpu.now (view irr) (view isr) (view regs) (view tmr)) }
{
    json!(in alloc; {
        "halted": cpu.halted,
        "irr": irr,
        "isr": isr,
        "regs": regs,
        "stage": stage_word(cpu.stage.now()),
        "started": cpu.started,
        "tmr": tmr
    })
}

/// A vCPU.
fn cpu_value(alloc: Global, cpu: &Cpu) -> Result<Value, AllocError>
    ensures { IfOk result (λ v. view v ≡ cpu_data cpu.now) }
{
    let lapic = cpu.lapic.saved();
    let irr = vectors_value(alloc, &lapic.irr)?;
    let isr = vectors_value(alloc, &lapic.isr)?;
    let regs = registers_value(alloc, &cpu.ctx)?;
    let tmr = vectors_value(alloc, &lapic.tmr)?;
    cpu_json(alloc, cpu, irr, isr, regs, tmr)
}

/// The vCPUs by their numbers.
#[tactic(auto, using(crate::proofs::Ranges::map_more))]
fn cpus_value(alloc: Global, run: &Run) -> Result<Value, AllocError>
    ensures { IfOk result (λ v. view v ≡ cpus_data run.now.state.machine) }
{
    let mut values = Vec::new(alloc);
    for cpu in 0..run.cpu_count() {
        values.push(cpu_value(alloc, run.cpu(cpu))?)?;
    }
    Ok(Value::Array(values))
}

/// The members of the state.
fn state_value(alloc: Global, run: &Run) -> Result<Value, AllocError>
    ensures { IfOk result (λ v. view v ≡ state_data run.now.state.machine) }
{
    let cpus = cpus_value(alloc, run)?;
    json!(in alloc; {"cpus": cpus})
}

/// The state of each vCPU of a run as one line of JSON, with its line feed.
pub(crate) fn state_json(alloc: Global, run: &Run) -> Result<String, OutOfMemory>
    ensures { IfOk result (λ text. string_bytes text ≡ state_text run.now.state.machine) }
{
    let value = state_value(alloc, run)?;
    let mut text = value.to_string(alloc)?;
    text.push('\n')?;
    Ok(text)
}
