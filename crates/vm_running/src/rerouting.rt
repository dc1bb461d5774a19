//! Whether an instruction would change the interrupt routing, told before it is run.
ghost use Rattle.std.specs.Prelude.{◌≡◌, IsTrue};
ghost use Rattle.vm_state.specs.Machine as machine;
ghost use Rattle.x86_exec.specs.Shared as exec;
ghost use Rattle.x86_fetch.specs.declared.fetching.Next.{Next};
ghost use Rattle.vm_running.specs.Routing as spec;
ghost use Rattle.vm_running.specs.Step.{is_routing_next};

use vm_bus::{Area, area_at};
use vm_devices::is_routing_write;
use vm_law::{Bytes, Ctx, Insn, Op, Width};
use vm_state::RunState;
use x86_fetch::Next;
use x86_op::{Way, access_of, compute, faults};

/// Whether it is a MOV of 32 bits, which alone reaches a device's window.
#[tactic(auto, unfolding(x86_exec::specs::Shared::is_plain_op))]
fn is_plain(insn: &Insn) -> bool
    ensures { result ≡ exec.is_plain insn.now }
{
    match (&insn.op, insn.width) {
        (Op::Mov(..), Width::D) => true,
        _ => false,
    }
}

/// The number that an instruction stores, where it reads none from memory.
fn stored_number(ctx: &Ctx, insn: &Insn, len: u8) -> u32
    ensures { result ≡ spec.number_stored ctx.now insn.now len }
{
    let mut after = *ctx;
    (compute(&mut after, insn, len, 0) % (1 << 32)) as u32
}

/// Where an instruction stores, if it is a plain store.
#[tactic(auto, unfolding(crate::specs::Routing::plain_store))]
fn plain_store(run: &RunState, ctx: &Ctx, insn: &Insn, len: u8) -> Option<Area>
    ensures { result ≡ spec.plain_store ctx.now insn.now len run.now.state.machine.ram }
{
    if !is_plain(insn) || faults(ctx, insn, 0) {
        return None;
    }
    let access = access_of(ctx, insn, len)?;
    if access.way != Way::Store {
        return None;
    }
    let ram = &run.machine.ram;
    Some(area_at(access.at, u64::from(access.len), ram.code(), ram.size()))
}

/// Whether an instruction that isn't local would change the interrupt routing.
#[tactic(auto, using(crate::proofs::Told::routing_steps))]
pub(crate) fn reroutes(run: &RunState, i: u8, insn: &Insn, len: u8) -> bool
    requires { IsTrue (machine.is_cpu run.now.state.machine i) }
    ensures { result ≡ is_routing_next run.now.state i (Next.Shared insn.now len) }
{
    let ctx = &run.machine.cpus.at(i as usize).ctx;
    match plain_store(run, ctx, insn, len) {
        Some(Area::Ioapic(offset)) => {
            offset.is_multiple_of(4)
                && is_routing_write(run, Area::Ioapic(offset), stored_number(ctx, insn, len))
        }
        _ => false,
    }
}
