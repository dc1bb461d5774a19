//! One instruction that isn't local.
ghost use Rattle.std.specs.Prelude.{◌≡◌, ◌≤◌, ◌+◌, ◌<◌, ◌^◌, IsTrue, None, false, length};
ghost use Rattle.vm_state.specs.Machine as machine;
ghost use Rattle.vm_state.specs.State as state;
ghost use Rattle.vm_state.specs.Sound.{IsSoundState};
ghost use Rattle.vm_law.specs.Memory.{KeepsSize};
ghost use Rattle.x86_exec.specs.Kept.{Leaves};
ghost use Rattle.x86_exec.specs.Shared as exec;
ghost use Rattle.vm_running.specs.Spending.{AreBelow, CanSpend, IsInside};
ghost use Rattle.vm_running.specs.Step as spec;

use crate::asking::{ctx_of, load, port_in, port_out, store, trap};
use crate::spending::{step_to, stop_at, touch};
use vm_law::{Bytes, Ctx, Insn, Op};
use vm_state::RunState;
use x86_exec::{Effect, Performed, Stored, perform};

/// The vector of #UD.
const INVALID_OPCODE: u8 = 6;

/// The RIP that a trap of this instruction pushes.
fn pushed_rip(ctx: &Ctx, op: Op, len: u8) -> u64
    ensures { result ≡ spec.pushed_rip ctx.now op len }
{
    match op {
        Op::Int(_) => ctx.rip.wrapping_add(u64::from(len)),
        _ => ctx.rip,
    }
}

/// Counts what an instruction stored in the versions of the pages of code.
pub(crate) fn count_stored(run: &mut RunState, stored: Option<Stored>)
    requires pages { length run.old.state.versions ≡ state.page_count run.old.state.machine.ram.code }
    requires versions { AreBelow run.old.state.versions (2 ^ 63) }
    requires inside { IsInside run.old.state.machine.ram stored }
    ensures { run.new ≡ record run.old { state = spec.counted run.old.state stored } }
{
    run.machine.ram.is_sound();
    if let Some(stored) = stored {
        touch(&mut run.versions, run.machine.ram.code(), stored);
    }
}

/// An instruction is done that may have stored into memory, as memory is already.
fn settle(run: &mut RunState, i: u8, ctx: &Ctx, stored: Option<Stored>)
    requires sound { IsSoundState run.old.state }
    requires cpu { IsTrue (machine.is_cpu run.old.state.machine i) }
    requires spends { CanSpend run.old.state i }
    requires inside { IsInside run.old.state.machine.ram stored }
    ensures { run.new ≡ record run.old { state = spec.stepped_to (spec.counted run.old.state stored) i ctx.now false } }
{
    count_stored(run, stored);
    step_to(run, i, ctx, false);
}

/// What follows from an instruction whose memory stands already. `ctx` is the context after it.
#[tactic(auto, unfolding(crate::specs::Step::performed_as))]
fn follow(run: &mut RunState, by: u16, i: u8, insn: &Insn, len: u8, ctx: &Ctx, done: Performed)
    requires sound { IsSoundState run.old.state }
    requires cpu { IsTrue (machine.is_cpu run.old.state.machine i) }
    requires spends { CanSpend run.old.state i }
    requires inside { IsInside run.old.state.machine.ram done.stored }
    requires closed { IsTrue (spec.is_routing_effect run.old.state done.effect) → run.old.state.machine.meet ≡ None }
    requires room { 1 ≤ run.old.room }
    requires spare { 2 ≤ run.old.spare }
    ensures state { run.new.state ≡ spec.performed_as run.old.state by i insn.now len (record { effect = done.effect; ctx = ctx.now; memory = run.old.state.machine.ram; stored = done.stored }) done.effect }
    ensures room { run.old.room ≤ run.new.room + 1 }
    ensures spare { run.old.spare ≤ run.new.spare + 2 }
{
    match done.effect {
        Effect::Done => settle(run, i, ctx, done.stored),
        Effect::Halt => step_to(run, i, ctx, true),
        Effect::Trap { vector, error } => {
            let rip = pushed_rip(&run.machine.cpus.at(i as usize).ctx, insn.op, len);
            trap(run, i, rip, vector, error);
        }
        Effect::Stop(stop) => stop_at(run, i, stop),
        Effect::PortIn { port, width } => port_in(run, i, insn, len, port, width),
        Effect::PortOut { port, width, value } => port_out(run, i, ctx, port, width, value),
        Effect::Load { area } => load(run, i, insn, len, area),
        Effect::Store { area, value } => store(run, by, i, ctx, area, value),
    }
}

/// Runs an instruction on these registers and on memory, where it stands.
fn perform_on(run: &mut RunState, ctx: &mut Ctx, insn: &Insn, len: u8) -> Performed
    requires spare { 2 ≤ run.old.spare }
    ensures state { run.new.state ≡ spec.with_ram run.old.state (exec.shared ctx.old insn.now len run.old.state.machine.ram).memory }
    ensures effect { result.effect ≡ (exec.shared ctx.old insn.now len run.old.state.machine.ram).effect }
    ensures stored { result.stored ≡ (exec.shared ctx.old insn.now len run.old.state.machine.ram).stored }
    ensures ctx { ctx.new ≡ (exec.shared ctx.old insn.now len run.old.state.machine.ram).ctx }
    ensures leaves { Leaves result.effect ctx.old ctx.new run.old.state.machine.ram run.new.state.machine.ram }
    ensures inside { IsInside run.new.state.machine.ram result.stored }
    ensures size { KeepsSize run.old.state.machine.ram run.new.state.machine.ram }
    ensures room { run.new.room ≡ run.old.room }
    ensures spare { run.old.spare ≤ run.new.spare + 2 }
{
    perform(ctx, insn, len, &mut run.machine.ram)
}

/// One instruction of `len` bytes that isn't local.
pub(crate) fn share(run: &mut RunState, by: u16, i: u8, insn: &Insn, len: u8)
    requires sound { IsSoundState run.old.state }
    requires cpu { IsTrue (machine.is_cpu run.old.state.machine i) }
    requires spends { CanSpend run.old.state i }
    requires closed { IsTrue (spec.is_routing_effect run.old.state (exec.shared (machine.cpu_at run.old.state.machine i).ctx insn.now len run.old.state.machine.ram).effect) → run.old.state.machine.meet ≡ None }
    requires room { 1 ≤ run.old.room }
    requires spare { 4 ≤ run.old.spare }
    ensures state { run.new.state ≡ (let x = exec.shared (machine.cpu_at run.old.state.machine i).ctx insn.now len run.old.state.machine.ram in spec.performed_as run.old.state by i insn.now len x x.effect) }
    ensures room { run.old.room ≤ run.new.room + 1 }
    ensures spare { run.old.spare ≤ run.new.spare + 4 }
{
    let mut ctx = ctx_of(run, i);
    let done = perform_on(run, &mut ctx, insn, len);
    follow(run, by, i, insn, len, &ctx, done);
}

/// Bytes that no instruction spells.
pub(crate) fn refuse(run: &mut RunState, i: u8)
    requires cpu { IsTrue (machine.is_cpu run.old.state.machine i) }
    requires spends { CanSpend run.old.state i }
    requires spare { 2 ≤ run.old.spare }
    ensures state { run.new.state ≡ spec.trapped run.old.state i (machine.cpu_at run.old.state.machine i).ctx.rip 6 None }
    ensures room { run.new.room ≡ run.old.room }
    ensures spare { run.old.spare ≤ run.new.spare + 2 }
{
    let rip = run.machine.cpus.at(i as usize).ctx.rip;
    trap(run, i, rip, INVALID_OPCODE, None);
}
