//! What an instruction asks of the machine around its vCPU: ports, windows, and the delivery of what it raises.
ghost use Rattle.std.specs.Prelude.{◌≡◌, ◌≤◌, ◌+◌, IsTrue, None, false};
ghost use Rattle.vm_devices.specs.Windows.{is_routing_write as is_rerouting};
ghost use Rattle.vm_state.specs.Machine as machine;
ghost use Rattle.vm_state.specs.Sound.{IsSoundState};
ghost use Rattle.x86_exec.specs.Shared as exec;
ghost use Rattle.vm_running.specs.Spending.{CanSpend};
ghost use Rattle.vm_running.specs.Step as spec;

use crate::spending::{step_to, stop_at};
use vm_bus::Area;
use vm_devices::{read_port, read_window, write_port, write_window};
use vm_law::{Ctx, Insn, Width};
use vm_state::RunState;
use x86_exec::complete;
use x86_trap::deliver;

/// The registers of a vCPU.
pub(crate) fn ctx_of(run: &RunState, i: u8) -> Ctx
    requires { IsTrue (machine.is_cpu run.now.state.machine i) }
    ensures { result ≡ (machine.cpu_at run.now.state.machine i).ctx }
{
    run.machine.cpus.at(i as usize).ctx
}

/// Delivers an exception or a software interrupt, which pushes this RIP.
#[tactic(auto, unfolding(crate::specs::Step::trapped))]
pub(crate) fn trap(run: &mut RunState, i: u8, rip: u64, vector: u8, error: Option<u64>)
    requires cpu { IsTrue (machine.is_cpu run.old.state.machine i) }
    requires spends { CanSpend run.old.state i }
    requires spare { 2 ≤ run.old.spare }
    ensures state { run.new.state ≡ spec.trapped run.old.state i rip vector error }
    ensures room { run.new.room ≡ run.old.room }
    ensures spare { run.old.spare ≤ run.new.spare + 2 }
{
    let mut ctx = ctx_of(run, i);
    ctx.rip = rip;
    match deliver(&mut ctx, &mut run.machine.ram, vector, error, false) {
        Ok(()) => step_to(run, i, &ctx, false),
        Err(stop) => stop_at(run, i, stop),
    }
}

/// Completes an instruction with what a port or a window gave, on the registers from before it.
fn complete_with(run: &mut RunState, i: u8, ctx: &Ctx, insn: &Insn, len: u8, value: u32)
    requires cpu { IsTrue (machine.is_cpu run.old.state.machine i) }
    requires spends { CanSpend run.old.state i }
    ensures { run.new ≡ record run.old { state = spec.stepped_to run.old.state i (exec.completed ctx.now insn.now len value) false } }
{
    let mut after = *ctx;
    complete(&mut after, insn, len, value);
    step_to(run, i, &after, false);
}

/// An instruction reads a port.
#[tactic(auto, unfolding(crate::specs::Step::port_in), using(vm_devices::proofs::Counts::port_counts))]
pub(crate) fn port_in(run: &mut RunState, i: u8, insn: &Insn, len: u8, port: u16, width: Width)
    requires sound { IsSoundState run.old.state }
    requires cpu { IsTrue (machine.is_cpu run.old.state.machine i) }
    requires spends { CanSpend run.old.state i }
    ensures { run.new ≡ record run.old { state = spec.port_in run.old.state i insn.now len port width } }
{
    let ctx = ctx_of(run, i);
    let value = read_port(&mut run.machine, port, width);
    complete_with(run, i, &ctx, insn, len, value);
}

/// A byte goes to the console, where there is one.
fn print(run: &mut RunState, output: Option<u8>)
    requires { 1 ≤ run.old.room }
    ensures state { run.new.state ≡ spec.printed run.old.state output }
    ensures room { run.old.room ≤ run.new.room + 1 }
    ensures spare { run.new.spare ≡ run.old.spare }
{
    if let Some(byte) = output {
        run.console.push_reserved(byte);
    }
}

/// An instruction writes a port; `ctx` is the context after it.
#[tactic(auto, unfolding(crate::specs::Step::port_out), using(vm_devices::proofs::Counts::port_counts))]
pub(crate) fn port_out(run: &mut RunState, i: u8, ctx: &Ctx, port: u16, width: Width, value: u32)
    requires sound { IsSoundState run.old.state }
    requires cpu { IsTrue (machine.is_cpu run.old.state.machine i) }
    requires spends { CanSpend run.old.state i }
    requires room { 1 ≤ run.old.room }
    ensures state { run.new.state ≡ spec.port_out run.old.state i ctx.now port width value }
    ensures room { run.old.room ≤ run.new.room + 1 }
    ensures spare { run.new.spare ≡ run.old.spare }
{
    let output = write_port(&mut run.machine, port, width, value);
    print(run, output);
    step_to(run, i, ctx, false);
}

/// An instruction reads a device's window.
#[tactic(auto, unfolding(crate::specs::Step::window_load))]
pub(crate) fn load(run: &mut RunState, i: u8, insn: &Insn, len: u8, area: Area)
    requires sound { IsSoundState run.old.state }
    requires cpu { IsTrue (machine.is_cpu run.old.state.machine i) }
    requires spends { CanSpend run.old.state i }
    ensures { run.new ≡ record run.old { state = spec.window_load run.old.state i insn.now len area } }
{
    let ctx = ctx_of(run, i);
    let value = read_window(run, i, area);
    complete_with(run, i, &ctx, insn, len, value);
}

/// An instruction writes a device's window; `ctx` is the context after it.
#[tactic(auto, unfolding(crate::specs::Step::window_store))]
pub(crate) fn store(run: &mut RunState, by: u16, i: u8, ctx: &Ctx, area: Area, value: u32)
    requires sound { IsSoundState run.old.state }
    requires cpu { IsTrue (machine.is_cpu run.old.state.machine i) }
    requires spends { CanSpend run.old.state i }
    requires closed { IsTrue (is_rerouting run.old.state area value) → run.old.state.machine.meet ≡ None }
    ensures { run.new ≡ record run.old { state = spec.window_store run.old.state by i ctx.now area value } }
{
    write_window(run, by, i, area, value);
    step_to(run, i, ctx, false);
}
