//! What is noted of instructions that were executed, and of one that couldn't be.
ghost use Rattle.std.specs.Prelude.{◌≡◌, ◌≤◌, ◌+◌, ◌<◌, ◌^◌, IsTrue, Some, length, slice_index};
ghost use Rattle.vm_state.specs.declared.run_state.Why.{Why};
ghost use Rattle.vm_state.specs.Machine as machine;
ghost use Rattle.vm_state.specs.State as state;
ghost use Rattle.vm_running.specs.Enter as enter;
ghost use Rattle.vm_running.specs.Slice as slice;
ghost use Rattle.vm_running.specs.Spending as spending;
ghost use Rattle.vm_running.specs.Step as step;

use vm_law::{Ctx, Stop};
use vm_state::{RunState, Versions, Why};
use x86_exec::Stored;

/// The bytes of a page of memory.
const PAGE: u64 = 4096;

/// A Stop ends the run and changes nothing else.
#[tactic(auto, unfolding(crate::specs::Enter::stopped_at))]
pub(crate) fn stop_at(run: &mut RunState, i: u8, stop: Stop)
    requires { IsTrue (machine.is_cpu run.old.state.machine i) }
    ensures { run.new ≡ record run.old { state = enter.stopped_at run.old.state i stop } }
{
    let rip = run.machine.cpus.at(i as usize).ctx.rip;
    run.ended = Some(Why::Stopped { cpu: i, stop, rip });
}

/// `count` instructions of a vCPU were executed.
#[tactic(auto, unfolding(crate::specs::Slice::spent))]
pub(crate) fn spend(run: &mut RunState, i: u8, count: u16)
    requires seat { i < length run.old.state.seats }
    requires left { count ≤ (state.seat_at run.old.state i).left }
    requires ran { (state.seat_at run.old.state i).ran + count < 2 ^ 64 }
    requires executed { run.old.state.executed + count < 2 ^ 64 }
    ensures { run.new ≡ record run.old { state = slice.spent run.old.state i count } }
{
    let seat = run.seats.at_mut(i as usize);
    seat.left -= count;
    seat.stayed = true;
    seat.ran += u64::from(count);
    run.executed += u64::from(count);
}

/// An instruction of a vCPU was executed: this is its context, and whether it is halted.
#[tactic(auto, unfolding(crate::specs::Step::stepped_to, crate::specs::Slice::spent))]
pub(crate) fn step_to(run: &mut RunState, i: u8, ctx: &Ctx, halted: bool)
    requires cpu { IsTrue (machine.is_cpu run.old.state.machine i) }
    requires spends { spending.CanSpend run.old.state i }
    ensures { run.new ≡ record run.old { state = step.stepped_to run.old.state i ctx.now halted } }
{
    let cpu = run.machine.cpus.at_mut(i as usize);
    cpu.ctx = *ctx;
    cpu.halted = halted;
    spend(run, i, 1);
}

/// Counts a store in the versions of the pages of code that it touches.
#[tactic(auto, unfolding(vm_state::specs::State::touched))]
pub(crate) fn touch(versions: &mut Versions, code: u64, stored: Stored)
    requires pages { length versions.old ≡ state.page_count code }
    requires fits { spending.AreBelow versions.old (2 ^ 63) }
    requires inside { stored.at + stored.len < 2 ^ 64 }
    ensures { versions.new ≡ state.touched versions.old code stored }
{
    if stored.at >= code {
        return;
    }
    let end = (stored.at + u64::from(stored.len)).min(code);
    let first = stored.at / PAGE;
    let last = end.saturating_sub(1) / PAGE;
    versions.count(first as usize);
    if last != first {
        versions.count(last as usize);
    }
}
