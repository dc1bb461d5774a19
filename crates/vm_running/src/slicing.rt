//! Slice: instructions of a running vCPU that touch its own registers alone.
ghost use Rattle.std.specs.Prelude.{◌≡◌, ◌&&◌, IsTrue, is_some, IfSome};
ghost use Rattle.x86_fetch.specs.Slices as slices;
ghost use Rattle.vm_state.specs.Machine as machine;
ghost use Rattle.vm_state.specs.Sound.{IsSoundState};
ghost use Rattle.vm_running.specs.Slice as spec;

use crate::spending::spend;
use vm_law::{Ctx, Owned};
use vm_state::RunState;

/// Whether a vCPU may run a Slice of `count` instructions, if these are local.
#[tactic(auto, unfolding(crate::specs::Slice::has_slice))]
fn has_slice(run: &RunState, by: u16, i: u8, count: u16) -> bool
    requires { IsSoundState run.now.state }
    ensures { result ≡ spec.has_slice run.now.state by i count }
{
    if i as usize >= run.machine.cpus.len() {
        return false;
    }
    let cpu = run.machine.cpus.at(i as usize);
    if cpu.stage.now() != Owned::Running(by) || cpu.halted {
        return false;
    }
    count >= 1 && count <= run.seats.at(i as usize).left && !run.machine.meet.started_by(by)
}

/// Whether a vCPU may run a Slice of `count` instructions: it has so many left, and each of them is local in the code as
/// memory holds it.
#[tactic(auto, unfolding(crate::specs::Slice::may_slice, crate::specs::Slice::has_slice))]
pub fn may_slice(run: &RunState, by: u16, i: u8, count: u16) -> bool
    requires { IsSoundState run.now.state }
    ensures { result ≡ spec.may_slice run.now.state by i count }
{
    has_slice(run, by, i, count)
        && run
            .machine
            .ram
            .all_local(&run.machine.cpus.at(i as usize).ctx, count)
}

/// Runs local instructions of the code as memory holds it, from a context on and at most `most`, and says how many it ran.
/// The run stays.
pub fn run_ahead(run: &mut RunState, ctx: &mut Ctx, most: u16) -> u16
    ensures same { run.new ≡ run.old }
    ensures ran { slices.LocalRun (machine.code_of run.old.state.machine) ctx.old result ctx.new }
    ensures most { result ≡ slices.most_local (machine.code_of run.old.state.machine) ctx.old most }
{
    run.machine.ram.run_slice(ctx, most)
}

/// The registers of a vCPU.
fn ctx_of(run: &RunState, i: u8) -> Ctx
    requires { IsTrue (machine.is_cpu run.now.state.machine i) }
    ensures { result ≡ (machine.cpu_at run.now.state.machine i).ctx }
{
    run.machine.cpus.at(i as usize).ctx
}

/// The context after a Slice, where it may be run. The run stays.
#[tactic(auto, unfolding(crate::specs::Slice::may_slice, crate::specs::Slice::has_slice))]
pub fn slice_ahead(run: &mut RunState, by: u16, i: u8, count: u16) -> Option<Ctx>
    requires { IsSoundState run.old.state }
    ensures same { run.new ≡ run.old }
    ensures may { is_some result ≡ spec.may_slice run.old.state by i count }
    ensures ran { IfSome result (slices.LocalRun (machine.code_of run.old.state.machine) (machine.cpu_at run.old.state.machine i).ctx count) }
{
    if !has_slice(run, by, i, count) {
        return None;
    }
    let mut ctx = ctx_of(run, i);
    let ran = run_ahead(run, &mut ctx, count);
    if ran == count { Some(ctx) } else { None }
}

/// The Slice whose context after it was computed elsewhere.
#[tactic(auto, unfolding(crate::specs::Slice::may_slice, crate::specs::Slice::has_slice, crate::specs::Slice::after_slice))]
pub fn put_slice(run: &mut RunState, by: u16, i: u8, count: u16, ctx: &Ctx)
    requires sound { IsSoundState run.old.state }
    requires may { IsTrue (spec.may_slice run.old.state by i count) }
    requires reached { ctx.now ≡ slices.stepped_by (machine.code_of run.old.state.machine) (machine.cpu_at run.old.state.machine i).ctx count }
    ensures { run.new ≡ record run.old { state = spec.after_slice run.old.state i count } }
{
    run.machine.cpus.at_mut(i as usize).ctx = *ctx;
    spend(run, i, count);
}

/// Runs a Slice.
#[tactic(auto, unfolding(crate::specs::Slice::may_slice, crate::specs::Slice::has_slice))]
pub fn slice(run: &mut RunState, by: u16, i: u8, count: u16)
    requires sound { IsSoundState run.old.state }
    requires may { IsTrue (spec.may_slice run.old.state by i count) }
    ensures { run.new ≡ record run.old { state = spec.after_slice run.old.state i count } }
{
    let mut ctx = ctx_of(run, i);
    run.machine.ram.run_many(&mut ctx, count);
    put_slice(run, by, i, count, &ctx);
}
