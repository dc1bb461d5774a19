//! Step: one instruction of a running vCPU that isn't local.
ghost use Rattle.std.specs.Prelude.{◌≡◌, ℕ, ◌≤◌, ◌<◌, ◌+◌, ◌&&◌, ◌||◌, not, false, IsTrue, IfOk, OnErr, is_none, if◌then◌else◌};
ghost use Rattle.vm_state.specs.Machine as machine;
ghost use Rattle.vm_state.specs.Sound.{IsSoundState};
ghost use Rattle.vm_law.specs.Memory.{KeepsSize};
ghost use Rattle.x86_fetch.specs.Fetching.{is_local_next};
ghost use Rattle.x86_fetch.specs.Sharing.{IsNextDoneAs};
ghost use Rattle.vm_running.specs.Spending.{CanSpend, IsInside};
ghost use Rattle.vm_running.specs.Step as spec;

use crate::performing::{count_stored, refuse, share};
use crate::rerouting::reroutes;
use crate::spending::{spend, stop_at};
use vm_law::{Insn, Owned, Stop};
use vm_state::RunState;
use x86_exec::{NotDone, Stored};
use x86_fetch::Next;

/// What stands at RIP of a vCPU.
fn next_at(run: &RunState, i: u8) -> Next
    requires { IsTrue (machine.is_cpu run.now.state.machine i) }
    ensures { result ≡ spec.next_at run.now.state i }
{
    run.machine
        .ram
        .next_of(&run.machine.cpus.at(i as usize).ctx)
}

/// What stands at RIP of a vCPU. It is kept, so that it isn't decoded again. The run stays.
#[inline(always)]
fn next_kept(run: &mut RunState, i: u8) -> Next
    requires { IsTrue (machine.is_cpu run.old.state.machine i) }
    ensures same { run.new ≡ run.old }
    ensures next { result ≡ spec.next_at run.old.state i }
{
    run.machine
        .ram
        .next_kept(&run.machine.cpus.at(i as usize).ctx)
}

/// Whether a vCPU may run a Step, whatever its next instruction is.
#[inline(always)]
#[tactic(auto, unfolding(crate::specs::Step::has_step))]
fn has_step(run: &RunState, by: u16, i: u8) -> bool
    requires { IsSoundState run.now.state }
    ensures { result ≡ spec.has_step run.now.state by i }
{
    if i as usize >= run.machine.cpus.len() {
        return false;
    }
    let cpu = run.machine.cpus.at(i as usize);
    if cpu.stage.now() != Owned::Running(by) || cpu.halted || run.seats.at(i as usize).left == 0 {
        return false;
    }
    run.ended.is_none() && !run.machine.meet.started_by(by)
}

/// Whether the next instruction of a vCPU changes the interrupt routing.
#[tactic(auto, unfolding(crate::specs::Step::would_route))]
fn would_route(run: &RunState, i: u8) -> bool
    requires { IsTrue (machine.is_cpu run.now.state.machine i) }
    ensures { result ≡ spec.would_route run.now.state i }
{
    match next_at(run, i) {
        Next::Shared { insn, len } => reroutes(run, i, &insn, len),
        _ => false,
    }
}

/// Whether a vCPU may run a Step: its next instruction isn't local, and changes the interrupt routing only where no
/// rendezvous is open.
#[tactic(auto, unfolding(crate::specs::Step::may_step, crate::specs::Step::has_step, x86_fetch::specs::Slices::stands_local))]
pub fn may_step(run: &RunState, by: u16, i: u8) -> bool
    requires { IsSoundState run.now.state }
    ensures { result ≡ spec.may_step run.now.state by i }
{
    if !has_step(run, by, i) {
        return false;
    }
    if run
        .machine
        .ram
        .stands_local(&run.machine.cpus.at(i as usize).ctx)
    {
        return false;
    }
    !run.machine.meet.is_open() || !would_route(run, i)
}

/// Runs an instruction that isn't local, unless it changes the interrupt routing while a rendezvous is open.
#[tactic(auto, unfolding(crate::specs::Step::performed))]
fn share_where_allowed(run: &mut RunState, by: u16, i: u8, insn: &Insn, len: u8) -> bool
    requires sound { IsSoundState run.old.state }
    requires cpu { IsTrue (machine.is_cpu run.old.state.machine i) }
    requires spends { CanSpend run.old.state i }
    requires room { 1 ≤ run.old.room }
    requires spare { 4 ≤ run.old.spare }
    ensures may { result ≡ (not (spec.is_routing_next run.old.state i (Next.Shared insn.now len)) || is_none run.old.state.machine.meet) }
    ensures state { run.new.state ≡ (if result then spec.performed run.old.state by i (Next.Shared insn.now len) else run.old.state) }
    ensures room { run.old.room ≤ run.new.room + 1 }
    ensures spare { run.old.spare ≤ run.new.spare + 4 }
{
    if run.machine.meet.is_open() && reroutes(run, i, insn, len) {
        return false;
    }
    share(run, by, i, insn, len);
    true
}

/// Runs the next instruction of a vCPU on its registers and on memory, where they stand, if it isn't local and is done by
/// itself.
#[inline(always)]
fn run_in_place(run: &mut RunState, i: u8) -> Result<Option<Stored>, NotDone>
    requires cpu { IsTrue (machine.is_cpu run.old.state.machine i) }
    requires spare { 2 ≤ run.old.spare }
    ensures done { IsNextDoneAs result (machine.cpu_at run.old.state.machine i).ctx run.old.state.machine.ram (spec.next_at run.old.state i) (machine.cpu_at run.new.state.machine i).ctx run.new.state.machine.ram }
    ensures state { run.new.state ≡ spec.moved_on run.old.state i (machine.cpu_at run.new.state.machine i).ctx run.new.state.machine.ram }
    ensures same { OnErr result (run.new ≡ run.old) }
    ensures inside { IfOk result (IsInside run.new.state.machine.ram) }
    ensures size { KeepsSize run.old.state.machine.ram run.new.state.machine.ram }
    ensures room { run.new.room ≡ run.old.room }
    ensures spare { run.old.spare ≤ run.new.spare + 2 }
{
    let cpu = run.machine.cpus.at_mut(i as usize);
    run.machine.ram.share_done(&mut cpu.ctx)
}

/// An instruction was executed whose context stands already; the vCPU isn't halted.
#[inline(always)]
#[tactic(auto, unfolding(crate::specs::Step::stepped_to))]
fn go_on(run: &mut RunState, i: u8)
    requires cpu { IsTrue (machine.is_cpu run.old.state.machine i) }
    requires spends { CanSpend run.old.state i }
    ensures { run.new ≡ record run.old { state = spec.stepped_to run.old.state i (machine.cpu_at run.old.state.machine i).ctx false } }
{
    run.machine.cpus.at_mut(i as usize).halted = false;
    spend(run, i, 1);
}

/// Runs the next instruction of a vCPU where it isn't local and is done by itself, and says whether it is.
#[inline(always)]
fn step_in_place(run: &mut RunState, i: u8) -> bool
    requires sound { IsSoundState run.old.state }
    requires cpu { IsTrue (machine.is_cpu run.old.state.machine i) }
    requires spends { CanSpend run.old.state i }
    requires spare { 2 ≤ run.old.spare }
    ensures other { IsTrue result → is_local_next (spec.next_at run.old.state i) ≡ false }
    ensures ran { IsTrue result → (by : ℕ) → run.new.state ≡ spec.after_step run.old.state by i }
    ensures same { result ≡ false → run.new ≡ run.old }
    ensures room { run.new.room ≡ run.old.room }
    ensures spare { run.old.spare ≤ run.new.spare + 2 }
{
    match run_in_place(run, i) {
        Ok(stored) => {
            count_stored(run, stored);
            go_on(run, i);
            true
        }
        Err(NotDone) => false,
    }
}

/// Runs the next instruction of a vCPU where it may be a Step's, and says whether it may. It is looked up once.
#[inline(always)]
fn step_next(run: &mut RunState, by: u16, i: u8) -> bool
    requires sound { IsSoundState run.old.state }
    requires cpu { IsTrue (machine.is_cpu run.old.state.machine i) }
    requires spends { CanSpend run.old.state i }
    requires room { 1 ≤ run.old.room }
    requires spare { 4 ≤ run.old.spare }
    ensures may { result ≡ spec.is_allowed run.old.state i }
    ensures state { run.new.state ≡ (if result then spec.after_step run.old.state by i else run.old.state) }
    ensures room { run.old.room ≤ run.new.room + 1 }
    ensures spare { run.old.spare ≤ run.new.spare + 4 }
{
    if !run.machine.meet.is_open() && step_in_place(run, i) {
        return true;
    }
    step_by_kind(run, by, i)
}

/// The same, by what stands at RIP.
#[inline(never)]
#[tactic(auto, unfolding(crate::specs::Step::would_route, crate::specs::Step::after_step, crate::specs::Step::performed))]
fn step_by_kind(run: &mut RunState, by: u16, i: u8) -> bool
    requires sound { IsSoundState run.old.state }
    requires cpu { IsTrue (machine.is_cpu run.old.state.machine i) }
    requires spends { CanSpend run.old.state i }
    requires room { 1 ≤ run.old.room }
    requires spare { 4 ≤ run.old.spare }
    ensures may { result ≡ spec.is_allowed run.old.state i }
    ensures state { run.new.state ≡ (if result then spec.after_step run.old.state by i else run.old.state) }
    ensures room { run.old.room ≤ run.new.room + 1 }
    ensures spare { run.old.spare ≤ run.new.spare + 4 }
{
    match next_kept(run, i) {
        Next::Local { .. } => false,
        Next::Shared { insn, len } => share_where_allowed(run, by, i, &insn, len),
        Next::Undefined => {
            refuse(run, i);
            true
        }
        Next::OutOfCode => {
            stop_at(run, i, Stop::Fetch);
            true
        }
    }
}

/// Makes a vCPU's Step.
#[tactic(auto, unfolding(crate::specs::Step::may_step))]
pub fn step(run: &mut RunState, by: u16, i: u8)
    requires sound { IsSoundState run.old.state }
    requires may { IsTrue (spec.may_step run.old.state by i) }
    requires room { 1 ≤ run.old.room }
    requires spare { 4 ≤ run.old.spare }
    ensures state { run.new.state ≡ spec.after_step run.old.state by i }
    ensures room { run.old.room ≤ run.new.room + 1 }
    ensures spare { run.old.spare ≤ run.new.spare + 4 }
{
    step_next(run, by, i);
}

/// Makes a vCPU's Step where it may, and says whether it may. Its instruction is looked up once.
#[tactic(auto, unfolding(crate::specs::Step::may_step))]
pub fn step_where_allowed(run: &mut RunState, by: u16, i: u8) -> bool
    requires sound { IsSoundState run.old.state }
    requires room { 1 ≤ run.old.room }
    requires spare { 4 ≤ run.old.spare }
    ensures may { result ≡ spec.may_step run.old.state by i }
    ensures state { run.new.state ≡ (if result then spec.after_step run.old.state by i else run.old.state) }
    ensures room { run.old.room ≤ run.new.room + 1 }
    ensures spare { run.old.spare ≤ run.new.spare + 4 }
{
    if !has_step(run, by, i) {
        return false;
    }
    step_next(run, by, i)
}
