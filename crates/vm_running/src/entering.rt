//! Enter: a frozen vCPU runs.
ghost use Rattle.std.specs.Prelude.{◌≡◌, ◌≤◌, ◌+◌, ◌<◌, IsTrue, IsSome, IfSome, Option, Some, None, length};
ghost use Rattle.vm_lapic.specs.Apic.{ready};
ghost use Rattle.vm_stage.specs.Stage.{is_lawful};
ghost use Rattle.vm_state.specs.Machine as machine;
ghost use Rattle.vm_state.specs.State as state;
ghost use Rattle.vm_state.specs.Sound.{IsSoundState};
ghost use Rattle.vm_running.specs.Enter as spec;

use crate::spending::stop_at;
use vm_law::Owned;
use vm_stage::To;
use vm_state::{RunState, open_grants};
use x86_trap::deliver;

/// The most instructions that one Enter grants.
const LARGEST_GRANT: u16 = 1024;

/// The vector of an NMI.
const NMI: u8 = 2;

/// Whether a frozen vCPU may run, for at most `grant` instructions.
#[tactic(auto, unfolding(crate::specs::Enter::may_enter))]
pub fn may_enter(run: &RunState, by: u16, i: u8, grant: u16) -> bool
    requires { IsSoundState run.now.state }
    ensures { result ≡ spec.may_enter run.now.state by i grant }
{
    if i as usize >= run.machine.cpus.len() || by != 1 + u16::from(i) {
        return false;
    }
    let cpu = run.machine.cpus.at(i as usize);
    if cpu.stage.now() != Owned::Frozen(by) || !cpu.started || !cpu.is_awake() {
        return false;
    }
    if run.machine.meet.is_open() || run.machine.pause || run.ended.is_some() {
        return false;
    }
    grant >= 1
        && grant <= LARGEST_GRANT
        && run.executed + open_grants(run.seats.as_slice()) + u64::from(grant) <= run.limit
}

/// A stay begins.
#[tactic(auto, unfolding(crate::specs::Enter::entered))]
fn begin_stay(run: &mut RunState, by: u16, i: u8, grant: u16)
    requires cpu { IsTrue (machine.is_cpu run.old.state.machine i) }
    requires seat { i < length run.old.state.seats }
    requires lawful { IsTrue (is_lawful (machine.cpu_at run.old.state.machine i).stage by To.Running) }
    ensures { run.new ≡ record run.old { state = spec.entered run.old.state by i grant } }
{
    let cpu = run.machine.cpus.at_mut(i as usize);
    let _moved = cpu.stage.shift(To::Running, by);
    cpu.halted = false;
    let seat = run.seats.at_mut(i as usize);
    seat.left = grant;
    seat.stayed = false;
}

/// Delivers what was taken; a Stop ends the run.
#[tactic(auto, unfolding(crate::specs::Enter::settled))]
fn deliver_to(run: &mut RunState, i: u8, vector: u8, nmi: bool)
    requires cpu { IsTrue (machine.is_cpu run.old.state.machine i) }
    requires spare { 2 ≤ run.old.spare }
    ensures state { run.new.state ≡ spec.delivered_in run.old.state i vector nmi }
    ensures room { run.new.room ≡ run.old.room }
    ensures spare { run.old.spare ≤ run.new.spare + 2 }
{
    let cpu = run.machine.cpus.at_mut(i as usize);
    match deliver(&mut cpu.ctx, &mut run.machine.ram, vector, None, nmi) {
        Ok(()) => {}
        Err(stop) => stop_at(run, i, stop),
    }
}

/// Takes the NMI that is pending.
#[tactic(auto, unfolding(crate::specs::Enter::nmi_taken))]
fn take_nmi(run: &mut RunState, i: u8)
    requires cpu { IsTrue (machine.is_cpu run.old.state.machine i) }
    requires seat { i < length run.old.state.seats }
    requires spare { 2 ≤ run.old.spare }
    ensures state { run.new.state ≡ spec.nmi_taken run.old.state i }
    ensures room { run.new.room ≡ run.old.room }
    ensures spare { run.old.spare ≤ run.new.spare + 2 }
{
    run.machine.cpus.at_mut(i as usize).nmi = false;
    run.seats.at_mut(i as usize).stayed = true;
    deliver_to(run, i, NMI, true);
}

/// Takes the vector that can be delivered.
#[tactic(auto, unfolding(crate::specs::Enter::vector_taken))]
fn take_vector(run: &mut RunState, i: u8)
    requires cpu { IsTrue (machine.is_cpu run.old.state.machine i) }
    requires seat { i < length run.old.state.seats }
    requires ready { IsSome (ready (machine.cpu_at run.old.state.machine i).lapic) }
    requires spare { 2 ≤ run.old.spare }
    ensures state { run.new.state ≡ spec.vector_taken run.old.state i (ready (machine.cpu_at run.old.state.machine i).lapic) }
    ensures room { run.new.room ≡ run.old.room }
    ensures spare { run.old.spare ≤ run.new.spare + 2 }
{
    let vector = run.machine.cpus.at_mut(i as usize).lapic.service();
    run.seats.at_mut(i as usize).stayed = true;
    deliver_to(run, i, vector, false);
}

/// Takes an NMI first, and else the vector that can be delivered, and else nothing.
#[tactic(auto, unfolding(crate::specs::Enter::interrupt_taken))]
fn take_interrupt(run: &mut RunState, i: u8)
    requires cpu { IsTrue (machine.is_cpu run.old.state.machine i) }
    requires seat { i < length run.old.state.seats }
    requires spare { 2 ≤ run.old.spare }
    ensures state { run.new.state ≡ spec.interrupt_taken run.old.state i }
    ensures room { run.new.room ≡ run.old.room }
    ensures spare { run.old.spare ≤ run.new.spare + 2 }
{
    let cpu = run.machine.cpus.at(i as usize);
    if cpu.takes_nmi() {
        take_nmi(run, i);
    } else if cpu.takes_vector() {
        take_vector(run, i);
    }
}

/// A frozen vCPU runs, for at most `grant` instructions. It takes an interrupt, where one can be delivered, which takes at
/// most two pages of memory; a delivery that can't be done ends the run.
#[tactic(auto, unfolding(crate::specs::Enter::may_enter, crate::specs::Enter::after_enter, crate::specs::Enter::entered))]
pub fn enter(run: &mut RunState, by: u16, i: u8, grant: u16)
    requires sound { IsSoundState run.old.state }
    requires may { IsTrue (spec.may_enter run.old.state by i grant) }
    requires spare { 2 ≤ run.old.spare }
    ensures state { run.new.state ≡ spec.after_enter run.old.state by i grant }
    ensures room { run.new.room ≡ run.old.room }
    ensures spare { run.old.spare ≤ run.new.spare + 2 }
{
    begin_stay(run, by, i, grant);
    take_interrupt(run, i);
}
