//! Claim, Start, Exit, Sleep, Wake, Yield.
ghost use Rattle.std.specs.Prelude.{◌≡◌, ◌<◌, IsTrue};
ghost use Rattle.vm_stage.specs.Stage.{is_lawful, reached};
ghost use Rattle.vm_state.specs.Machine as machine;
ghost use Rattle.vm_state.specs.State as state;
ghost use Rattle.vm_state.specs.Sound.{IsSoundState};
ghost use Rattle.vm_owners.specs.Owners as spec;

use vm_stage::To;
use vm_state::{RunState, ctx_from};

/// Moves a vCPU to another stage, which is a lawful move.
fn shift(run: &mut RunState, i: u8, to: To, by: u16)
    requires cpu { i < machine.cpu_count run.old.state.machine }
    requires lawful { IsTrue (is_lawful (machine.cpu_at run.old.state.machine i).stage by to) }
    ensures { run.new ≡ record run.old { state = state.with_machine run.old.state (machine.with_stage run.old.state.machine i (reached to by)) } }
{
    let cpu = run.machine.cpu_mut(i);
    let _moved = cpu.stage.shift(to, by).is_ok();
}

/// Whether an idle vCPU may be taken: by its runner, to run or for its turn in a rendezvous, or by control, for a pause.
#[tactic(auto, unfolding(crate::specs::Owners::may_claim))]
pub fn may_claim(run: &RunState, by: u16, i: u8) -> bool
    ensures { result ≡ spec.may_claim run.now.state by i }
{
    if !run.machine.is_cpu(i) || !run.machine.cpu(i).is_idle() {
        return false;
    }
    let runner = by == 1 + u16::from(i);
    (runner && !run.machine.pause && run.ended.is_none())
        || (runner && run.machine.meet.awaits(i))
        || (by == 0 && run.machine.pause && run.ended.is_none())
}

/// An idle vCPU is taken and frozen.
#[tactic(auto, unfolding(crate::specs::Owners::may_claim, crate::specs::Owners::after_claim))]
pub fn claim(run: &mut RunState, by: u16, i: u8)
    requires may { IsTrue (spec.may_claim run.old.state by i) }
    ensures { run.new ≡ record run.old { state = spec.after_claim run.old.state by i } }
{
    shift(run, i, To::Frozen, by);
}

/// Whether a vCPU for which a start-up waits may start.
#[tactic(auto, unfolding(crate::specs::Owners::may_start))]
pub fn may_start(run: &RunState, by: u16, i: u8) -> bool
    ensures { result ≡ spec.may_start run.now.state by i }
{
    if !run.machine.is_cpu(i) {
        return false;
    }
    let cpu = run.machine.cpu(i);
    cpu.is_frozen(by)
        && by == 1 + u16::from(i)
        && cpu.startup.is_some()
        && !run.machine.pause
        && run.ended.is_none()
}

/// A vCPU starts at the page that the vector of its start-up names.
#[tactic(auto, unfolding(crate::specs::Owners::may_start, crate::specs::Owners::after_start))]
pub fn start(run: &mut RunState, by: u16, i: u8)
    requires may { IsTrue (spec.may_start run.old.state by i) }
    ensures { run.new ≡ record run.old { state = spec.after_start run.old.state i } }
{
    let cpu = run.machine.cpu_mut(i);
    let vector = cpu.startup.unwrap_or(0);
    cpu.started = true;
    cpu.startup = None;
    cpu.ctx = ctx_from(4096 * u64::from(vector));
}

/// Whether a running vCPU may be frozen: it did something in its stay, or something waits for it.
#[tactic(auto, unfolding(crate::specs::Owners::may_exit))]
pub fn may_exit(run: &RunState, by: u16, i: u8) -> bool
    requires { IsSoundState run.now.state }
    ensures { result ≡ spec.may_exit run.now.state by i }
{
    if !run.machine.is_cpu(i) || !run.machine.cpu(i).is_running(by) {
        return false;
    }
    run.seat(i).stayed || run.machine.meet.is_open() || run.machine.pause || run.ended.is_some()
}

/// A running vCPU is frozen, and gives back what is left of its grant.
#[tactic(auto, unfolding(crate::specs::Owners::may_exit, crate::specs::Owners::after_exit))]
pub fn exit(run: &mut RunState, by: u16, i: u8)
    requires sound { IsSoundState run.old.state }
    requires may { IsTrue (spec.may_exit run.old.state by i) }
    ensures { run.new ≡ record run.old { state = spec.after_exit run.old.state by i } }
{
    shift(run, i, To::Frozen, by);
    let seat = run.seat_mut(i);
    seat.left = 0;
    seat.stayed = false;
}

/// Whether a frozen vCPU that has nothing to do may sleep.
#[tactic(auto, unfolding(crate::specs::Owners::may_sleep))]
pub fn may_sleep(run: &RunState, by: u16, i: u8) -> bool
    ensures { result ≡ spec.may_sleep run.now.state by i }
{
    if !run.machine.is_cpu(i) {
        return false;
    }
    let cpu = run.machine.cpu(i);
    cpu.is_frozen(by)
        && by == 1 + u16::from(i)
        && !cpu.is_eager()
        && !run.machine.meet.names(i)
        && !run.machine.pause
        && run.ended.is_none()
}

/// A frozen vCPU sleeps.
#[tactic(auto, unfolding(crate::specs::Owners::may_sleep, crate::specs::Owners::after_sleep))]
pub fn sleep(run: &mut RunState, by: u16, i: u8)
    requires may { IsTrue (spec.may_sleep run.old.state by i) }
    ensures { run.new ≡ record run.old { state = spec.after_sleep run.old.state by i } }
{
    shift(run, i, To::Sleeping, by);
}

/// Whether a sleeping vCPU may be woken: it has something to do, or something waits for it.
#[tactic(auto, unfolding(crate::specs::Owners::may_wake))]
pub fn may_wake(run: &RunState, by: u16, i: u8) -> bool
    ensures { result ≡ spec.may_wake run.now.state by i }
{
    if !run.machine.is_cpu(i) {
        return false;
    }
    let cpu = run.machine.cpu(i);
    if !cpu.is_sleeping(by) {
        return false;
    }
    cpu.is_eager() || run.machine.meet.names(i) || run.machine.pause || run.ended.is_some()
}

/// A sleeping vCPU is woken and frozen.
#[tactic(auto, unfolding(crate::specs::Owners::may_wake, crate::specs::Owners::after_wake))]
pub fn wake(run: &mut RunState, by: u16, i: u8)
    requires may { IsTrue (spec.may_wake run.old.state by i) }
    ensures { run.new ≡ record run.old { state = spec.after_wake run.old.state by i } }
{
    shift(run, i, To::Frozen, by);
}

/// Whether a frozen vCPU may be given up: at the end, by its runner for a pause, or by control after one.
#[tactic(auto, unfolding(crate::specs::Owners::may_yield))]
pub fn may_yield(run: &RunState, by: u16, i: u8) -> bool
    ensures { result ≡ spec.may_yield run.now.state by i }
{
    if !run.machine.is_cpu(i) {
        return false;
    }
    if !run.machine.cpu(i).is_frozen(by) || run.machine.meet.names(i) {
        return false;
    }
    run.ended.is_some() || (by != 0 && run.machine.pause) || (by == 0 && !run.machine.pause)
}

/// A frozen vCPU is given up.
#[tactic(auto, unfolding(crate::specs::Owners::may_yield, crate::specs::Owners::after_yield))]
pub fn yield_idle(run: &mut RunState, by: u16, i: u8)
    requires may { IsTrue (spec.may_yield run.old.state by i) }
    ensures { run.new ≡ record run.old { state = spec.after_yield run.old.state i } }
{
    shift(run, i, To::Idle, by);
}
