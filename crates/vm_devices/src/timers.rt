//! The timers of the local APICs.
ghost use Rattle.std.specs.Prelude.{◌≡◌, ◌≤◌, ◌<◌, ◌^◌, ◌+◌, IsTrue, slice_set};
ghost use Rattle.std.specs.List.{All};
ghost use Rattle.vm_state.specs.Machine as state;
ghost use Rattle.vm_devices.specs.Timers as spec;

use crate::heard::{divide, initial_count, is_heard, is_masked, period, span, vector};
use vm_state::Machine;

/// Whether the timer of a vCPU is armed.
fn is_armed(machine: &Machine, i: u8) -> bool
    requires { i < 16 }
    ensures { result ≡ spec.is_armed machine.now.state i }
{
    machine.timers.left(i) != 0
}

/// Whether the timer of a vCPU is armed, and its firing would be seen.
#[tactic(auto, unfolding(crate::specs::Timers::is_live))]
fn is_live(machine: &Machine, i: u8) -> bool
    requires cpu { i < state.cpu_count machine.now.state }
    requires small { i < 16 }
    ensures { result ≡ spec.is_live machine.now.state i }
{
    is_armed(machine, i) && is_heard(&machine.cpus.at(i as usize).lapic)
}

/// Whether some timer is armed.
#[tactic(auto, using(crate::proofs::Live::any_steps))]
pub fn any_armed(machine: &Machine) -> bool
    requires { state.cpu_count machine.now.state ≤ 16 }
    ensures { result ≡ spec.any_armed machine.now.state }
{
    let count = machine.cpus.len() as u8;
    for i in 0..count {
        if is_armed(machine, i) {
            return true;
        }
    }
    false
}

/// Whether some timer is armed whose firing would be seen.
#[tactic(auto, using(crate::proofs::Live::any_steps))]
pub fn any_live(machine: &Machine) -> bool
    requires { state.cpu_count machine.now.state ≤ 16 }
    ensures { result ≡ spec.any_live machine.now.state }
{
    let count = machine.cpus.len() as u8;
    for i in 0..count {
        if is_live(machine, i) {
            return true;
        }
    }
    false
}

/// The smaller of two numbers, of which the first may be none yet.
fn smaller(least: Option<u64>, left: u64) -> Option<u64>
    ensures { result ≡ spec.smaller least left }
{
    match least {
        None => Some(left),
        Some(least) => Some(least.min(left)),
    }
}

/// The least that is left of a timer whose firing would be seen, or 0 where there is none.
#[tactic(auto, unfolding(crate::specs::Timers::least_live), using(crate::proofs::Live::least_steps))]
pub fn least_live(machine: &Machine) -> u64
    requires { state.cpu_count machine.now.state ≤ 16 }
    ensures { result ≡ spec.least_live machine.now.state }
{
    let count = machine.cpus.len() as u8;
    let mut least = None;
    for i in 0..count {
        if is_live(machine, i) {
            least = smaller(least, machine.timers.left(i));
        }
    }
    least.unwrap_or(0)
}

/// The guest wrote the initial count of a vCPU's timer: it is armed anew, or disarmed where the count is 0. `lag` is how many
/// instructions were executed since the timers moved on last.
#[tactic(auto, unfolding(crate::specs::Timers::armed))]
pub(crate) fn arm(machine: &mut Machine, i: u8, lag: u64)
    requires cpu { i < state.cpu_count machine.old.state }
    requires small { i < 16 }
    requires lag { lag < 2 ^ 39 }
    ensures { machine.new ≡ record machine.old { state = spec.armed machine.old.state i lag } }
{
    let lapic = &machine.cpus.at(i as usize).lapic;
    if initial_count(lapic) == 0 {
        machine.timers.disarm(i);
    } else {
        let remaining = span(lapic) + lag;
        machine.timers.arm(i, remaining);
    }
}

/// The current count register of a vCPU's timer: what is left, in units of the divide and rounded up.
#[tactic(auto, unfolding(crate::specs::Timers::current_count))]
pub(crate) fn current_count(machine: &Machine, i: u8, lag: u64) -> u32
    requires cpu { i < state.cpu_count machine.now.state }
    requires small { i < 16 }
    ensures { result ≡ spec.current_count machine.now.state i lag }
{
    let left = machine.timers.left(i);
    if lag >= left {
        return 0;
    }
    let divide = divide(&machine.cpus.at(i as usize).lapic);
    ((left - lag + divide - 1) / divide).min(0xFFFF_FFFF) as u32
}

/// The timer of a vCPU fires where a tick of `n` reaches it: it posts its vector, unless it is masked.
#[tactic(auto, unfolding(crate::specs::Timers::fired))]
fn fire_where_due(machine: &mut Machine, n: u64, i: u8)
    requires cpu { i < state.cpu_count machine.old.state }
    requires small { i < 16 }
    ensures { machine.new ≡ record machine.old { state = spec.fired machine.old.state n i } }
{
    let left = machine.timers.left(i);
    let lapic = &machine.cpus.at(i as usize).lapic;
    if 0 < left && left <= n && !is_masked(lapic) {
        let vector = vector(lapic);
        let _posted = machine.cpus.at_mut(i as usize).lapic.post(vector);
    }
}

/// Each timer that a tick of `n` reaches fires.
#[tactic(auto, using(crate::proofs::Same::count_fired))]
fn fire_all(machine: &mut Machine, n: u64)
    requires { state.cpu_count machine.old.state ≤ 16 }
    ensures { machine.new ≡ record machine.old { state = spec.fired_below machine.old.state n (state.cpu_count machine.old.state) } }
{
    let count = machine.cpus.len() as u8;
    for i in 0..count {
        fire_where_due(machine, n, i);
    }
}

/// The period of a timer, 0 where it fires once or there is no such vCPU.
#[tactic(auto, using(crate::proofs::Firing::no_period))]
fn period_at(machine: &Machine, i: usize) -> u64
    ensures value { result ≡ spec.period_of (state.cpu_at machine.now.state i).lapic }
    ensures small { result < 2 ^ 40 }
{
    if i < machine.cpus.len() {
        period(&machine.cpus.at(i).lapic)
    } else {
        0
    }
}

/// The periods of the 16 timers.
fn periods(machine: &Machine) -> [u64; 16]
    ensures value { result ≡ spec.periods_of machine.now.state }
    ensures small { All (λ span. span < 2 ^ 40) result }
{
    let mut periods = [0; 16];
    for i in 0..16 {
        periods[i] = period_at(machine, i);
    }
    periods
}

/// The timers move on by `n`: each that has at most `n` left fires once, and the others lose `n`.
#[tactic(auto, unfolding(crate::specs::Timers::ticked), using(crate::proofs::Same::timers_fired))]
pub fn tick(machine: &mut Machine, n: u64)
    requires { state.cpu_count machine.old.state ≤ 16 }
    ensures { machine.new ≡ record machine.old { state = spec.ticked machine.old.state n } }
{
    let periods = periods(machine);
    fire_all(machine, n);
    let _fired = machine.timers.tick(n, &periods);
}
