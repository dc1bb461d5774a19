//! What control does beside the script's orders: Meet, Feed, Wish, Tick.
ghost use Rattle.std.specs.Prelude.{◌≡◌, IsTrue};
ghost use Rattle.std.specs.Option.{option_copied};
ghost use Rattle.vm_state.specs.Sound.{IsSoundState};
ghost use Rattle.vm_orders.specs.Duties as spec;

use crate::quiet::{can_feed, is_still};
use vm_devices::{any_armed, any_live, follow_serial, least_live, started_cpus};
use vm_law::{MeetKind, Order};
use vm_state::RunState;

/// From so many instructions on since the timers moved on last they move on by all of them.
pub(crate) const LONGEST_LAG: u64 = 1024;

fn is_rendezvous(order: Option<&Order>) -> bool
    ensures { result ≡ spec.is_rendezvous (option_copied order.entry) }
{
    match order {
        Some(Order::Rendezvous) => true,
        _ => false,
    }
}

fn is_pause(order: Option<&Order>) -> bool
    ensures { result ≡ spec.is_pause (option_copied order.entry) }
{
    match order {
        Some(Order::Pause) => true,
        _ => false,
    }
}

/// Whether control may open the rendezvous that the next order asks for.
#[tactic(auto, unfolding(crate::specs::Duties::may_meet))]
pub fn may_meet(run: &RunState, by: u16) -> bool
    ensures { result ≡ spec.may_meet run.now.state by }
{
    by == 0
        && is_rendezvous(run.next_order())
        && !run.begun
        && !run.machine.meet.is_open()
        && run.ended.is_none()
}

/// Control opens a rendezvous of all vCPUs that are started.
#[tactic(auto, unfolding(crate::specs::Duties::may_meet, crate::specs::Duties::after_meet))]
pub fn meet(run: &mut RunState, by: u16)
    requires sound { IsSoundState run.old.state }
    requires may { IsTrue (spec.may_meet run.old.state by) }
    ensures { run.new ≡ record run.old { state = spec.after_meet run.old.state } }
{
    let named = started_cpus(&run.machine);
    let _opened = run.machine.meet.start(MeetKind::Sample, 0, named).is_ok();
    run.begun = true;
}

/// Whether control may let the serial port receive a byte of the input.
#[tactic(auto, unfolding(crate::specs::Duties::may_feed))]
pub fn may_feed(run: &RunState, by: u16) -> bool
    ensures { result ≡ spec.may_feed run.now.state by }
{
    by == 0 && can_feed(run) && !run.machine.pause && run.ended.is_none()
}

/// The serial port receives the first byte of the input, and its pin follows its line.
#[tactic(auto, unfolding(crate::specs::Duties::may_feed, crate::specs::Duties::after_feed, vm_devices::specs::Ports::with_serial))]
pub fn feed(run: &mut RunState, by: u16)
    requires sound { IsSoundState run.old.state }
    requires may { IsTrue (spec.may_feed run.old.state by) }
    ensures { run.new ≡ record run.old { state = spec.after_feed run.old.state } }
{
    let byte = run.input[run.fed];
    run.fed += 1;
    let was = run.machine.uart.line();
    let _taken = run.machine.uart.receive(byte);
    follow_serial(&mut run.machine, was);
}

/// Whether control may wish the pause that the next order asks for.
#[tactic(auto, unfolding(crate::specs::Duties::may_wish))]
pub fn may_wish(run: &RunState, by: u16) -> bool
    ensures { result ≡ spec.may_wish run.now.state by }
{
    by == 0 && is_pause(run.next_order()) && !run.machine.pause && run.ended.is_none()
}

/// A pause is wished from now on.
#[tactic(auto, unfolding(crate::specs::Duties::after_wish))]
pub fn wish(run: &mut RunState, by: u16)
    requires sound { IsSoundState run.old.state }
    requires may { IsTrue (spec.may_wish run.old.state by) }
    ensures { run.new ≡ record run.old { state = spec.after_wish run.old.state } }
{
    run.machine.pause = true;
}

/// By how many instructions the timers would move on: by all that were executed since they did last, once these are 1,024,
/// and else by the least that is left of a timer whose firing would be seen.
#[inline(always)]
#[tactic(auto, unfolding(crate::specs::Duties::tick_of))]
pub fn tick_of(run: &RunState) -> u64
    requires { IsSoundState run.now.state }
    ensures { result ≡ spec.tick_of run.now.state }
{
    let lag = run.lag();
    if lag >= LONGEST_LAG {
        lag
    } else {
        least_live(&run.machine)
    }
}

/// Whether control may let the timers move on by `n` instructions: where these are all of at least 1,024 that were executed
/// since they did last, or where nothing but a timer can go on and it would fire then.
#[inline(always)]
#[tactic(auto, unfolding(crate::specs::Duties::may_tick))]
pub fn may_tick(run: &RunState, by: u16, n: u64) -> bool
    requires { IsSoundState run.now.state }
    ensures { result ≡ spec.may_tick run.now.state by n }
{
    if by != 0 || !any_armed(&run.machine) || run.machine.pause || run.ended.is_some() {
        return false;
    }
    n == tick_of(run) && (run.lag() >= LONGEST_LAG || any_live(&run.machine) && is_still(run))
}

/// The timers move on by `n` instructions.
#[tactic(auto, unfolding(crate::specs::Duties::after_tick))]
pub fn tick(run: &mut RunState, by: u16, n: u64)
    requires sound { IsSoundState run.old.state }
    requires may { IsTrue (spec.may_tick run.old.state by n) }
    ensures { run.new ≡ record run.old { state = spec.after_tick run.old.state n } }
{
    vm_devices::tick(&mut run.machine, n);
    run.seen = run.executed;
}
