//! Whether control rests, as far as that is told at sight.
ghost use Rattle.std.specs.Prelude.{◌≡◌};
ghost use Rattle.std.specs.Option.{option_copied};
ghost use Rattle.vm_state.specs.Sound.{IsSoundState};
ghost use Rattle.vm_orders.specs.Resting as spec;

use crate::conditions::{has_console, has_executed};
use crate::duties::LONGEST_LAG;
use crate::ending::ENTRY_LIMIT;
use vm_devices::any_armed;
use vm_law::Order;
use vm_state::RunState;

/// Whether no order comes next, or a wait, which isn't over while a vCPU has something to do.
#[inline(always)]
fn waits_on(run: &RunState, order: Option<&Order>) -> bool
    ensures { result ≡ spec.waits_on run.now.state (option_copied order.entry) }
{
    match order {
        None | Some(Order::WaitQuiet) => true,
        Some(Order::WaitConsole(count)) => !has_console(run, *count),
        Some(Order::WaitExecuted(count)) => !has_executed(run, *count),
        Some(_) => false,
    }
}

/// Whether no timer is armed, or the timers moved on fewer than 1,024 instructions ago.
#[inline(always)]
fn moved_lately(run: &RunState) -> bool
    requires { IsSoundState run.now.state }
    ensures { result ≡ spec.moved_lately run.now.state }
{
    run.lag() < LONGEST_LAG || !any_armed(&run.machine)
}

/// Whether the run isn't ended, no order comes next but a wait that isn't over, no byte of the input is left, no timer has to
/// move on by 1,024 instructions, neither entries nor instructions are used up, and a vCPU has something to do. Then control
/// has nothing to do for the run as a whole, and so it is in most turns.
#[inline(always)]
#[tactic(auto, unfolding(crate::specs::Resting::rests_at_sight))]
pub fn rests_at_sight(run: &RunState) -> bool
    requires { IsSoundState run.now.state }
    ensures { result ≡ spec.rests_at_sight run.now.state }
{
    run.ended.is_none()
        && waits_on(run, run.next_order())
        && !(run.fed < run.input.len())
        && moved_lately(run)
        && run.entries < ENTRY_LIMIT
        && run.executed != run.limit
        && run.machine.any_eager()
}
