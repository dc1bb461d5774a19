//! The end of a run: End, Close.
ghost use Rattle.std.specs.Prelude.{◌≡◌, IsTrue};
ghost use Rattle.std.specs.Option.{option_copied};
ghost use Rattle.vm_state.specs.Sound.{IsSoundState};
ghost use Rattle.vm_orders.specs.Done.{is_wait as waits};
ghost use Rattle.vm_orders.specs.Ending as spec;

use crate::conditions::is_met;
use vm_disks::none_busy;
use vm_law::{EndCause, Order};
use vm_state::{RunState, Why};

/// So many entries use a run up.
pub(crate) const ENTRY_LIMIT: u64 = 40_000_000;

fn is_wait(order: &Order) -> bool
    ensures { result ≡ waits order.now }
{
    matches!(
        order,
        Order::WaitQuiet | Order::WaitConsole(_) | Order::WaitExecuted(_)
    )
}

/// Whether there is an order that is a wait whose condition fails.
fn is_waiting(run: &RunState, order: Option<&Order>) -> bool
    requires { IsSoundState run.now.state }
    ensures { result ≡ spec.is_waiting run.now.state (option_copied order.entry) }
{
    match order {
        None => false,
        Some(order) => is_wait(order) && !is_met(run, order),
    }
}

/// Whether what was allowed is used up: 40,000,000 entries stand, or as many instructions were executed as may be, while a
/// vCPU has something to do and a wait isn't over.
#[inline(always)]
#[tactic(auto, unfolding(crate::specs::Ending::is_used_up))]
pub fn is_used_up(run: &RunState) -> bool
    requires { IsSoundState run.now.state }
    ensures { result ≡ spec.is_used_up run.now.state }
{
    if run.entries >= ENTRY_LIMIT {
        return true;
    }
    if run.executed != run.limit || !run.machine.any_eager() {
        return false;
    }
    is_waiting(run, run.next_order())
}

/// Whether control may end the run for this cause.
#[inline(always)]
#[tactic(auto, unfolding(crate::specs::Ending::may_end))]
pub fn may_end(run: &RunState, by: u16, cause: EndCause) -> bool
    requires { IsSoundState run.now.state }
    ensures { result ≡ spec.may_end run.now.state by cause }
{
    if by != 0 || run.ended.is_some() {
        return false;
    }
    match cause {
        EndCause::Budget => is_used_up(run),
        EndCause::Outside => true,
    }
}

/// The run has ended.
#[tactic(auto, unfolding(crate::specs::Ending::after_end))]
pub fn end(run: &mut RunState, by: u16, cause: EndCause)
    requires sound { IsSoundState run.old.state }
    requires may { IsTrue (spec.may_end run.old.state by cause) }
    ensures { run.new ≡ record run.old { state = spec.after_end run.old.state cause } }
{
    run.ended = Some(match cause {
        EndCause::Budget => Why::Budget,
        EndCause::Outside => Why::Outside,
    });
}

/// Whether control may close the run: it has ended, and everything is at rest.
#[inline(always)]
#[tactic(auto, unfolding(crate::specs::Ending::may_close))]
pub fn may_close(run: &RunState, by: u16) -> bool
    ensures { result ≡ spec.may_close run.now.state by }
{
    by == 0
        && run.ended.is_some()
        && run.machine.all_idle()
        && none_busy(&run.machine)
        && run.none_held()
        && !run.machine.meet.is_open()
}

/// Nothing can follow.
#[tactic(auto, unfolding(crate::specs::Ending::after_close))]
pub fn close(run: &mut RunState, by: u16)
    requires sound { IsSoundState run.old.state }
    requires may { IsTrue (spec.may_close run.old.state by) }
    ensures { run.new ≡ record run.old { state = spec.after_close run.old.state } }
{
    run.closed = true;
}
