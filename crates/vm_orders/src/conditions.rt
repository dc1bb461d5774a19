//! When an order is done: the condition of Done.
ghost use Rattle.std.specs.Prelude.{◌≡◌};
ghost use Rattle.std.specs.Option.{option_copied};
ghost use Rattle.vm_state.specs.Machine.{cpu_at, is_frozen};
ghost use Rattle.vm_state.specs.Sound.{IsSoundState};
ghost use Rattle.vm_orders.specs.Done as spec;

use crate::quiet::is_quiet;
use vm_disks::none_busy;
use vm_law::Order;
use vm_state::{Machine, RunState};

/// Whether the machine can be cut: a pause is wished, every vCPU is frozen by control, no request is busy, every image is at
/// home, and no rendezvous is open.
#[tactic(auto, unfolding(crate::specs::Done::is_cut))]
pub fn is_cut(run: &RunState) -> bool
    ensures { result ≡ spec.is_cut run.now.state }
{
    run.machine.pause
        && run.machine.all_frozen()
        && none_busy(&run.machine)
        && run.none_held()
        && !run.machine.meet.is_open()
}

/// Whether a vCPU is frozen by control.
fn is_stopped(machine: &Machine, i: u8) -> bool
    ensures { result ≡ is_frozen (cpu_at machine.now.state i).stage 0 }
{
    machine.is_cpu(i) && machine.cpu(i).is_frozen(0)
}

/// Whether a resume is done: a pause is wished, every vCPU is frozen by control, and no rendezvous is open.
fn is_resumable(run: &RunState) -> bool
    ensures { result ≡ spec.is_met run.now.state Order.Resume }
{
    run.machine.pause && run.machine.all_frozen() && !run.machine.meet.is_open()
}

/// Whether the console has so many bytes.
pub(crate) fn has_console(run: &RunState, count: u64) -> bool
    ensures { result ≡ spec.has_come run.now.state (Order.WaitConsole count) }
{
    run.console.len() as u64 >= count
}

/// Whether so many instructions were executed.
pub(crate) fn has_executed(run: &RunState, count: u64) -> bool
    ensures { result ≡ spec.has_come run.now.state (Order.WaitExecuted count) }
{
    run.executed >= count
}

/// Whether an order's condition holds.
#[inline(always)]
pub(crate) fn is_met(run: &RunState, order: &Order) -> bool
    requires { IsSoundState run.now.state }
    ensures { result ≡ spec.is_met run.now.state order.now }
{
    match order {
        Order::WaitQuiet => is_quiet(run),
        Order::WaitConsole(count) => has_console(run, *count) || is_quiet(run),
        Order::WaitExecuted(count) => has_executed(run, *count) || is_quiet(run),
        Order::Input(_) | Order::Nmi(_) | Order::Cancel { .. } => true,
        Order::Rendezvous => run.begun && !run.machine.meet.is_open(),
        Order::Pause | Order::Checkpoint(_) | Order::Against { .. } => is_cut(run),
        Order::Send(_) => !run.machine.pause || is_cut(run),
        Order::Set { cpu, .. } | Order::Get { cpu, .. } => is_stopped(&run.machine, *cpu),
        Order::Resume => is_resumable(run),
    }
}

/// Whether there is an order whose condition holds.
#[inline(always)]
fn is_ready(run: &RunState, order: Option<&Order>) -> bool
    requires { IsSoundState run.now.state }
    ensures { result ≡ spec.is_ready run.now.state (option_copied order.entry) }
{
    match order {
        None => false,
        Some(order) => is_met(run, order),
    }
}

/// Whether the order at place `k` comes next, and is done.
#[inline(always)]
#[tactic(auto, unfolding(crate::specs::Done::may_done))]
pub fn may_done(run: &RunState, by: u16, k: u16) -> bool
    requires { IsSoundState run.now.state }
    ensures { result ≡ spec.may_done run.now.state by k }
{
    by == 0 && k == run.place && run.ended.is_none() && is_ready(run, run.next_order())
}
