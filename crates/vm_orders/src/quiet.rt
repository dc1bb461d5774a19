//! Whether anything more can happen by itself.
ghost use Rattle.std.specs.Prelude.{◌≡◌};
ghost use Rattle.vm_state.specs.Sound.{IsMachine, IsSoundState};
ghost use Rattle.vm_orders.specs.Quiet as spec;

use vm_devices::any_live;
use vm_disks::{any_request, can_pull};
use vm_state::{Machine, RunState};

/// Whether a chain waits that a worker may take.
fn any_pull(machine: &Machine) -> bool
    requires { IsMachine machine.now.state }
    ensures { result ≡ spec.any_pull machine.now.state }
{
    let drives = machine.drives.as_slice();
    for drive in drives {
        if can_pull(&machine.ram, drive) {
            return true;
        }
    }
    false
}

/// Whether a byte of the input can be received.
#[inline(always)]
pub(crate) fn can_feed(run: &RunState) -> bool
    ensures { result ≡ spec.can_feed run.now.state }
{
    run.fed < run.input.len() && !run.machine.uart.is_full()
}

/// Whether nothing more can happen by itself, but that a timer fires: no vCPU has something to do, no rendezvous is open, no
/// chain waits and no request is unfinished, and no byte of the input can be received.
#[inline(always)]
#[tactic(auto, unfolding(crate::specs::Quiet::is_still))]
pub fn is_still(run: &RunState) -> bool
    requires { IsSoundState run.now.state }
    ensures { result ≡ spec.is_still run.now.state }
{
    let machine = &run.machine;
    if machine.any_eager() || machine.meet.is_open() || can_feed(run) {
        return false;
    }
    !any_pull(machine) && !any_request(machine)
}

/// Whether nothing more can happen by itself, and no firing of a timer would be seen.
#[inline(always)]
#[tactic(auto, unfolding(crate::specs::Quiet::is_quiet))]
pub fn is_quiet(run: &RunState) -> bool
    requires { IsSoundState run.now.state }
    ensures { result ≡ spec.is_quiet run.now.state }
{
    is_still(run) && !any_live(&run.machine)
}
