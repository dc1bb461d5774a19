//! The turns of control, and the joins of pass 0.
ghost use Rattle.std.specs.Prelude.{◌≡◌, ◌≢◌, ◌++◌, true, false, None, is_some};
ghost use Rattle.vm_state.specs.State.{State};
ghost use Rattle.vm_control.specs.Fits.{ControlFits};
ghost use Rattle.vm_solo.specs.Playing.{Causes, KeepsFirst, Writes};
ghost use Rattle.vm_threads.specs.Chair.{HasClosed, HasJoined, HasTaken, HasTurned, IsSameSeat};

use crate::chair::Chair;
use std::alloc::Global;
use std::sync::Wait;
use vm_board::{Board, Did};
use vm_control::{Control, OutFault};
use vm_host::{Image, Sink};
use vm_turn::{Pass, Turnstile};

/// A turn of control at the turnstile.
fn turn<R: Wait, I: Image + Drop>(
    chair: &mut Chair<I>,
    rt: &R,
    alloc: Global,
    turnstile: &Turnstile<Board<I>>,
) -> Did
    requires { chair.old.pass.turnstile ≡ turnstile.now }
    ensures seat { IsSameSeat chair.old chair.new }
    ensures kept { (chair.new.fault ≡ chair.old.fault) × (chair.new.control.wrote ≡ chair.old.control.wrote) }
    ensures taken { HasTaken result chair.new }
{
    let mut held = turnstile.take(rt, &mut chair.pass);
    held.value.is_sound();
    let did = chair.control.turn(alloc, &mut held.value);
    held.value.is_sound();
    turnstile.give(&mut chair.pass, held);
    did
}

/// Control's work outside, where it hasn't failed yet. Answers its first failure.
fn work_outside<S: Sink>(
    control: &mut Control,
    fault: Option<OutFault>,
    console: &mut S,
) -> Option<OutFault>
    requires { control.old.failed ≡ is_some fault }
    ensures failed { control.new.failed ≡ is_some result }
    ensures fits { (s : State) → ControlFits s control.old → ControlFits s control.new }
    ensures writes { Writes control.old control.new (S.seen console.old) (S.seen console.new) }
    ensures whole { result ≡ None → control.new.wrote ≡ control.old.wrote ++ control.old.held }
    ensures keeps { KeepsFirst fault result }
    ensures cause { Causes fault result (S.seen console.old).faults (S.seen console.new).faults }
{
    if fault.is_some() {
        return fault;
    }
    match control.write(console) {
        Ok(()) => None,
        Err(fault) => Some(fault),
    }
}

/// A turn of control at the turnstile, and its work outside.
pub(crate) fn stay<R: Wait, I: Image + Drop, S: Sink>(
    chair: &mut Chair<I>,
    rt: &R,
    alloc: Global,
    turnstile: &Turnstile<Board<I>>,
    console: &mut S,
) -> Did
    requires { chair.old.pass.turnstile ≡ turnstile.now }
    ensures turned { HasTurned chair.old chair.new (S.seen console.old) (S.seen console.new) }
    ensures closed { result ≡ Did.Left → HasClosed chair.new }
{
    let did = turn(chair, rt, alloc, turnstile);
    chair.fault = work_outside(&mut chair.control, chair.fault, console);
    did
}

/// Joins the pass of an actor that has ended.
pub(crate) fn join_one<I: Image + Drop>(
    chair: Chair<I>,
    turnstile: &Turnstile<Board<I>>,
    ended: Pass<Board<I>>,
) -> Chair<I>
    requires mine { chair.pass.turnstile ≡ turnstile.now }
    requires other { (ended.turnstile ≡ turnstile.now) × (ended.view.number ≢ 0) }
    requires free { ended.view.holds ≡ false }
    ensures { HasJoined chair 1 result }
{
    let Chair {
        control,
        pass,
        fault,
    } = chair;
    let pass = turnstile.join(pass, ended);
    Chair {
        control,
        pass,
        fault,
    }
}
