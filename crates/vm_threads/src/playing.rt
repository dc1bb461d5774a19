//! A run in threads.
ghost use Rattle.std.specs.Prelude.{◌≡◌, ◌≢◌, ◌≤◌, true, length, Ok, Err, Some, IfOk, OnErr};
ghost use Rattle.vm_host.specs.Counts.{Rose};
ghost use Rattle.vm_host.specs.Leaves.{Takes, TakesSome};
ghost use Rattle.vm_state.specs.declared.run_state.Why.TheVariants as why;
ghost use Rattle.vm_state.specs.Start.{IsSound};
ghost use Rattle.vm_board.specs.Homes.{AreFresh};
ghost use Rattle.vm_threads.specs.Crew.{Closes, answer_of};

use crate::chair::Chair;
use crate::crew::run_crew;
use crate::played::Played;
use crate::seating::seat_all;
use crate::starts::Starts;
use std::alloc::Global;
use std::sync::Wait;
use std::thread::Threads;
use vm_board::Board;
use vm_control::OutFault;
use vm_host::{Gate, Host, Image, Sink};
use vm_law::OutOfMemory;
use vm_state::Start;
use vm_turn::Turnstile;

/// The board, which notes want of memory, with the answer: that, or else the first failure.
fn ended<I: Image + Drop>(board: Board<I>, fault: Option<OutFault>, starved: bool) -> Played<I>
    ensures board { (result.board.start ≡ board.start) × (result.board.state ≡ board.state) }
    ensures starved { starved ≡ true → result.board.starved ≡ true }
    ensures answer { result.answer ≡ answer_of fault starved }
{
    let mut board = board;
    if starved {
        board.starve();
        return Played {
            board,
            answer: Err(OutFault::Memory),
        };
    }
    match fault {
        Some(fault) => Played {
            board,
            answer: Err(fault),
        },
        None => Played {
            board,
            answer: Ok(()),
        },
    }
}

/// The board, as the turnstile gives it back once all passes are joined.
fn close<I: Image + Drop>(
    turnstile: Turnstile<Board<I>>,
    chair: Chair<I>,
    starved: bool,
) -> Played<I>
    requires own { chair.pass.turnstile ≡ turnstile }
    requires lone { length chair.pass.view.ended ≡ chair.pass.view.splits }
    ensures { Closes I.seen chair starved result.board result.answer }
{
    let Chair {
        control: _,
        pass,
        fault,
    } = chair;
    let board = turnstile.close(pass);
    board.is_sound();
    ended(board, fault, starved)
}

/// Plays all actors of a run, each in a thread of its own, until its run is closed: control with the caller, and the runner of
/// each vCPU and each worker of a block device in a thread. An actor that `starts` keeps here, or whose thread can't be started,
/// takes its turns between those of control.
///
/// Where control's work outside fails, control ends the run at its next turn if it isn't ended, and `answer` is that failure once
/// the run is closed. `answer` is `Memory` only where memory was wanted while they played; then they stop, and the board notes
/// it. On `OutOfMemory` none was started, and the console took nothing. The host isn't called.
pub fn play_threads<R, I, H, S, G>(
    rt: &R,
    alloc: Global,
    start: Start,
    images: Vec<I>,
    _host: &mut H,
    console: &mut S,
    gate: &G,
    starts: Starts,
) -> Result<Played<I>, OutOfMemory>
where
    R: Threads + Wait + Sync,
    I: Image + Drop + Send,
    H: Host,
    S: Sink,
    G: Gate + Sync,
    requires sound { IsSound start }
    requires fresh { AreFresh I.seen start.disks images.items }
    ensures start { IfOk result (λ p. p.board.start ≡ start) }
    ensures closed { IfOk result (λ p. p.answer ≢ Err OutFault.Memory → p.board.state.closed ≡ true) }
    ensures starved { IfOk result (λ p. p.answer ≡ Err OutFault.Memory → p.board.starved ≡ true) }
    ensures no_fault { IfOk result (λ p. p.answer ≡ Ok tt → p.board.state.ended ≢ Some why.Outside) }
    ensures part { IfOk result (λ p. TakesSome p.board.state.console (S.seen console.old) (S.seen console.new)) }
    ensures all { IfOk result (λ p. p.answer ≡ Ok tt → Takes p.board.state.console (S.seen console.old) (S.seen console.new)) }
    ensures quiet { IfOk result (λ p. p.answer ≡ Ok tt → (S.seen console.new).faults ≡ (S.seen console.old).faults) }
    ensures cause { IfOk result (λ p. p.answer ≡ Err OutFault.Sink → Rose (S.seen console.old).faults (S.seen console.new).faults) }
    ensures later { (S.seen console.old).faults ≤ (S.seen console.new).faults }
    ensures only { IfOk result (λ p. p.answer ≢ Err OutFault.Failed) }
    ensures host { _host.new ≡ _host.old }
    ensures idle { OnErr result (console.new ≡ console.old) }
{
    let (turnstile, chair, runners, workers) = seat_all(alloc, start, images)?;
    let (chair, starved) = run_crew(
        rt, alloc, &turnstile, gate, console, chair, runners, workers, starts,
    )?;
    Ok(close(turnstile, chair, starved))
}
