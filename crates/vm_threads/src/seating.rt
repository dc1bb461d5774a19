//! Pass 0 with control, and all actors, at the start of a run.
ghost use Rattle.std.specs.Prelude.{◌≡◌, ◌+◌, [], All, IfOk, Some, vec_len};
ghost use Rattle.vm_state.specs.Start.{IsSound, boot};
ghost use Rattle.vm_board.specs.Homes.{AreFresh};
ghost use Rattle.vm_threads.specs.New.{IsFirst, IsFirstChair};

use crate::chair::Chair;
use crate::making::{code_of, seat_runners, seat_workers, workers_of};
use crate::seats::{SeatedRunner, SeatedWorker};
use std::alloc::Global;
use vm_board::Board;
use vm_control::Control;
use vm_host::Image;
use vm_law::OutOfMemory;
use vm_state::Start;
use vm_turn::{Pass, Turnstile};

/// A turnstile round a board at its start, pass 0, and each runner and each worker with a pass.
fn seat_board<I: Image + Drop>(
    alloc: Global,
    board: Board<I>,
) -> Result<
    (
        Turnstile<Board<I>>,
        Pass<Board<I>>,
        Vec<SeatedRunner<I>>,
        Vec<SeatedWorker<I>>,
    ),
    OutOfMemory,
>
    requires sound { IsSound board.start }
    requires boot { board.state ≡ boot board.start }
    requires journal { board.journal ≡ [] }
    ensures own { IfOk result (λ r. r.1.turnstile ≡ r.0) }
    ensures root { IfOk result (λ r. r.1.view.root ≡ Some board.start) }
    ensures first { IfOk result (λ r. IsFirst r.1.view (vec_len r.2 + vec_len r.3)) }
    ensures runners { IfOk result (λ r. All (λ s. s.pass.turnstile ≡ r.0) r.2.items) }
    ensures workers { IfOk result (λ r. All (λ s. s.pass.turnstile ≡ r.0) r.3.items) }
{
    let code = code_of(alloc, board.run())?;
    let counts = workers_of(alloc, board.run())?;
    let cpus = board.run().cpu_count();
    let drives = board.run().drive_count();
    let (turnstile, pass) = Turnstile::make(alloc, board)?;
    let (pass, runners) = seat_runners(alloc, &turnstile, pass, cpus, &code)?;
    let (pass, workers) = seat_workers(alloc, &turnstile, pass, drives, &counts)?;
    Ok((turnstile, pass, runners, workers))
}

/// The same of a start, with control at pass 0.
pub(crate) fn seat_all<I: Image + Drop>(
    alloc: Global,
    start: Start,
    images: Vec<I>,
) -> Result<
    (
        Turnstile<Board<I>>,
        Chair<I>,
        Vec<SeatedRunner<I>>,
        Vec<SeatedWorker<I>>,
    ),
    OutOfMemory,
>
    requires sound { IsSound start }
    requires fresh { AreFresh I.seen start.disks images.items }
    ensures chair { IfOk result (λ r. IsFirstChair start r.0 (vec_len r.2 + vec_len r.3) r.1) }
    ensures runners { IfOk result (λ r. All (λ s. s.pass.turnstile ≡ r.0) r.2.items) }
    ensures workers { IfOk result (λ r. All (λ s. s.pass.turnstile ≡ r.0) r.3.items) }
{
    let control = Control::new(alloc, &start)?;
    let board = Board::make(alloc, start, images)?;
    let (turnstile, pass, runners, workers) = seat_board(alloc, board)?;
    let chair = Chair {
        control,
        pass,
        fault: None,
    };
    Ok((turnstile, chair, runners, workers))
}
