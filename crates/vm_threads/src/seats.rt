//! An actor with its pass, as one value.

use std::marker::Model;
use vm_blkwork::Worker;
use vm_board::Board;
use vm_host::Image;
use vm_turn::Pass;
use vm_vcpu::Runner;

/// A runner and its pass, which fit: the pass isn't control's, has the runner's number and holds nothing, and the runner fits
/// the history that the pass has seen.
#[derive(Drop)]
pub(crate) struct SeatedRunner<I: Image + Drop> {
    pub(crate) runner: Runner,
    pub(crate) pass: Pass<Board<I>>,
}

impl<I: Image + Drop> Model for SeatedRunner<I> {
    ghost use Rattle.std.specs.Coded.{codes};
    ghost use Rattle.vm_law.specs.contracts.journal.Signed as signed_contract;
    ghost use Rattle.vm_state.specs.contracts.start.Start as start_contract;
    ghost use Rattle.vm_vcpu.specs.View.{runner_code};
    ghost use Rattle.vm_threads.specs.Seats.{IsRunnerSeat, RunnerSeat};

    ghost Value = { RunnerSeat };

    ghost coded = { Prim.hlevel (codes, runner_code, start_contract.the_row.coded, signed_contract.the_row.coded) };

    ghost view = { λ s. record { runner = s.runner; pass = s.pass } };

    ghost invariant = { λ s. IsRunnerSeat (record { runner = s.runner; pass = s.pass }) };
}

/// A worker and its pass, which fit in the same way.
#[derive(Drop)]
pub(crate) struct SeatedWorker<I: Image + Drop> {
    pub(crate) worker: Worker<I>,
    pub(crate) pass: Pass<Board<I>>,
}

impl<I: Image + Drop> Model for SeatedWorker<I> {
    ghost use Rattle.std.specs.Coded.{codes};
    ghost use Rattle.vm_law.specs.contracts.journal.Signed as signed_contract;
    ghost use Rattle.vm_state.specs.contracts.start.Start as start_contract;
    ghost use Rattle.vm_threads.specs.Seats.{IsWorkerSeat, WorkerSeat};

    ghost Value = { WorkerSeat I };

    ghost coded = { Prim.hlevel (codes, I.code, start_contract.the_row.coded, signed_contract.the_row.coded) };

    ghost view = { λ s. record { worker = s.worker; pass = s.pass } };

    ghost invariant = { λ s. IsWorkerSeat I.seen (record { worker = s.worker; pass = s.pass }) };
}
