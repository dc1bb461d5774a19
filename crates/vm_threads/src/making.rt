//! The actors of a run at its start, each with a pass.
ghost use Rattle.std.specs.Prelude.{◌≡◌, ◌+◌, ◌<◌, ◌≤◌, All, IfOk, length, map, sum, take, vec_len};
ghost use Rattle.vm_state.specs.Machine as machine;
ghost use Rattle.vm_state.specs.Requests.{first_worker};
ghost use Rattle.vm_state.specs.declared.drive.Drive as drive_type;
ghost use Rattle.vm_threads.specs.New.{HasCode, HasWorkers, IsFirst, OfBoot};

use crate::seats::{SeatedRunner, SeatedWorker};
use std::alloc::Global;
use vm_blkwork::Worker;
use vm_board::Board;
use vm_host::Image;
use vm_law::{Bytes, OutOfMemory};
use vm_table::Run;
use vm_turn::{Pass, Turnstile};
use vm_vcpu::{Runner, new_runners_fit};

/// The bytes of the code part.
pub(crate) fn code_of(alloc: Global, run: &Run) -> Result<Vec<u8>, OutOfMemory>
    ensures bytes { IfOk result (λ code. code.items ≡ machine.code_of run.now.state.machine) }
    ensures short { IfOk result (λ code. length code.items ≤ 16777216) }
{
    run.is_sound();
    let ram = &run.machine().ram;
    ram.is_sound();
    let mut code = Vec::new(alloc);
    code.resize(ram.code() as usize, 0)?;
    ram.read(0, code.as_mut_slice());
    Ok(code)
}

/// How many workers each block device has.
pub(crate) fn workers_of(alloc: Global, run: &Run) -> Result<Vec<u8>, OutOfMemory>
    ensures { IfOk result (λ counts. HasWorkers counts.items run.now.state.machine) }
{
    let mut counts = Vec::new(alloc);
    for disk in 0..run.drive_count() {
        counts.push(run.drive(disk).workers)?;
    }
    Ok(counts)
}

/// Splits a pass off for the runner of each vCPU.
pub(crate) fn seat_runners<I: Image + Drop>(
    alloc: Global,
    turnstile: &Turnstile<Board<I>>,
    pass: Pass<Board<I>>,
    cpus: u8,
    code: &[u8],
) -> Result<(Pass<Board<I>>, Vec<SeatedRunner<I>>), OutOfMemory>
    requires own { pass.turnstile ≡ turnstile.now }
    requires first { IsFirst pass.view 0 }
    requires code { OfBoot pass.view (HasCode cpus code.now) }
    requires short { length code.now ≤ 16777216 }
    ensures own { IfOk result (λ r. r.0.turnstile ≡ turnstile.now) }
    ensures root { IfOk result (λ r. r.0.view.root ≡ pass.view.root) }
    ensures first { IfOk result (λ r. IsFirst r.0.view cpus) }
    ensures count { IfOk result (λ r. vec_len r.1 ≡ cpus) }
    ensures seats { IfOk result (λ r. All (λ s. s.pass.turnstile ≡ turnstile.now) r.1.items) }
{
    new_runners_fit();
    let mut pass = pass;
    let mut seats = Vec::new(alloc);
    for cpu in 0..cpus {
        let (keeper, mine) = turnstile.split(pass);
        pass = keeper;
        let runner = Runner::new(alloc, cpu, mine.number(), code)?;
        seats.push(SeatedRunner { runner, pass: mine })?;
    }
    Ok((pass, seats))
}

/// Splits a pass off for each worker of a block device.
fn seat_drive<I: Image + Drop>(
    turnstile: &Turnstile<Board<I>>,
    pass: Pass<Board<I>>,
    disk: u8,
    count: u8,
    seats: &mut Vec<SeatedWorker<I>>,
) -> Result<Pass<Board<I>>, OutOfMemory>
    requires own { pass.turnstile ≡ turnstile.now }
    requires first { IsFirst pass.view pass.view.splits }
    requires few { pass.view.splits + count < 65535 }
    requires disk { OfBoot pass.view (λ m. (disk < machine.drive_count m) × ((machine.drive_at m disk).workers ≡ count) × (pass.view.splits + 1 ≡ first_worker m disk)) }
    requires seats { All (λ s. s.pass.turnstile ≡ turnstile.now) seats.old.items }
    ensures own { IfOk result (λ p. p.turnstile ≡ turnstile.now) }
    ensures root { IfOk result (λ p. p.view.root ≡ pass.view.root) }
    ensures first { IfOk result (λ p. IsFirst p.view (pass.view.splits + count)) }
    ensures count { IfOk result (λ p. vec_len seats.new ≡ vec_len seats.old + count) }
    ensures seats { IfOk result (λ p. All (λ s. s.pass.turnstile ≡ turnstile.now) seats.new.items) }
{
    let mut pass = pass;
    for _ in 0..count {
        let (keeper, mine) = turnstile.split(pass);
        pass = keeper;
        let worker = Worker::new(disk, mine.number());
        seats.push(SeatedWorker { worker, pass: mine })?;
    }
    Ok(pass)
}

/// Splits a pass off for each worker of each block device.
pub(crate) fn seat_workers<I: Image + Drop>(
    alloc: Global,
    turnstile: &Turnstile<Board<I>>,
    pass: Pass<Board<I>>,
    drives: u8,
    counts: &[u8],
) -> Result<(Pass<Board<I>>, Vec<SeatedWorker<I>>), OutOfMemory>
    requires own { pass.turnstile ≡ turnstile.now }
    requires first { IsFirst pass.view pass.view.splits }
    requires cpus { OfBoot pass.view (λ m. machine.cpu_count m ≡ pass.view.splits) }
    requires workers { OfBoot pass.view (λ m. (machine.drive_count m ≡ drives) × HasWorkers counts.now m) }
    ensures own { IfOk result (λ r. r.0.turnstile ≡ turnstile.now) }
    ensures root { IfOk result (λ r. r.0.view.root ≡ pass.view.root) }
    ensures first { IfOk result (λ r. IsFirst r.0.view (pass.view.splits + vec_len r.1)) }
    ensures seats { IfOk result (λ r. All (λ s. s.pass.turnstile ≡ turnstile.now) r.1.items) }
{
    let mut pass = pass;
    let mut seats = Vec::new(alloc);
    for disk in 0..drives {
        let count = counts[usize::from(disk)];
        pass = seat_drive(turnstile, pass, disk, count, &mut seats)?;
    }
    Ok((pass, seats))
}
