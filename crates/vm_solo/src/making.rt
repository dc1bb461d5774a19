//! The actors of a run at its start.
ghost use Rattle.std.specs.Prelude.{◌≡◌, ◌≤◌, ◌<◌, ◌+◌, IfOk, OnOk, length};
ghost use Rattle.vm_state.specs.Machine as machine;
ghost use Rattle.vm_state.specs.Requests.{first_worker, pass_count};
ghost use Rattle.vm_solo.specs.New.{AreNewActors, AreNewRunners, AreNewWorkers};

use std::alloc::Global;
use vm_blkwork::Worker;
use vm_host::Image;
use vm_law::{Bytes, OutOfMemory};
use vm_table::Run;
use vm_vcpu::Runner;

/// The bytes of the code part.
fn code_of(alloc: Global, run: &Run) -> Result<Vec<u8>, OutOfMemory>
    ensures bytes { IfOk result (λ code. code.items ≡ machine.code_of run.now.state.machine) }
    ensures short { IfOk result (λ code. length code.items ≤ 16777216) }
{
    run.is_sound();
    let ram = &run.machine().ram;
    ram.is_sound();
    let mut code = Vec::new(alloc);
    code.resize(ram.code() as usize, 0)?;
    ram.read(0, code.as_mut_slice());
    Ok(code)
}

/// The runner of each vCPU.
fn runners_of(alloc: Global, run: &Run, code: &[u8]) -> Result<Vec<Runner>, OutOfMemory>
    requires { length code.now ≤ 16777216 }
    ensures { IfOk result (λ runners. AreNewRunners (machine.cpu_count run.now.state.machine) code.now runners.items) }
{
    let mut runners = Vec::new(alloc);
    for cpu in 0..run.cpu_count() {
        runners.push(Runner::new(alloc, cpu, 1 + u16::from(cpu), code)?)?;
    }
    Ok(runners)
}

/// Adds the workers of a block device, whose passes come next.
fn push_workers<I: Image + Drop>(
    workers: &mut Vec<Worker<I>>,
    run: &Run,
    disk: u8,
) -> Result<(), OutOfMemory>
    requires there { disk < machine.drive_count run.now.state.machine }
    requires before { AreNewWorkers run.now.state.machine (first_worker run.now.state.machine disk) workers.old.items }
    ensures { OnOk result (AreNewWorkers run.now.state.machine (first_worker run.now.state.machine (disk + 1)) workers.new.items) }
{
    run.is_sound();
    let first = 1 + u16::from(run.cpu_count()) + workers.len() as u16;
    for k in 0..run.drive(disk).workers {
        workers.push(Worker::new(disk, first + u16::from(k)))?;
    }
    Ok(())
}

/// The workers of each block device, by their passes.
fn workers_of<I: Image + Drop>(alloc: Global, run: &Run) -> Result<Vec<Worker<I>>, OutOfMemory>
    ensures { IfOk result (λ workers. AreNewWorkers run.now.state.machine (pass_count run.now.state.machine) workers.items) }
{
    let mut workers = Vec::new(alloc);
    for disk in 0..run.drive_count() {
        push_workers(&mut workers, run, disk)?;
    }
    Ok(workers)
}

/// The runner of each vCPU, and the workers of each block device.
pub(crate) fn actors_of<I: Image + Drop>(
    alloc: Global,
    run: &Run,
) -> Result<(Vec<Runner>, Vec<Worker<I>>), OutOfMemory>
    ensures { IfOk result (λ a. AreNewActors run.now.state.machine a.0.items a.1.items) }
{
    let code = code_of(alloc, run)?;
    let runners = runners_of(alloc, run, code.as_slice())?;
    let workers = workers_of(alloc, run)?;
    Ok((runners, workers))
}
