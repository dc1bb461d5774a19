//! Equal copies.
ghost use Rattle.std.specs.Prelude.{◌≡◌, ◌≤◌, IfOk};
ghost use Rattle.std.specs.Vec.{vec_len, vec_capacity};

use crate::cpu::Cpu;
use crate::drive::Drive;
use crate::image::DiskImage;
use crate::kept::{Held, Kept, Told};
use crate::machine::Machine;
use crate::run_state::{Answer, RunState, Sample};
use arrayvec::ArrayVec;
use std::alloc::Global;
use vm_law::{Order, OutOfMemory, Seq};

/// An equal order.
pub(crate) fn order_copy(alloc: Global, order: &Order) -> Result<Order, OutOfMemory>
    ensures { IfOk result (λ o. o ≡ order.now) }
{
    Ok(match order {
        Order::WaitQuiet => Order::WaitQuiet,
        Order::WaitConsole(count) => Order::WaitConsole(*count),
        Order::WaitExecuted(count) => Order::WaitExecuted(*count),
        Order::Input(bytes) => Order::Input(bytes.copy(alloc)?),
        Order::Nmi(cpu) => Order::Nmi(*cpu),
        Order::Rendezvous => Order::Rendezvous,
        Order::Pause => Order::Pause,
        Order::Resume => Order::Resume,
        Order::Checkpoint(name) => Order::Checkpoint(name.copy(alloc)?),
        Order::Set { cpu, reg, value } => Order::Set {
            cpu: *cpu,
            reg: *reg,
            value: *value,
        },
        Order::Get { cpu, reg } => Order::Get {
            cpu: *cpu,
            reg: *reg,
        },
        Order::Cancel { disk, id } => Order::Cancel {
            disk: *disk,
            id: *id,
        },
        Order::Against { name, base } => {
            let name = name.copy(alloc)?;
            let base = base.copy(alloc)?;
            Order::Against { name, base }
        }
        Order::Send(name) => Order::Send(name.copy(alloc)?),
    })
}

fn samples_copy(samples: &ArrayVec<Sample, 16>) -> ArrayVec<Sample, 16>
    ensures { result ≡ samples.now }
{
    let mut copy = ArrayVec::new();
    let _fits = copy.try_extend_from_slice(samples.as_slice()).is_ok();
    copy
}

fn answer_copy(alloc: Global, answer: &Answer) -> Result<Answer, OutOfMemory>
    ensures { IfOk result (λ a. a ≡ answer.now) }
{
    let order = order_copy(alloc, &answer.order)?;
    Ok(Answer {
        order,
        said: answer.said,
        samples: samples_copy(&answer.samples),
    })
}

fn answers_copy(alloc: Global, answers: &[Answer]) -> Result<Seq<Answer>, OutOfMemory>
    ensures { IfOk result (λ s. s ≡ answers.now) }
{
    let mut copies = Vec::new(alloc);
    for answer in answers {
        copies.push(answer_copy(alloc, answer)?)?;
    }
    Ok(Seq::from_vec(copies))
}

impl Cpu {
    /// An equal vCPU.
    pub fn copy(&self) -> Cpu
        ensures { result ≡ self.now }
    {
        Cpu {
            stage: self.stage.copy(),
            ctx: self.ctx,
            started: self.started,
            halted: self.halted,
            startup: self.startup,
            nmi: self.nmi,
            lapic: self.lapic.copy(),
        }
    }
}

fn cpus_copy(alloc: Global, cpus: &[Cpu]) -> Result<Seq<Cpu>, OutOfMemory>
    ensures { IfOk result (λ s. s ≡ cpus.now) }
{
    let mut copies = Vec::new(alloc);
    for cpu in cpus {
        copies.push(cpu.copy())?;
    }
    Ok(Seq::from_vec(copies))
}

impl Drive {
    /// An equal block device.
    pub fn copy(&self, alloc: Global) -> Result<Drive, OutOfMemory>
        ensures { IfOk result (λ d. d ≡ self.now) }
    {
        let queue = self.queue.copy(alloc)?;
        let bytes = self.bytes.copy(alloc)?;
        Ok(Drive {
            ro: self.ro,
            workers: self.workers,
            window: self.window.copy(),
            queue,
            bytes,
        })
    }
}

fn drives_copy(alloc: Global, drives: &[Drive]) -> Result<Seq<Drive>, OutOfMemory>
    ensures { IfOk result (λ s. s ≡ drives.now) }
{
    let mut copies = Vec::new(alloc);
    for drive in drives {
        copies.push(drive.copy(alloc)?)?;
    }
    Ok(Seq::from_vec(copies))
}

impl Machine {
    /// An equal machine. It has room for no more pages of memory.
    pub fn copy(&self, alloc: Global) -> Result<Machine, OutOfMemory>
        ensures { IfOk result (λ m. m.state ≡ self.now.state) }
    {
        let cpus = cpus_copy(alloc, self.cpus.as_slice())?;
        let ram = self.ram.copy(alloc)?;
        let drives = drives_copy(alloc, self.drives.as_slice())?;
        Ok(Machine {
            cpus,
            ram,
            ioapic: self.ioapic.copy(),
            uart: self.uart.copy(),
            drives,
            pause: self.pause,
            meet: self.meet.copy(),
            timers: self.timers.copy(),
        })
    }
}

impl DiskImage {
    /// An equal image.
    pub fn copy(&self, alloc: Global) -> Result<DiskImage, OutOfMemory>
        ensures { IfOk result (λ i. i ≡ self.now) }
    {
        let bytes = self.bytes.copy(alloc)?;
        let doubt = self.doubt.copy(alloc)?;
        Ok(DiskImage {
            bytes,
            doubt,
            holder: self.holder,
            finished: self.finished,
            cancelled: self.cancelled,
        })
    }
}

fn images_copy(alloc: Global, images: &[DiskImage]) -> Result<Seq<DiskImage>, OutOfMemory>
    ensures { IfOk result (λ s. s ≡ images.now) }
{
    let mut copies = Vec::new(alloc);
    for image in images {
        copies.push(image.copy(alloc)?)?;
    }
    Ok(Seq::from_vec(copies))
}

/// Equal bytes, with at least as much room.
fn input_copy(alloc: Global, input: &Vec<u8>) -> Result<Vec<u8>, OutOfMemory>
    ensures items { IfOk result (λ v. v.items ≡ input.now.items) }
    ensures len { IfOk result (λ v. vec_len v ≡ vec_len input.now) }
    ensures capacity { IfOk result (λ v. vec_capacity input.now ≤ vec_capacity v) }
{
    let mut copy = Vec::with_capacity(alloc, input.capacity())?;
    copy.extend_from_slice(input.as_slice())?;
    Ok(copy)
}

fn console_copy(alloc: Global, console: &[u8]) -> Result<Vec<u8>, OutOfMemory>
    ensures { IfOk result (λ v. v.items ≡ console.now) }
{
    Ok(Vec::from_slice(alloc, console)?)
}

/// What a run keeps, in equal copies.
fn kept_copy(alloc: Global, run: &RunState) -> Result<Kept, OutOfMemory>
    ensures { IfOk result (λ k. k ≡ record { seats = run.now.state.seats; images = run.now.state.images; versions = run.now.state.versions }) }
{
    let seats = run.seats.copy(alloc)?;
    let images = images_copy(alloc, run.images.as_slice())?;
    let versions = run.versions.copy(alloc)?;
    Ok(Kept {
        seats,
        images,
        versions,
    })
}

/// Equal orders and bytes, with at least as much room for input.
fn told_copy(
    alloc: Global,
    orders: &[Answer],
    input: &Vec<u8>,
    console: &[u8],
) -> Result<Told, OutOfMemory>
    ensures orders { IfOk result (λ t. t.orders ≡ orders.now) }
    ensures input { IfOk result (λ t. t.input.items ≡ input.now.items) }
    ensures len { IfOk result (λ t. vec_len t.input ≡ vec_len input.now) }
    ensures capacity { IfOk result (λ t. vec_capacity input.now ≤ vec_capacity t.input) }
    ensures console { IfOk result (λ t. t.console.items ≡ console.now) }
{
    let orders = answers_copy(alloc, orders)?;
    let input = input_copy(alloc, input)?;
    let console = console_copy(alloc, console)?;
    Ok(Told {
        orders,
        input,
        console,
    })
}

/// Equal copies of a run's machine and of what the run keeps.
fn held_copy(alloc: Global, run: &RunState) -> Result<Held, OutOfMemory>
    ensures machine { IfOk result (λ h. h.machine.state ≡ run.now.state.machine) }
    ensures kept { IfOk result (λ h. h.kept ≡ record { seats = run.now.state.seats; images = run.now.state.images; versions = run.now.state.versions }) }
{
    let machine = run.machine.copy(alloc)?;
    let kept = kept_copy(alloc, run)?;
    Ok(Held { machine, kept })
}

impl RunState {
    /// An equal run. It has room for no more console bytes or pages of memory.
    pub fn copy(&self, alloc: Global) -> Result<RunState, OutOfMemory>
        ensures { IfOk result (λ r. r.state ≡ self.now.state) }
    {
        let held = held_copy(alloc, self)?;
        let told = told_copy(
            alloc,
            self.orders.as_slice(),
            &self.input,
            self.console.as_slice(),
        )?;
        let Held { machine, kept } = held;
        let Kept {
            seats,
            images,
            versions,
        } = kept;
        let Told {
            orders,
            input,
            console,
        } = told;
        Ok(RunState {
            machine,
            seats,
            images,
            versions,
            executed: self.executed,
            seen: self.seen,
            limit: self.limit,
            entries: self.entries,
            orders,
            place: self.place,
            begun: self.begun,
            input,
            fed: self.fed,
            console,
            ended: self.ended,
            closed: self.closed,
        })
    }
}
