//! The first state of a run.
ghost use Rattle.std.specs.Prelude.{◌≡◌, ℕ, ◌≤◌, false, [], ◌++◌, map, length, replicate, None, IfOk};
ghost use Rattle.std.specs.List.{sum_by};
ghost use Rattle.std.specs.Vec.{vec_len, vec_capacity};
ghost use Rattle.vm_state.specs.Machine as machine;
ghost use Rattle.vm_state.specs.Requests.{capacity_of};
ghost use Rattle.vm_state.specs.Start as spec;
ghost use Rattle.vm_state.specs.State as state;
ghost use Rattle.vm_state.specs.View as view;

use crate::copying::order_copy;
use crate::cpu::{Cpu, Seat};
use crate::drive::Drive;
use crate::image::DiskImage;
use crate::kept::{Held, Kept, Told};
use crate::machine::Machine;
use crate::run_state::{Answer, RunState, Said};
use crate::start::{Origin, Start};
use crate::versions::Versions;
use arrayvec::ArrayVec;
use blk_queue::BlkQueue;
use std::alloc::Global;
use vm_ioapic::Ioapic;
use vm_lapic::Lapic;
use vm_law::{Bytes, Ctx, DiskPlan, FlatImage, Order, OutOfMemory, Plan, Seq};
use vm_meet::Meet;
use vm_stage::StageCell;
use vm_timer::Callouts;
use vm_uart::Uart;
use vm_vblk::Window;
use x86_fetch::CachedRam;

/// The bytes of a sector.
const SECTOR: usize = 512;

/// The bytes of a page of memory.
const PAGE: u64 = 4096;

/// The registers of a vCPU that is to run from `rip` on: RFLAGS holds its one fixed bit, and all else is 0.
///
/// Source: Intel SDM volume 1, section 3.4.3.
#[tactic(auto, unfolding(crate::specs::Machine::ctx_from))]
pub fn ctx_from(rip: u64) -> Ctx
    ensures { result ≡ machine.ctx_from rip }
{
    Ctx {
        regs: [0; 16],
        rip,
        rflags: 2,
        idt_base: 0,
        idt_limit: 0,
        shadow: false,
        nmi_block: false,
    }
}

#[tactic(auto, unfolding(crate::specs::Machine::unstarted_cpu))]
fn unstarted_cpu(cpu: u8) -> Cpu
    ensures { result ≡ machine.unstarted_cpu cpu }
{
    Cpu {
        stage: StageCell::idle(),
        ctx: ctx_from(0),
        started: false,
        halted: false,
        startup: None,
        nmi: false,
        lapic: Lapic::new(cpu),
    }
}

#[tactic(auto, unfolding(crate::specs::Machine::unstarted_cpu))]
fn first_cpu(entry: u64) -> Cpu
    ensures { result ≡ spec.first_cpu entry }
{
    Cpu {
        stage: StageCell::idle(),
        ctx: ctx_from(entry),
        started: true,
        halted: false,
        startup: None,
        nmi: false,
        lapic: Lapic::new(0),
    }
}

#[tactic(auto, using(crate::proofs::Lists::map_range_more))]
fn boot_cpus(alloc: Global, count: u8, entry: u64) -> Result<Seq<Cpu>, OutOfMemory>
    requires { 1 ≤ count }
    ensures { IfOk result (λ cpus. cpus ≡ spec.boot_cpus count entry) }
{
    let others = count - 1;
    let mut cpus = Vec::new(alloc);
    cpus.push(first_cpu(entry))?;
    for k in 0..others {
        cpus.push(unstarted_cpu(1 + k))?;
    }
    Ok(Seq::from_vec(cpus))
}

/// How many sectors a disk has.
fn sectors(bytes: &Seq<u8>) -> u64
    ensures { result ≡ capacity_of bytes.now }
{
    (bytes.len() / SECTOR) as u64
}

fn boot_drive(alloc: Global, plan: &DiskPlan, bytes: &Seq<u8>) -> Result<Drive, OutOfMemory>
    ensures { IfOk result (λ d. d ≡ spec.boot_drive plan.now bytes.now) }
{
    let queue = BlkQueue::new(alloc)?;
    let copy = bytes.copy(alloc)?;
    Ok(Drive {
        ro: plan.ro,
        workers: plan.workers,
        window: Window::new(sectors(bytes), plan.ro),
        queue,
        bytes: copy,
    })
}

#[tactic(auto, using(crate::proofs::Lists::map_range_more))]
fn boot_drives(
    alloc: Global,
    plans: &[DiskPlan],
    disks: &[Seq<u8>],
) -> Result<Seq<Drive>, OutOfMemory>
    requires { length disks.now ≡ length plans.now }
    ensures { IfOk result (λ s. s ≡ spec.boot_drives plans.now disks.now) }
{
    let mut drives = Vec::new(alloc);
    for d in 0..plans.len() {
        drives.push(boot_drive(alloc, &plans[d], &disks[d])?)?;
    }
    Ok(Seq::from_vec(drives))
}

/// A machine in which a flat image is loaded, and all else is at reset.
fn flat_machine(
    alloc: Global,
    plan: &Plan,
    disks: &Seq<Seq<u8>>,
    image: &FlatImage,
) -> Result<Machine, OutOfMemory>
    requires plan { spec.IsPlan plan.now }
    requires disks { length disks.now ≡ length plan.now.disks }
    requires image { spec.OriginFits plan.now disks.now (Origin.Flat image.now) }
    ensures { IfOk result (λ m. m.state ≡ spec.boot_machine plan.now disks.now (Origin.Flat image.now)) }
{
    let cpus = boot_cpus(alloc, plan.cpus, image.entry)?;
    let ram = CachedRam::new(alloc, plan.memory, image)?;
    let drives = boot_drives(alloc, plan.disks.as_slice(), disks.as_slice())?;
    Ok(Machine {
        cpus,
        ram,
        ioapic: Ioapic::new(),
        uart: Uart::new(),
        drives,
        pause: false,
        meet: Meet::none(),
        timers: Callouts::new(),
    })
}

fn boot_machine(alloc: Global, start: &Start) -> Result<Machine, OutOfMemory>
    requires { spec.IsSound start.now }
    ensures { IfOk result (λ m. m.state ≡ spec.boot_machine start.now.plan start.now.disks start.now.origin) }
{
    match &start.origin {
        Origin::Flat(image) => flat_machine(alloc, &start.plan, &start.disks, image),
        Origin::Saved(machine) => machine.copy(alloc),
    }
}

fn boot_seats(alloc: Global, count: usize) -> Result<Seq<Seat>, OutOfMemory>
    ensures { IfOk result (λ seats. seats ≡ replicate count state.empty_seat) }
{
    let mut seats = Vec::new(alloc);
    for _k in 0..count {
        seats.push(Seat {
            left: 0,
            stayed: false,
            ran: 0,
        })?;
    }
    Ok(Seq::from_vec(seats))
}

fn boot_image(alloc: Global, bytes: &Seq<u8>) -> Result<DiskImage, OutOfMemory>
    ensures { IfOk result (λ i. i ≡ spec.boot_image bytes.now) }
{
    let copy = bytes.copy(alloc)?;
    let mut doubt = Vec::new(alloc);
    doubt.resize(bytes.len() / SECTOR, false)?;
    Ok(DiskImage {
        bytes: copy,
        doubt: Seq::from_vec(doubt),
        holder: None,
        finished: 0,
        cancelled: 0,
    })
}

fn boot_images(alloc: Global, disks: &[Seq<u8>]) -> Result<Seq<DiskImage>, OutOfMemory>
    ensures { IfOk result (λ s. s ≡ map spec.boot_image disks.now) }
{
    let mut images = Vec::new(alloc);
    for disk in disks {
        images.push(boot_image(alloc, disk)?)?;
    }
    Ok(Seq::from_vec(images))
}

fn boot_versions(alloc: Global, code: u64) -> Result<Versions, OutOfMemory>
    requires { code ≤ 16777216 }
    ensures { IfOk result (λ versions. versions ≡ replicate (state.page_count code) 0) }
{
    let pages = (code + PAGE - 1) / PAGE;
    Versions::new(alloc, pages as usize)
}

/// An order that isn't done.
fn fresh(order: Order) -> Answer
    ensures { result ≡ view.fresh order }
{
    Answer {
        order,
        said: Said::Plain,
        samples: ArrayVec::new(),
    }
}

/// The orders of the script behind those that are there.
fn add_orders(
    alloc: Global,
    mut orders: Vec<Answer>,
    script: &[Order],
) -> Result<Vec<Answer>, OutOfMemory>
    ensures { IfOk result (λ v. v.items ≡ orders.items ++ map view.fresh script.now) }
{
    for order in script {
        orders.push(fresh(order_copy(alloc, order)?))?;
    }
    Ok(orders)
}

/// The orders before the script: a saved machine is let go on first.
fn first_orders(alloc: Global, origin: &Origin) -> Result<Vec<Answer>, OutOfMemory>
    ensures { IfOk result (λ v. v.items ≡ map view.fresh (spec.first_orders origin.now)) }
{
    let mut orders = Vec::new(alloc);
    match origin {
        Origin::Flat(_) => Ok(orders),
        Origin::Saved(_) => {
            orders.push(fresh(Order::Resume))?;
            Ok(orders)
        }
    }
}

/// The orders of the script, with those before it.
#[tactic(auto, using(crate::proofs::Booted::fresh_both))]
fn boot_orders(
    alloc: Global,
    origin: &Origin,
    script: &Seq<Order>,
) -> Result<Seq<Answer>, OutOfMemory>
    ensures { IfOk result (λ s. s ≡ map view.fresh (spec.boot_script origin.now script.now)) }
{
    let first = first_orders(alloc, origin)?;
    let orders = add_orders(alloc, first, script.as_slice())?;
    Ok(Seq::from_vec(orders))
}

/// The bytes that an order adds to the input.
fn input_length(order: &Order) -> usize
    ensures { result ≡ length (view.bytes_in order.now) }
{
    match order {
        Order::Input(bytes) => bytes.len(),
        _ => 0,
    }
}

/// The bytes that the orders add to the input.
fn input_total(orders: &[Answer]) -> Result<usize, OutOfMemory>
    ensures { IfOk result (λ n. n ≡ sum_by view.input_length orders.now) }
{
    let mut total: usize = 0;
    for answer in orders {
        let Some(sum) = total.checked_add(input_length(&answer.order)) else {
            return Err(OutOfMemory);
        };
        total = sum;
    }
    Ok(total)
}

/// Room for the bytes that the orders add to the input.
fn boot_input(alloc: Global, orders: &[Answer]) -> Result<Vec<u8>, OutOfMemory>
    ensures empty { IfOk result (λ v. vec_len v ≡ 0) }
    ensures room { IfOk result (λ v. sum_by view.input_length orders.now ≤ vec_capacity v) }
{
    let total = input_total(orders)?;
    Ok(Vec::with_capacity(alloc, total)?)
}

/// What a run on a machine keeps, as it begins.
fn boot_kept(alloc: Global, machine: &Machine, disks: &Seq<Seq<u8>>) -> Result<Kept, OutOfMemory>
    requires { machine.now.state.ram.code ≤ 16777216 }
    ensures { IfOk result (λ k. k ≡ record { seats = replicate (length machine.now.state.cpus) state.empty_seat; images = map spec.boot_image disks.now; versions = replicate (state.page_count machine.now.state.ram.code) 0 }) }
{
    let seats = boot_seats(alloc, machine.cpus.len())?;
    let images = boot_images(alloc, disks.as_slice())?;
    let versions = boot_versions(alloc, machine.ram.code())?;
    Ok(Kept {
        seats,
        images,
        versions,
    })
}

/// The machine of a run that begins, with what the run keeps of it.
#[tactic(auto, using(crate::proofs::Booted::boot_code))]
fn boot_held(alloc: Global, start: &Start) -> Result<Held, OutOfMemory>
    requires { spec.IsSound start.now }
    ensures machine { IfOk result (λ h. h.machine.state ≡ spec.boot_machine start.now.plan start.now.disks start.now.origin) }
    ensures kept { IfOk result (λ h. h.kept ≡ record { seats = replicate (length h.machine.state.cpus) state.empty_seat; images = map spec.boot_image start.now.disks; versions = replicate (state.page_count h.machine.state.ram.code) 0 }) }
{
    let machine = boot_machine(alloc, start)?;
    let kept = boot_kept(alloc, &machine, &start.disks)?;
    Ok(Held { machine, kept })
}

/// The orders of a run that begins, and room for what they add to its input.
fn boot_told(alloc: Global, start: &Start) -> Result<Told, OutOfMemory>
    ensures orders { IfOk result (λ t. t.orders ≡ map view.fresh (spec.boot_script start.now.origin start.now.script)) }
    ensures room { IfOk result (λ t. sum_by view.input_length t.orders ≤ vec_capacity t.input) }
    ensures input { IfOk result (λ t. vec_len t.input ≡ 0) }
    ensures console { IfOk result (λ t. t.console.items ≡ []) }
{
    let orders = boot_orders(alloc, &start.origin, &start.script)?;
    let input = boot_input(alloc, orders.as_slice())?;
    Ok(Told {
        orders,
        input,
        console: Vec::new(alloc),
    })
}

/// The run on a machine, of which nothing is done yet.
fn begun(held: Held, limit: u64, told: Told) -> RunState
    requires fresh { (k : ℕ) → view.samples_of told.orders k ≡ [] }
    requires room { sum_by view.input_length told.orders ≤ vec_capacity told.input }
    requires input { vec_len told.input ≡ 0 }
    requires console { told.console.items ≡ [] }
    ensures { result.state ≡ record { machine = held.machine.state; seats = held.kept.seats; images = held.kept.images; versions = held.kept.versions; executed = 0; seen = 0; limit = limit; entries = 0; script = view.script_of told.orders; place = 0; begun = false; input = []; answers = []; samples = []; console = []; ended = None; closed = false } }
{
    let Held { machine, kept } = held;
    let Kept {
        seats,
        images,
        versions,
    } = kept;
    let Told {
        orders,
        input,
        console,
    } = told;
    RunState {
        machine,
        seats,
        images,
        versions,
        executed: 0,
        seen: 0,
        limit,
        entries: 0,
        orders,
        place: 0,
        begun: false,
        input,
        fed: 0,
        console,
        ended: None,
        closed: false,
    }
}

/// The first state of a run from a sound start. It copies what it needs of the start.
#[tactic(auto, unfolding(crate::specs::Start::first_state), using(crate::proofs::Fresh::script_of_fresh, crate::proofs::Fresh::none_noted))]
pub fn boot(alloc: Global, start: &Start) -> Result<RunState, OutOfMemory>
    requires { spec.IsSound start.now }
    ensures state { IfOk result (λ r. r.state ≡ spec.boot start.now) }
{
    let held = boot_held(alloc, start)?;
    let told = boot_told(alloc, start)?;
    Ok(begun(held, start.limit, told))
}
