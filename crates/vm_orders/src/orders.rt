//! What an order does, and what is said to it: the effect of Done.
ghost use Rattle.std.specs.Prelude.{◌≡◌, ◌+◌, ◌<◌, ◌≤◌, ◌++◌, length, Some, IsTrue, if◌then◌else◌};
ghost use Rattle.std.specs.Vec.{vec_len, vec_capacity};
ghost use Rattle.vm_state.specs.Machine.{cpu_count, drive_at};
ghost use Rattle.vm_state.specs.Sound.{IsSoundState};
ghost use Rattle.vm_state.specs.State.{next_order};
ghost use Rattle.vm_state.specs.View.{bytes_in};
ghost use Rattle.vm_orders.specs.Done as spec;

use crate::conditions::{has_console, has_executed};
use crate::registers::{register_of, set_register};
use blk_queue::{BlkQueue, Cancelled, Progress};
use vm_disks::progress_of;
use vm_law::Order;
use vm_state::{DiskImage, Machine, RunState, Said, Why};

// ---- what is said

/// What is said to a wait.
fn met_or_quiet(came: bool) -> Said
    ensures { result ≡ (if came then Said.Met else Said.Quiet) }
{
    if came { Said::Met } else { Said::Quiet }
}

/// What is said to a cancel, by how far the request is.
fn said_by(progress: Option<Progress>) -> Said
    ensures { result ≡ spec.said_by progress }
{
    match progress {
        None => Said::Unknown,
        Some(Progress::Busy { .. }) => Said::Busy,
        Some(_) => Said::Done,
    }
}

/// What is said to a cancel.
fn said_of(queue: &BlkQueue, id: u32) -> Said
    ensures { result ≡ spec.cancel_said queue.now id }
{
    queue.is_sound();
    said_by(progress_of(queue, id))
}

/// What is said to a cancel of a request of this disk.
fn said_to_cancel(machine: &Machine, disk: u8, id: u32) -> Said
    ensures { result ≡ spec.cancel_said (drive_at machine.now.state disk).queue id }
{
    if machine.is_drive(disk) {
        said_of(&machine.drive(disk).queue, id)
    } else {
        Said::Unknown
    }
}

/// What is said to an order.
#[tactic(auto, unfolding(crate::specs::Done::said_to))]
fn said_to(run: &RunState, order: &Order) -> Said
    requires { spec.Names (cpu_count run.now.state.machine) order.now }
    ensures { result ≡ spec.said_to run.now.state order.now }
{
    match order {
        Order::WaitQuiet => Said::Met,
        Order::WaitConsole(count) => met_or_quiet(has_console(run, *count)),
        Order::WaitExecuted(count) => met_or_quiet(has_executed(run, *count)),
        Order::Get { cpu, reg } => Said::Value(register_of(&run.machine.cpu(*cpu).ctx, *reg)),
        Order::Cancel { disk, id } => said_to_cancel(&run.machine, *disk, *id),
        _ => Said::Plain,
    }
}

// ---- what is done

/// Counts a request that was cancelled.
fn count_cancel(image: &mut DiskImage, cancelled: Cancelled)
    requires { image.old.cancelled < u64.MAX }
    ensures { image.new ≡ (if spec.is_off cancelled then record image.old { cancelled = image.old.cancelled + 1 } else image.old) }
{
    match cancelled {
        Cancelled::Done => image.cancelled += 1,
        Cancelled::Unknown | Cancelled::Busy => {}
    }
}

/// A request that no worker has leaves the queue, and is counted.
#[tactic(auto, unfolding(crate::specs::Done::request_cancelled))]
fn cancel(run: &mut RunState, disk: u8, id: u32)
    requires { IsSoundState run.old.state }
    ensures { run.new ≡ record run.old { state = spec.request_cancelled run.old.state disk id } }
{
    if !run.machine.is_drive(disk) {
        return;
    }
    let cancelled = run.machine.drive_mut(disk).queue.cancel(id);
    count_cancel(run.image_mut(disk), cancelled);
}

/// What an order does to the machine.
#[tactic(auto, unfolding(crate::specs::Done::ordered))]
fn carry_out(run: &mut RunState)
    requires sound { IsSoundState run.old.state }
    requires names { spec.NamesNext (cpu_count run.old.state.machine) (next_order run.old.state) }
    ensures { run.new ≡ record run.old { state = spec.ordered_as run.old.state (next_order run.old.state) } }
{
    match run.next_order() {
        Some(Order::Nmi(cpu)) => {
            let cpu = *cpu;
            run.machine.cpu_mut(cpu).nmi = true;
        }
        Some(Order::Cancel { disk, id }) => {
            let (disk, id) = (*disk, *id);
            cancel(run, disk, id);
        }
        Some(Order::Set { cpu, reg, value }) => {
            let (cpu, reg, value) = (*cpu, *reg, *value);
            set_register(&mut run.machine.cpu_mut(cpu).ctx, reg, value);
        }
        Some(Order::Resume) => run.machine.pause = false,
        _ => {}
    }
}

// ---- what is kept of it

/// These bytes join the input, which has room for them.
fn take_in(input: &mut Vec<u8>, bytes: &[u8])
    requires { vec_len input.old + length bytes.now ≤ vec_capacity input.old }
    ensures items { input.new.items ≡ input.old.items ++ bytes.now }
    ensures capacity { vec_capacity input.new ≡ vec_capacity input.old }
{
    for byte in bytes {
        input.push_reserved(*byte);
    }
}

/// The bytes that an order adds to the input.
fn bytes_of(order: &Order) -> &[u8]
    ensures { result.now ≡ bytes_in order.now }
{
    match order {
        Order::Input(bytes) => bytes.as_slice(),
        _ => &[],
    }
}

/// Why a run ended, once an order is done.
fn why_after(ended: Option<Why>, last: bool) -> Option<Why>
    ensures { result ≡ (if last then Some Why.Finished else ended) }
{
    if last { Some(Why::Finished) } else { ended }
}

/// The order that comes next is done, and this was said to it. The bytes of an input join the input.
#[tactic(auto, unfolding(crate::specs::Done::noted, vm_state::specs::State::next_order))]
fn note(run: &mut RunState, said: Said)
    requires within { run.old.state.place < length run.old.state.script }
    requires few { length run.old.state.script ≤ 10001 }
    ensures { run.new ≡ record run.old { state = spec.noted_as run.old.state (next_order run.old.state) said } }
{
    let place = run.place as usize;
    let last = place + 1 == run.orders.len();
    let answer = run.orders.at_mut(place);
    answer.said = said;
    take_in(&mut run.input, bytes_of(&answer.order));
    run.place += 1;
    run.begun = false;
    run.ended = why_after(run.ended, last);
}

/// What is said to the order that comes next.
fn said_next(run: &RunState) -> Said
    requires { spec.NamesNext (cpu_count run.now.state.machine) (next_order run.now.state) }
    ensures { result ≡ spec.said_as run.now.state (next_order run.now.state) }
{
    match run.next_order() {
        None => Said::Plain,
        Some(order) => said_to(run, order),
    }
}

/// The order that comes next is done. After the last one the run has ended.
#[tactic(auto, unfolding(crate::specs::Done::after_done))]
pub fn done(run: &mut RunState, by: u16, k: u16)
    requires sound { IsSoundState run.old.state }
    requires may { IsTrue (spec.may_done run.old.state by k) }
    ensures { run.new ≡ record run.old { state = spec.after_done run.old.state } }
{
    let said = said_next(run);
    carry_out(run);
    note(run, said);
}
