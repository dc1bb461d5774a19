//! What is looked up of a run.
ghost use Rattle.std.specs.Prelude.{◌<◌};

use crate::case::{CaseError, byte, cut, dword, numbers_of, word};
use crate::look_cpu::look_cpu;
use crate::look_disk::{look_disk, print_range};
use crate::print::{
    bit, order_name, print_bytes, print_count, print_entry, print_hex, print_meeting, print_said,
    print_samples, print_why,
};
use std::alloc::{AllocError, Global};
use vm_law::Bytes;
use vm_state::Answer;
use vm_table::Run;

/// The counts of a run.
fn look_count(run: &Run, name: &str, out: &mut String) -> Result<bool, AllocError> {
    let number = match name {
        "executed" => run.executed(),
        "limit" => run.limit(),
        "entries" => run.entries(),
        "room" => run.room(),
        "grant" => u64::from(run.grant()),
        "place" => u64::from(run.place()),
        "passes" => u64::from(run.pass_count()),
        "cpus" => u64::from(run.cpu_count()),
        "disks" => u64::from(run.drive_count()),
        "ticks" => run.tick_of(),
        "answers" => run.answers().len() as u64,
        _ => return Ok(false),
    };
    print_count(number, out)?;
    Ok(true)
}

/// What is so or isn't.
fn look_bit(run: &Run, name: &str, out: &mut String) -> Result<bool, AllocError> {
    let set = match name {
        "begun" => run.begun(),
        "cut" => run.is_cut(),
        "quiet" => run.quiet(),
        "usedup" => run.used_up(),
        "closed" => run.closed(),
        "paused" => run.paused(),
        _ => return Ok(false),
    };
    out.push_str(bit(set))?;
    Ok(true)
}

/// What a run has under a name alone.
fn look_run(run: &Run, name: &str, out: &mut String) -> Result<bool, AllocError> {
    Ok(look_count(run, name, out)? || look_bit(run, name, out)? || look_whole(run, name, out)?)
}

/// What a run as a whole has.
fn look_whole(run: &Run, name: &str, out: &mut String) -> Result<bool, AllocError> {
    let printed = match name {
        "console" => print_bytes(run.console(), out),
        "samples" => print_samples(run.samples(), out),
        "ended" => print_why(run.ended(), out),
        "meet" => print_meeting(run.machine().meet.current(), out),
        "order" => out.push_str(order_name(run.next_order())),
        "waiting" => print_bytes(run.machine().uart.saved().received.as_slice(), out),
        _ => return Ok(false),
    };
    printed?;
    Ok(true)
}

/// An order that is done.
fn look_answer(answer: &Answer, name: &str, out: &mut String) -> Result<bool, AllocError> {
    let printed = match name {
        "answer" => print_said(answer.said, out),
        "noted" => print_samples(answer.samples.as_slice(), out),
        "done" => out.push_str(order_name(Some(&answer.order))),
        _ => return Ok(false),
    };
    printed?;
    Ok(true)
}

fn look_order(run: &Run, name: &str, k: u64, out: &mut String) -> Result<bool, CaseError> {
    let k = usize::try_from(k).map_err(|_| CaseError::Form)?;
    match run.answers().get(k) {
        None => Ok(false),
        Some(answer) => Ok(look_answer(answer, name, out)?),
    }
}

/// What an order that is done, a vCPU or a disk has.
fn look_at(run: &Run, name: &str, numbers: &[u64; 3], out: &mut String) -> Result<bool, CaseError> {
    Ok(
        look_order(run, name, numbers[0], out)?
            || look_cpu(run, name, numbers, out)?
            || look_disk(run, name, numbers, out)?,
    )
}

/// Bytes of memory, at most 512 of them.
fn print_memory(
    alloc: Global,
    run: &Run,
    at: u64,
    len: u64,
    out: &mut String,
) -> Result<(), CaseError> {
    let ram = &run.machine().ram;
    if len > 512 || len > ram.size() || at > ram.size() - len {
        return Err(CaseError::Form);
    }
    let mut bytes = vec![in alloc; 0; len as usize]?;
    ram.read(at, bytes.as_mut_slice());
    print_range(bytes.as_slice(), 0, len, out)
}

/// How often a page of the code was stored into.
fn print_version(run: &Run, page: u64, out: &mut String) -> Result<(), CaseError> {
    let page = dword(page)?;
    run.is_sound();
    let code = run.machine().ram.code();
    if u64::from(page) >= (code + 4095) / 4096 {
        return Err(CaseError::Form);
    }
    Ok(print_count(u64::from(run.version(page)), out)?)
}

/// The first entry that is lawful for a pass.
fn print_first(run: &Run, by: u64, out: &mut String) -> Result<(), CaseError> {
    Ok(print_entry(run.first_lawful(word(by)?), out)?)
}

/// Whether a pass is that of a disk's worker.
fn print_worker(run: &Run, numbers: &[u64; 3], out: &mut String) -> Result<(), CaseError> {
    let set = run.is_worker(word(numbers[0])?, byte(numbers[1])?);
    Ok(out.push_str(bit(set))?)
}

/// How often a pin is asserted.
fn print_pin(run: &Run, pin: u64, out: &mut String) -> Result<(), CaseError> {
    let pin = byte(pin)?;
    if pin >= 32 {
        return Err(CaseError::Form);
    }
    Ok(print_count(u64::from(run.machine().ioapic.count(pin)), out)?)
}

/// The entry of a pin.
fn print_route(run: &Run, numbers: &[u64; 3], out: &mut String) -> Result<(), CaseError> {
    let entries = run.machine().ioapic.saved().entries;
    Ok(print_hex(entries[entry_at(numbers)], out)?)
}

/// What a run has under a name and a number.
fn look_numbered(
    alloc: Global,
    run: &Run,
    name: &str,
    numbers: &[u64; 3],
    out: &mut String,
) -> Result<bool, CaseError> {
    let printed = match name {
        "ram" => print_memory(alloc, run, numbers[0], numbers[1], out),
        "version" => print_version(run, numbers[0], out),
        "first" => print_first(run, numbers[0], out),
        "worker" => print_worker(run, numbers, out),
        "pin" => print_pin(run, numbers[0], out),
        "table" => print_route(run, numbers, out),
        _ => return Ok(false),
    };
    printed?;
    Ok(true)
}

/// The pin that a number names.
fn entry_at(numbers: &[u64; 3]) -> usize
    ensures { result < 32 }
{
    (numbers[0] % 32) as usize
}

/// Prints what a run has under a name, with its numbers.
pub fn look(alloc: Global, run: &Run, what: &str, out: &mut String) -> Result<(), CaseError> {
    let (name, words) = cut(what);
    let numbers = numbers_of(words)?;
    let known = look_run(run, name, out)?
        || look_at(run, name, &numbers, out)?
        || look_numbered(alloc, run, name, &numbers, out)?;
    if known { Ok(()) } else { Err(CaseError::Form) }
}
