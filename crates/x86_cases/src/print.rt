use crate::case::{Case, NAMES, Piece, parts};
use crate::ram::Ram;
use std::alloc::{AllocError, Global};
use std::fmt::Write;
use vm_bus::Area;
use vm_law::{Bytes, Ctx, Stop, Width};
use x86_exec::{Effect, Stored};

/// A width in bits.
fn bits_of(width: Width) -> u8 {
    match width {
        Width::B => 8,
        Width::W => 16,
        Width::D => 32,
        Width::Q => 64,
    }
}

/// A Stop, with its vector where it has one.
pub fn print_stop(stop: Stop, out: &mut String) -> Result<(), AllocError> {
    match stop {
        Stop::Fetch => out.push_str("stop fetch"),
        Stop::Memory => out.push_str("stop memory"),
        Stop::Device => out.push_str("stop device"),
        Stop::Gate(vector) => write!(out, "stop gate {vector}"),
        Stop::Frame(vector) => write!(out, "stop frame {vector}"),
    }
}

/// A device's window and the offset in it.
fn print_area(area: Area, out: &mut String) -> Result<(), AllocError> {
    match area {
        Area::Lapic(offset) => write!(out, " lapic {offset:x}"),
        Area::Ioapic(offset) => write!(out, " ioapic {offset:x}"),
        Area::Disk(disk, offset) => write!(out, " disk {disk} {offset:x}"),
        Area::Ram | Area::Code | Area::Noncanonical | Area::Split | Area::Nothing => out.push_str(
            " no window",
        ),
    }
}

/// What an instruction asks of the machine.
pub fn print_effect(effect: &Effect, out: &mut String) -> Result<(), AllocError> {
    match effect {
        Effect::Done => out.push_str("done"),
        Effect::Halt => out.push_str("halt"),
        Effect::Trap {
            vector,
            error: None,
        } => write!(out, "trap {vector}"),
        Effect::Trap {
            vector,
            error: Some(error),
        } => write!(out, "trap {vector} {error:x}"),
        Effect::Stop(stop) => print_stop(*stop, out),
        Effect::PortIn { port, width } => write!(out, "in {port:x} {}", bits_of(*width)),
        Effect::PortOut { port, width, value } => write!(
            out,
            "out {port:x} {} {value:x}",
            bits_of(*width)
        ),
        Effect::Load { area } => {
            out.push_str("load")?;
            print_area(*area, out)
        }
        Effect::Store { area, value } => {
            write!(out, "store {value:x}")?;
            print_area(*area, out)
        }
    }
}

/// The parts of the context that hold another value than before.
pub fn print_changes(before: &Ctx, after: &Ctx, out: &mut String) -> Result<(), AllocError> {
    let before = parts(before);
    let after = parts(after);
    for (place, name) in NAMES.iter().enumerate() {
        if before[place] != after[place] {
            write!(out, " {name}={:x}", after[place])?;
        }
    }
    Ok(())
}

/// Which bytes were stored.
pub fn print_stored(stored: Option<Stored>, out: &mut String) -> Result<(), AllocError> {
    match stored {
        None => out.push_str(" stored nothing"),
        Some(stored) => write!(out, " stored {:x} {}", stored.at, stored.len),
    }
}

/// A piece of memory, as it is now.
fn print_piece(
    alloc: Global,
    piece: &Piece,
    ram: &Ram,
    out: &mut String,
) -> Result<(), AllocError> {
    let len = piece.bytes.len();
    if len == 0 || ram.size() < piece.at || ram.size() - piece.at < len as u64 {
        return Ok(());
    }
    let mut bytes = vec![in alloc; 0; len]?;
    ram.read(piece.at, bytes.as_mut_slice());
    let digits = hex::encode(alloc, bytes.as_slice())?;
    write!(out, " {:x}:{digits}", piece.at)
}

/// The memory that the case names.
pub fn print_memory(
    alloc: Global,
    case: &Case,
    ram: &Ram,
    out: &mut String,
) -> Result<(), AllocError> {
    for piece in &case.memory {
        print_piece(alloc, piece, ram, out)?;
    }
    Ok(())
}
