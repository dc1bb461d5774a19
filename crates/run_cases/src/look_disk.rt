//! What is looked up of a disk.

use crate::case::{CaseError, byte, dword};
use crate::print::{bit, close, part, print_bytes, print_count, print_hex, print_marks};
use blk_queue::{BlkQueue, Progress};
use std::alloc::AllocError;
use std::fmt::Write;
use vm_state::{DiskImage, Drive, Holder};
use vm_table::{Run, Tally};

fn print_holder(holder: Option<Holder>, out: &mut String) -> Result<(), AllocError> {
    match holder {
        None => out.push('-'),
        Some(holder) => write!(out, "{} for {}", holder.by, holder.id),
    }
}

/// How far a request is.
fn print_progress(progress: Progress, out: &mut String) -> Result<(), AllocError> {
    match progress {
        Progress::Pending => out.push_str("pending"),
        Progress::Blocked => out.push_str("blocked"),
        Progress::Busy {
            worker,
            moved,
            failed,
            dropped,
        } => {
            let failed = if failed { ":failed" } else { "" };
            let dropped = if dropped { ":dropped" } else { "" };
            write!(out, "busy:{worker}:{moved}{failed}{dropped}")
        }
    }
}

/// The unfinished requests: each its id and how far it is.
fn print_requests(queue: &BlkQueue, out: &mut String) -> Result<(), AllocError> {
    for k in 0..queue.count() {
        let (id, progress, _) = queue.nth(k);
        part(out)?;
        write!(out, "{id}:")?;
        print_progress(progress, out)?;
    }
    close(out)
}

fn print_tally(tally: Tally, out: &mut String) -> Result<(), AllocError> {
    write!(
        out,
        "finished {} cancelled {} queued {} doubt {}",
        tally.finished, tally.cancelled, tally.queued, tally.doubt
    )
}

/// Bytes of a list, where it has them.
pub fn print_range(bytes: &[u8], at: u64, len: u64, out: &mut String) -> Result<(), CaseError> {
    let end = at.checked_add(len).ok_or(CaseError::Form)?;
    let from = usize::try_from(at).map_err(|_| CaseError::Form)?;
    let to = usize::try_from(end).map_err(|_| CaseError::Form)?;
    let piece = bytes.get(from..to).ok_or(CaseError::Form)?;
    Ok(print_bytes(piece, out)?)
}

/// A part of a drive.
fn look_drive(
    drive: &Drive,
    name: &str,
    numbers: &[u64; 3],
    out: &mut String,
) -> Result<bool, CaseError> {
    match name {
        "guest" => print_range(drive.bytes.as_slice(), numbers[1], numbers[2], out)?,
        "window" => print_register(drive, numbers[1], out)?,
        _ => return Ok(look_queue(drive, name, out)?),
    }
    Ok(true)
}

/// What a drive has to do.
fn look_queue(drive: &Drive, name: &str, out: &mut String) -> Result<bool, AllocError> {
    let printed = match name {
        "requests" => print_requests(&drive.queue, out),
        "next" => print_count(u64::from(drive.queue.next()), out),
        "notified" => out.push_str(bit(drive.window.is_notified())),
        _ => return Ok(false),
    };
    printed?;
    Ok(true)
}

/// A register of a drive's window.
fn print_register(drive: &Drive, offset: u64, out: &mut String) -> Result<(), CaseError> {
    let value = drive.window.read(dword(offset)?);
    Ok(print_hex(u64::from(value), out)?)
}

/// A part of a disk's image.
fn look_image(
    image: &DiskImage,
    name: &str,
    numbers: &[u64; 3],
    out: &mut String,
) -> Result<bool, CaseError> {
    if name == "image" {
        print_range(image.bytes.as_slice(), numbers[1], numbers[2], out)?;
        return Ok(true);
    }
    Ok(look_marks(image, name, out)?)
}

/// What is known of a disk's image.
fn look_marks(image: &DiskImage, name: &str, out: &mut String) -> Result<bool, AllocError> {
    let printed = match name {
        "doubt" => print_marks(image.doubt.as_slice(), out),
        "holder" => print_holder(image.holder, out),
        _ => return Ok(false),
    };
    printed?;
    Ok(true)
}

/// Prints what a disk has under a name, where there is such a thing.
pub fn look_disk(
    run: &Run,
    name: &str,
    numbers: &[u64; 3],
    out: &mut String,
) -> Result<bool, CaseError> {
    let Ok(disk) = byte(numbers[0]) else {
        return Ok(false);
    };
    if disk >= run.drive_count() {
        return Ok(false);
    }
    if name == "tally" {
        print_tally(run.tally(disk), out)?;
        return Ok(true);
    }
    Ok(
        look_drive(run.drive(disk), name, numbers, out)?
            || look_image(run.image(disk), name, numbers, out)?,
    )
}
