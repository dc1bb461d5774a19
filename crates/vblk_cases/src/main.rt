//! Drives the window of a block device, and the queue in its memory, as a guest would, and compares what comes of it.
//!
//! A line of stdin is a case, which begins with memory of 128 KiB that is all 0, of which the first 4 KiB are code, and with
//! the window of a disk of 8 sectors. It has words with one space between them, each a command, and after a `>` what it must
//! give. A command has a name and numbers, in hexadecimal, with a colon before each:
//!
//! - `disk:SECTORS`, `readonly:SECTORS`: the window at reset of another disk. It gives `-`.
//! - `put:AT:BYTES`: the guest writes bytes, in hexadecimal, into memory. It gives `-`.
//! - `get:AT:COUNT`: gives bytes of memory, at most 256 of them.
//! - `w:OFFSET:VALUE`: a write to a register of the window. It gives `-`, or `reset` where it resets the device.
//! - `r:OFFSET`: a read of a register of the window. It gives its value.
//! - `pull`: takes the chain that stands next. It gives `none` where none waits, `answered`, `broken`, or a request.
//! - `finish:HEAD:AT:STATUS:LEN`: completes the chain of a request. It gives `-`, or `cannot` where the queue isn't ready
//!   or the status byte isn't in RAM above the code.
//! - `line`, `waits`, `notified`: give 0 or 1; `last`, `used`: the indexes of the chains taken and used.
//! - `ring:SIZE:DESC:AVAIL:USED`: gives `fits` or `unfit`: whether these tables of a queue lie well.
//! - `chain:SIZE:DESC:AVAIL:USED:LAST`: the chain that stands next in such a queue: `unfit`, `none`, `bad` or
//!   `good:HEAD:DESCRIPTORS`, each `ADDR+LEN+FLAGS`, with commas between them.
//!
//! A request is `read`, `write` or `flush`, and then `:HEAD:STATUS_AT:START:COUNT:SEGMENTS`, each `ADDR+LEN`.
//!
//! The line of stdout in the same place is `ok` and how many words were compared, in decimal, or names the first word that
//! gave something else. A line that begins with `#` is printed as it is. What must come was worked out from OASIS virtio 1.2
//! by another program, in another language, and not by this one. This program promises no more than that it is safe and
//! ends.
#![tactic(auto)]

mod bench;
mod case;
mod print;
mod ram;

use crate::bench::Bench;
use crate::case::{CaseError, check};
use std::alloc::Global;
use std::io;
use std::io::{BufRead, BufReader, BufWriter, Write};

/// What becomes of a case, as a line.
fn outcome(alloc: Global, line: &str) -> Result<String, CaseError> {
    let mut bench = Bench::new(alloc)?;
    check(alloc, &mut bench, line)
}

fn main(rt: HostRuntime) -> io::Result<()> {
    let alloc = rt.alloc();
    let mut out = BufWriter::new(alloc, io::writer(&rt))?;
    for line in BufReader::new(alloc, rt.reader())?.lines(alloc) {
        let line = line?;
        if line.starts_with('#') {
            writeln!(out, "{line}")?;
            continue;
        }
        match outcome(alloc, line.as_str()) {
            Ok(text) => writeln!(out, "{text}")?,
            Err(error) => writeln!(out, "{error}")?,
        }
    }
    out.flush()
}
