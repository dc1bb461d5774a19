//! Reads the starts of command lines over files in memory, and prints what came of each.
//!
//! A line of stdin is a case: parts with a `|` between them. The first part is a command line without the program's name, its
//! words with a space between them: `solo`, `run`, `replay` or `show`. Each other part is one of these:
//!
//! - `NAME=TEXT`: a file of that name. In a text `\n`, `\r`, `\t` and `\\` are LF, CR, TAB and a backslash, `\xHH` is a byte,
//!   and `\*N{TEXT}` is TEXT N times, in which no `}` stands. `\p` is what the file of an image begins with, its magic.
//! - `!N`: the call of this number of the host, from 0, is to fail.
//! - `?`: once the start stands its images are opened, sector 0 of each is written with bytes FF, and they are closed.
//!
//! A refusal is printed as its line; of a start its vCPUs, memory, name, image, disks and script are printed, and after `?` the
//! first byte and the length of each disk's file. A line that begins with `#` is printed as it is.
//!
//! The file `stdout` was worked out from the formats' descriptions. This program promises no more than that it is safe and
//! ends.
#![tactic(auto)]

mod case;
mod command;
mod images;
mod shown;

use crate::command::outcome;
use std::io;
use std::io::{BufRead, BufReader, BufWriter, Write};

/// Prints a line for each line of input.
fn print_all(rt: &HostRuntime) -> io::Result<()> {
    let alloc = rt.alloc();
    let mut out = BufWriter::new(alloc, io::writer(rt))?;
    for line in BufReader::new(alloc, rt.reader())?.lines(alloc) {
        let line = line?;
        if line.starts_with('#') {
            writeln!(out, "{line}")?;
            continue;
        }
        match outcome(alloc, line.as_str()) {
            Ok(text) => writeln!(out, "{text}")?,
            Err(error) => writeln!(out, "{error}")?,
        }
    }
    out.flush()
}

fn main(rt: HostRuntime) -> io::Result<()> {
    print_all(&rt)
}
