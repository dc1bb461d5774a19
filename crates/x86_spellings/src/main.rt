//! Tries the decoder and the encoder on spellings of instructions.
//!
//! A line of stdin says what bytes, in hexadecimal digits, are, and for an instruction its text. Its first word is one of
//! these:
//!
//! - `spelling`: the bytes spell the instruction. Each proper front of them is too short, more bytes behind them change
//!   nothing, and the instruction's canonical spelling is no longer and spells it too.
//! - `canonical`: and they are its canonical spelling.
//! - `displacement`, `immediate`, `both`: they are the canonical spelling of the instruction with a label in its
//!   displacement, its immediate or both.
//! - `unknown`: they are no instruction, and no beginning of one, where they without their last byte are too short.
//!
//! The text is that of GNU objdump in Intel's syntax, but that a jump says how far it goes from the next instruction on, a
//! displacement of 0 is left out, and a place without base and index stands in brackets. The line of stdout in the same
//! place is `ok`, or says what came instead. A line that begins with `#` is printed as it is.
//!
//! The texts are objdump's, and the canonical spellings those of GNU as, where it has the shortest. This program promises
//! no more than that it is safe and ends.
#![tactic(auto)]

mod case;
mod text;
mod trial;

use crate::case::{Case, CaseError};
use crate::trial::try_case;
use std::alloc::Global;
use std::io;
use std::io::{BufRead, BufReader, BufWriter, Write};

/// What comes of a line.
fn outcome(alloc: Global, line: &str) -> Result<String, CaseError> {
    let case = Case::parse(alloc, line)?;
    let mut out = String::new(alloc);
    try_case(alloc, &case, &mut out)?;
    Ok(out)
}

fn main(rt: HostRuntime) -> io::Result<()> {
    let alloc = rt.alloc();
    let mut out = BufWriter::new(alloc, io::writer(&rt))?;
    for line in BufReader::new(alloc, rt.reader())?.lines(alloc) {
        let line = line?;
        if line.starts_with('#') {
            writeln!(out, "{line}")?;
            continue;
        }
        match outcome(alloc, line.as_str()) {
            Ok(text) => writeln!(out, "{text}")?,
            Err(error) => writeln!(out, "{error}")?,
        }
    }
    out.flush()
}
