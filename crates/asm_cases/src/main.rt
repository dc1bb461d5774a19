//! Tries the assembler, line by line.
//!
//! A line of stdin is a case: a word, a space and the rest.
//!
//! - `image TEXT`: the image of the text: its entry, the length of its code part and its payload, or the first fault.
//! - `code TEXT`: the payload alone.
//! - `same TEXT`: the text whose every line is one statement that `disassemble` gives back; what came instead.
//! - `text HEX`: what `disassemble` makes of the bytes. Where assembling it again gives other bytes, ` differs` and those
//!   follow.
//! - `workload N,N,..`: the image of the workload with these counts.
//!
//! In a text `\n`, `\r`, `\t` and `\\` are LF, CR, TAB and a backslash, `\xHH` is a byte, and `\*N{TEXT}` is TEXT N times,
//! in which no `}` stands. A payload of more than 2,000 bytes is printed as its length. A line that begins with `#` is
//! printed as it is.
//!
//! The file `stdout` was made by GNU as, or worked out by hand. This program promises no more than that it is safe and ends.
#![tactic(auto)]

mod case;
mod trial;

use crate::case::CaseError;
use crate::trial::{code_outcome, image_outcome, same_outcome, text_outcome, workload_outcome};
use std::alloc::Global;
use std::io;
use std::io::{BufRead, BufReader, BufWriter, Write};

/// What becomes of a case, as a line.
fn outcome(alloc: Global, line: &str) -> Result<String, CaseError> {
    let Some((kind, rest)) = line.split_once(' ') else {
        return Err(CaseError::Form);
    };
    match kind {
        "image" => image_outcome(alloc, rest),
        "code" => code_outcome(alloc, rest),
        "same" => same_outcome(alloc, rest),
        "text" => text_outcome(alloc, rest),
        "workload" => workload_outcome(alloc, rest),
        _ => Err(CaseError::Form),
    }
}

fn main(rt: HostRuntime) -> io::Result<()> {
    let alloc = rt.alloc();
    let mut out = BufWriter::new(alloc, io::writer(&rt))?;
    for line in BufReader::new(alloc, rt.reader())?.lines(alloc) {
        let line = line?;
        if line.starts_with('#') {
            writeln!(out, "{line}")?;
            continue;
        }
        match outcome(alloc, line.as_str()) {
            Ok(text) => writeln!(out, "{text}")?,
            Err(error) => writeln!(out, "{error}")?,
        }
    }
    out.flush()
}
