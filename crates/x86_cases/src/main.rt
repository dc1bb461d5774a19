//! Runs single instructions and deliveries, each in a context and memory of its own, and prints what came of it.
//!
//! A line of stdin is a case: words with one space between them. The first has the instruction's bytes in hexadecimal
//! digits, or is `deliver=VECTOR`. Each of the others is one of these, with numbers in hexadecimal:
//!
//! - `NAME=VALUE`: what a part of the context holds before: `rax` to `r15`, `rip`, `rflags`, `idtbase`, `idtlimit`,
//!   `shadow`, `nmiblock`. Where none is said, RAX holds the byte A0 eight times, RCX A1, and so on by the registers'
//!   numbers to R15, AF; RIP is 2000, RFLAGS 202 (IF, and bit 1, which is always 1), and the others are 0.
//! - `AT:BYTES`: what memory holds from an address on.
//! - `answer=VALUE`: what a port or a device's window answers.
//! - `error=VALUE`, `nmi=1`: the error code of a delivery, and that it is an NMI.
//! - `stored`: that the line of stdout says which bytes are stored.
//!
//! Memory has 1 MiB. The bytes below 3000 are code, each the low byte of its address, and all others are 0. The
//! instruction itself stands in the case alone.
//!
//! The line of stdout in the same place says what became of the case, and then, in the same form, each part of the
//! context that holds another value than before, and what the case's memory holds. What became of it is `local` where
//! the instruction is local, and one of these, in which widths, vectors and the numbers of disks are decimal: `done`,
//! `halt`, `trap VECTOR` with the error code where there is one, `stop CAUSE`, `in PORT WIDTH`, `out PORT WIDTH VALUE`,
//! `load WINDOW OFFSET`, `store VALUE WINDOW OFFSET`, `undefined` where the bytes are no instruction, `short` where they
//! end in the middle of one, `delivered`. Where the case asks for it, `stored AT LEN` or `stored nothing` follows. After
//! `in` and `load` the rest is what it is once the answer has come. A line that begins with `#` is printed as it is.
//!
//! The file `stdout` has what a processor did, and what the Intel SDM says where a processor can't be asked, as the
//! README says. This program promises no more than that it is safe and ends.
#![tactic(auto)]

mod case;
mod print;
mod ram;
mod run;

use crate::case::{Case, CaseError};
use crate::print::{print_changes, print_memory};
use crate::ram::Ram;
use crate::run::{load, run};
use std::alloc::Global;
use std::io;
use std::io::{BufRead, BufReader, BufWriter, Write};

/// What becomes of a case, as a line.
fn outcome(alloc: Global, ram: &mut Ram, line: &str) -> Result<String, CaseError> {
    let case = Case::parse(alloc, line)?;
    let mut out = String::new(alloc);
    load(ram, &case);
    let mut ctx = case.ctx;
    run(&mut ctx, ram, &case, &mut out)?;
    print_changes(&case.ctx, &ctx, &mut out)?;
    print_memory(alloc, &case, ram, &mut out)?;
    Ok(out)
}

/// Prints a line for each line of input.
fn print_all(rt: &HostRuntime, first: &Ram, ram: &mut Ram) -> io::Result<()> {
    let alloc = rt.alloc();
    let mut out = BufWriter::new(alloc, io::writer(rt))?;
    for line in BufReader::new(alloc, rt.reader())?.lines(alloc) {
        let line = line?;
        if line.starts_with('#') {
            writeln!(out, "{line}")?;
            continue;
        }
        match outcome(alloc, ram, line.as_str()) {
            Ok(text) => writeln!(out, "{text}")?,
            Err(error) => writeln!(out, "{error}")?,
        }
        ram.reset(first);
    }
    out.flush()
}

fn main(rt: HostRuntime) -> io::Result<()> {
    let first = Ram::blank(rt.alloc())?;
    let mut ram = Ram::blank(rt.alloc())?;
    print_all(&rt, &first, &mut ram)
}
