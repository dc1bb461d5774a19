//! Runs histories of the whole machine, entry by entry, and compares what comes of them with what its input says must come.
//!
//! A case is a few lines of stdin, and ends with an empty one. Its first lines say what it starts from; they stand until
//! another `start`, so that a case may begin where the one before it began. Numbers are decimal, or hexadecimal behind `0x`.
//!
//! - `start CPUS MEMORY LIMIT`: another start, of so many vCPUs, bytes of memory and instructions, without disk, code or script.
//! - `disk SECTORS WORKERS RO`: one disk more, of zeros; `RO` is 1 where it is read-only. `fill DISK SECTOR BYTE` fills a sector.
//! - `asm STATEMENT; ..`: lines of assembler text. `order ORDER; ..`: lines of the script. `orders ORDER; ..`: another script.
//!
//! The other lines have parts with `, ` between them, each of which is carried out and must be as it says:
//!
//! - `begin`: the run begins. `copy`: it goes on in an equal copy. `restore`: a run begins from its machine, with the script.
//! - `PASS ENTRY NUMBER ..`: this entry is lawful for the pass, and is made. An entry has its name in lower case; `put` is a Put
//!   that succeeded, `fail` one that didn't, `budget` and `outside` are the two causes of an End.
//! - `not PASS ENTRY ..`: it isn't lawful, and the call that tells and makes it leaves it out. `repeat COUNT PASS ENTRY ..`: it is made so many times.
//! - `at_once PASS ENTRY ..`: the same as the entry alone, told and made in one call. `brought PASS slice ..`: the context after
//!   the Slice is computed before it is made. `greatest PASS slice ..`: so too, and it is the longest that is lawful.
//! - `NAME NUMBER .. = WANT`: what is looked up under this name is so. `look_run.rt`, `look_cpu.rt` and `look_disk.rt` have the
//!   names, and `print.rt` says how what they give is spelled.
//!
//! For each case stdout has a line `ok` with the number of parts that were compared, or the first part that wasn't as it must
//! be, with what it gave. A line that begins with `#` is a title, and is printed as it is. What must come was worked out by hand
//! from the sources that the crates of the machine name, never from this program, which promises no more than that it is safe
//! and ends.
#![tactic(auto)]

mod allowed;
mod bench;
mod case;
mod entry;
mod look_cpu;
mod look_disk;
mod look_run;
mod print;
mod setup;
mod sound;

use crate::bench::Bench;
use crate::case::CaseError;
use std::alloc::Global;
use std::io;
use std::io::{BufRead, BufReader, BufWriter, Write};

/// What a line gives: the line itself, where it is a title, and what became of a case, where it ends one.
fn outcome(alloc: Global, bench: &mut Bench, line: &str) -> Result<Option<String>, CaseError> {
    if line.starts_with('#') {
        return Ok(Some(String::from_str(alloc, line)?));
    }
    if line.is_empty() {
        return Ok(Some(bench.end(alloc)?));
    }
    bench.line(alloc, line)?;
    Ok(None)
}

/// Carries out a line, and prints what it gives.
fn answer<W: Write>(alloc: Global, bench: &mut Bench, line: &str, out: &mut W) -> io::Result<()> {
    match outcome(alloc, bench, line) {
        Ok(None) => Ok(()),
        Ok(Some(text)) => writeln!(out, "{text}"),
        Err(error) => writeln!(out, "{error}"),
    }
}

/// Carries out each line of input, and prints what it gives.
fn carry_out(rt: &HostRuntime, bench: &mut Bench) -> io::Result<()> {
    let alloc = rt.alloc();
    let mut out = BufWriter::new(alloc, io::writer(rt))?;
    for line in BufReader::new(alloc, rt.reader())?.lines(alloc) {
        let line = line?;
        answer(alloc, bench, line.as_str(), &mut out)?;
    }
    out.flush()
}

fn main(rt: HostRuntime) -> io::Result<()> {
    let mut bench = Bench::new(rt.alloc());
    carry_out(&rt, &mut bench)
}
