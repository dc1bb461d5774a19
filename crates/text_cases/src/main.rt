//! Reads texts by `cfg_text`, `cfg_vm`, `ctl_script` and `vm_cmd`, and prints what came of each.
//!
//! A line of stdin is a case: a word, a space and the rest.
//!
//! - `cfg TEXT`: the configuration of the text: its variables, or the first fault.
//! - `get NAME TEXT`: the value of one of its variables, `none` where there is none.
//! - `plan TEXT`, `restore TEXT`: what the configuration plans, without and with a checkpoint to restore, or the first
//!   variable that is refused.
//! - `script CPUS DISKS TEXT`: the print of the script that the text is for so many vCPUs and disks, or the first fault.
//!   The print is read again, and ` differs` follows where it isn't printed as itself.
//! - `words WORD|WORD|..`: the command of these words, or `usage`; nothing after `words ` is no word.
//!
//! In a text `\n`, `\r`, `\t` and `\\` are LF, CR, TAB and a backslash, `\xHH` is a byte, and `\*N{TEXT}` is TEXT N times,
//! in which no `}` stands. In what is printed the first four stand so too, and a value of more than 100 bytes as its
//! length. A line that begins with `#` is printed as it is.
//!
//! The file `stdout` was worked out from the formats' descriptions. This program promises no more than that it is safe and
//! ends.
#![tactic(auto)]

mod case;
mod command;
mod config;
mod script;

use crate::case::CaseError;
use crate::command::words_outcome;
use crate::config::{cfg_outcome, get_outcome, plan_outcome};
use crate::script::script_outcome;
use std::alloc::Global;
use std::io;
use std::io::{BufRead, BufReader, BufWriter, Write};

/// What becomes of a case, as a line.
fn outcome(alloc: Global, line: &str) -> Result<String, CaseError> {
    let Some((kind, rest)) = line.split_once(' ') else {
        return Err(CaseError::Form);
    };
    match kind {
        "cfg" => cfg_outcome(alloc, rest),
        "get" => get_outcome(alloc, rest),
        "plan" => plan_outcome(alloc, rest, false),
        "restore" => plan_outcome(alloc, rest, true),
        "script" => script_outcome(alloc, rest),
        "words" => words_outcome(alloc, rest),
        _ => Err(CaseError::Form),
    }
}

/// Prints a line for each line of input.
fn print_all(rt: &HostRuntime) -> io::Result<()> {
    let alloc = rt.alloc();
    let mut out = BufWriter::new(alloc, io::writer(rt))?;
    for line in BufReader::new(alloc, rt.reader())?.lines(alloc) {
        let line = line?;
        if line.starts_with('#') {
            writeln!(out, "{line}")?;
            continue;
        }
        match outcome(alloc, line.as_str()) {
            Ok(text) => writeln!(out, "{text}")?,
            Err(error) => writeln!(out, "{error}")?,
        }
    }
    out.flush()
}

fn main(rt: HostRuntime) -> io::Result<()> {
    print_all(&rt)
}
