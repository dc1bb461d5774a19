//! Calls hosts in memory and on the system's files as a case says, runs command lines over them, and compares what comes of it.
//!
//! A line of stdin is a case. Its first word says over what: `mem` over files in memory, `real` over the files of a folder of
//! its own, which is made where the program runs and is removed again, `both` over the one and then the other. The other
//! words, with one space between them, are each a command, and after a `>` what it must give. A command has a name and
//! fields, with a colon before each:
//!
//! - `make:NAME`, `sync:NAME`: calls of a host. They give `-`.
//! - `write:NAME:AT:BYTES`: writes bytes from an offset on. It gives `-`.
//! - `read:NAME:AT:COUNT`: reads at most so many bytes from an offset on. It gives them.
//! - `length:NAME`: gives how many bytes a file has.
//! - `failed`: gives the name that the host's last failure was about.
//! - `open:NAME`, `close`: opens a file as a disk image, and gives it back. They give `-`. One is open at a time.
//! - `sector:NUMBER:BYTES`, `flush`: write a sector of the open image, and sync it. They give `-`.
//! - `run:WORD|WORD|..`: the command line of these words, over the host. It gives the exit status.
//! - `console`: gives what the guest of the last command line wrote.
//! - `log`: gives what the last command line wrote to its log: a report, the line of a refusal, or nothing.
//! - `fail_console:NUMBER`, `fail_log:NUMBER`: the call of this number of the next command line's console, and of its log, is
//!   to fail. They give `-`.
//!
//! Over memory alone:
//!
//! - `put:NAME:BYTES`: puts a file. It gives `-`.
//! - `file:NAME`: gives the bytes of a file, and is no call that could fail.
//! - `fail:NUMBER`, `fail_image:NAME:NUMBER`: the call of this number of the host, and of the next image of a file, is to
//!   fail. They give `-`.
//!
//! Over real files alone, to make what hosts meet there; all give `-`:
//!
//! - `folder:NAME`, `link:TARGET:NAME`: make a folder and a symbolic link.
//! - `mode:NAME:MODE`: sets the rights of a file or a folder, in octal.
//! - `pipe:NAME`: makes a symbolic link to a pipe of which both ends are open and into which nobody writes.
//!
//! In the place of all these a call gives `missing`, `failed` or `memory` where it is refused, and `cannot` where it isn't
//! made: a sync, a write or the opening of a file that isn't there, and a sector past the end, of a host in memory, and
//! what needs an open image or none. Offsets, counts and numbers are decimal. Bytes are pairs of hexadecimal digits, with
//! `+` between parts, of which `XX*N` is the byte XX, N times. A name `TEXT*N` is TEXT, N times. No bytes and the empty
//! name are spelled by nothing.
//!
//! The line of stdout in the same place is `ok` and how many words were compared, in decimal, or names the first word that
//! gave something else. A line that begins with `#` is printed as it is. The exit status is that of the last command line,
//! 0 where there is none, and 70 where input or output failed. What must come was worked out by hand from the promises of
//! `vm_host` and POSIX (open(2), pread(2), pwrite(2), fsync(2)), and not by this program, which promises no more than that
//! it is safe. The cases of rights need a user who is bound by them, which root isn't.
#![tactic(auto)]

mod calls;
mod case;
mod gave;
mod mem_bed;
mod ran;
mod real_bed;
mod room;

use crate::case::{CaseError, check};
use crate::mem_bed::MemBed;
use crate::ran::Ran;
use crate::real_bed::RealBed;
use crate::room::Room;
use std::io;
use std::io::{BufRead, BufReader, BufWriter, Write};
use std::process::ExitCode;
use std::sync::Wait;
use std::thread::Threads;

/// What becomes of a case over files in memory.
fn mem_outcome<R: Threads + Wait + Sync>(
    threads: &R,
    rt: &HostRuntime,
    ran: &mut Ran,
    words: &str,
) -> Result<String, CaseError> {
    check(threads, rt.alloc(), &mut MemBed::new(rt), ran, words)
}

/// What becomes of a case over the files of the folder that the program is in.
fn folder_outcome<R: Threads + Wait + Sync>(
    threads: &R,
    rt: &HostRuntime,
    room: &Room,
    ran: &mut Ran,
    words: &str,
) -> Result<String, CaseError> {
    let mut bed = RealBed::new(rt, room)?;
    check(threads, rt.alloc(), &mut bed, ran, words)
}

/// What becomes of a case over real files, in a folder of its own.
fn real_outcome<R: Threads + Wait + Sync>(
    threads: &R,
    rt: &HostRuntime,
    room: &mut Room,
    ran: &mut Ran,
    words: &str,
) -> Result<String, CaseError> {
    room.enter(rt)?;
    let text = folder_outcome(threads, rt, room, ran, words);
    room.leave(rt)?;
    text
}

/// What becomes of a case over both.
fn both_outcome<R: Threads + Wait + Sync>(
    threads: &R,
    rt: &HostRuntime,
    room: &mut Room,
    ran: &mut Ran,
    words: &str,
) -> Result<String, CaseError> {
    let mem = mem_outcome(threads, rt, ran, words)?;
    let real = real_outcome(threads, rt, room, ran, words)?;
    if mem.as_str() == real.as_str() {
        return Ok(mem);
    }
    Ok(format!(in rt.alloc(); "mem {mem}; real {real}")?)
}

/// What becomes of a case, as a line.
fn outcome<R: Threads + Wait + Sync>(
    threads: &R,
    rt: &HostRuntime,
    room: &mut Room,
    ran: &mut Ran,
    line: &str,
) -> Result<String, CaseError> {
    let Some((over, words)) = line.split_once(' ') else {
        return Err(CaseError::Form);
    };
    match over {
        "mem" => mem_outcome(threads, rt, ran, words),
        "real" => real_outcome(threads, rt, room, ran, words),
        "both" => both_outcome(threads, rt, room, ran, words),
        _ => Err(CaseError::Form),
    }
}

/// Prints a line for each line of input, and answers the status of the last command line.
fn print_all<R: Threads + Wait + Sync>(threads: &R, rt: &HostRuntime) -> io::Result<u8> {
    let alloc = rt.alloc();
    let mut room = Room::new(rt)?;
    let mut ran = Ran::new(alloc);
    let mut out = BufWriter::new(alloc, io::writer(rt))?;
    for line in BufReader::new(alloc, rt.reader())?.lines(alloc) {
        let line = line?;
        if line.starts_with('#') {
            writeln!(out, "{line}")?;
            continue;
        }
        match outcome(threads, rt, &mut room, &mut ran, line.as_str()) {
            Ok(text) => writeln!(out, "{text}")?,
            Err(error) => writeln!(out, "{error}")?,
        }
    }
    out.flush()?;
    Ok(ran.status)
}

/// Status 70 where input, output or memory failed.
fn main(rt: HostRuntime) -> ExitCode {
    match print_all(&rt, &rt) {
        Ok(status) => ExitCode::from(status),
        Err(_) => ExitCode::from(70),
    }
}
