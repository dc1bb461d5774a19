//! vmrun, a virtual machine for an integer subset of 64-bit x86.
//!
//! This program hands the command line, the files of the system, standard output for the console and standard error for the
//! log to `vm_run::vmrun`, and ends with the status that it answers. Files and output are those of `vm_hostreal`, which tell
//! nothing of content: what a real file or terminal holds isn't claimed.
#![tactic(auto)]

use std::process::ExitCode;
use std::sync::Wait;
use std::thread::Threads;
use std::{env, io};
use vm_host::NoGate;
use vm_hostreal::{ErrSink, FileHost, OutSink};
use vm_run::vmrun;

/// The words after the program's name.
fn words_of(rt: &HostRuntime) -> io::Result<Vec<String>> {
    let mut words = Vec::new(rt.alloc());
    for word in env::args(rt)?.skip(1) {
        words.push(word)?;
    }
    Ok(words)
}

/// Runs the command that the words name, and answers its status. `threads` is what it may start threads with.
fn run<R: Threads + Wait + Sync>(threads: &R, rt: &HostRuntime) -> io::Result<u8> {
    let owned = words_of(rt)?;
    let mut words = Vec::new(rt.alloc());
    for word in &owned {
        words.push(word.as_str())?;
    }
    let mut host = FileHost::new(rt.clone()?);
    let mut console = OutSink::new(rt.clone()?);
    let mut log = ErrSink::new(rt.clone()?);
    let outcome = vmrun(
        threads,
        rt.alloc(),
        &words,
        &mut host,
        &mut console,
        &mut log,
        &NoGate,
    );
    Ok(outcome.status)
}

/// Status 71 where memory ran out before the words were read, and 2 where a word isn't UTF-8.
fn main(rt: HostRuntime) -> ExitCode {
    let status = match run(&rt, &rt) {
        Ok(status) => status,
        Err(error) => match error.kind() {
            io::ErrorKind::OutOfMemory => 71,
            _ => 2,
        },
    };
    ExitCode::from(status)
}
