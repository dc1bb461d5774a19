//! Command lines.
use crate::case::{CaseError, number_of};
use crate::gave::{Answer, Gave};
use std::alloc::Global;
use std::sync::Wait;
use std::thread::Threads;
use vm_host::{Host, MemSink, NoGate};
use vm_run::vmrun;

/// What the last command line left.
#[derive(Drop)]
pub struct Ran {
    /// Its exit status, or 0.
    pub status: u8,
    console: MemSink,
    log: MemSink,
    /// Which call of the next one's console is to fail, if one is.
    console_fault: Option<u64>,
    /// Which call of the next one's log is to fail, if one is.
    log_fault: Option<u64>,
}

/// A sink that took nothing, of which the call of this number is to fail, if one is.
fn sink_that_fails(alloc: Global, fault: Option<u64>) -> Result<MemSink, CaseError> {
    let mut sink = MemSink::new(alloc);
    if let Some(call) = fault {
        sink.fail(call)?;
    }
    Ok(sink)
}

impl Ran {
    /// Before the first command line.
    pub fn new(alloc: Global) -> Ran {
        Ran {
            status: 0,
            console: MemSink::new(alloc),
            log: MemSink::new(alloc),
            console_fault: None,
            log_fault: None,
        }
    }

    /// The call of this number of the next command line's console is to fail.
    pub fn fail_console(&mut self, number: &str) -> Result<Gave, CaseError> {
        self.console_fault = Some(number_of(number)?);
        Ok(Gave::Answer(Answer::Done))
    }

    /// The call of this number of the next command line's log is to fail.
    pub fn fail_log(&mut self, number: &str) -> Result<Gave, CaseError> {
        self.log_fault = Some(number_of(number)?);
        Ok(Gave::Answer(Answer::Done))
    }

    /// Runs a command line: WORD|WORD|..
    pub fn run<R: Threads + Wait + Sync, H: Host>(
        &mut self,
        threads: &R,
        alloc: Global,
        host: &mut H,
        text: &str,
    ) -> Result<Gave, CaseError> {
        let mut words = Vec::new(alloc);
        for word in text.split('|') {
            words.push(word)?;
        }
        self.console = sink_that_fails(alloc, self.console_fault.take())?;
        self.log = sink_that_fails(alloc, self.log_fault.take())?;
        let outcome = vmrun(
            threads,
            alloc,
            &words,
            host,
            &mut self.console,
            &mut self.log,
            &NoGate,
        );
        self.status = outcome.status;
        Ok(Gave::Number(outcome.status as u64))
    }

    /// What its guest wrote.
    pub fn console(&self, alloc: Global) -> Result<Gave, CaseError> {
        Ok(Gave::Bytes(self.console.taken().to_vec(alloc)?))
    }

    /// What it wrote to its log: a report, or the line of a refusal.
    pub fn log(&self, alloc: Global) -> Result<Gave, CaseError> {
        Ok(Gave::Bytes(self.log.taken().to_vec(alloc)?))
    }
}
