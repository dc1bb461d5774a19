//! What cases over real files have besides their files.
use crate::case::CaseError;
use std::io::{self, PipeReader, PipeWriter};
use std::{env, fs};

/// A pipe of which both ends are open and into which nobody writes, and a folder for each case.
#[derive(Drop)]
pub struct Room {
    pipe: PipeReader,
    _writer: PipeWriter,
    cases: u64,
}

impl Room {
    /// Before the first case.
    pub fn new(rt: &HostRuntime) -> io::Result<Room> {
        let (pipe, writer) = io::pipe(rt)?;
        Ok(Room {
            pipe,
            _writer: writer,
            cases: 0,
        })
    }

    /// The pipe's end that is read.
    pub fn pipe(&self) -> &PipeReader {
        &self.pipe
    }

    /// The name of the folder of the case that is run.
    fn folder(&self, rt: &HostRuntime) -> Result<String, CaseError> {
        let number = self.cases;
        Ok(format!(in rt.alloc(); "host_case_{number}")?)
    }

    /// Makes an empty folder for the next case, in which names stand from then on.
    pub fn enter(&mut self, rt: &HostRuntime) -> Result<(), CaseError> {
        self.cases = self.cases.saturating_add(1);
        let folder = self.folder(rt)?;
        fs::create_dir(rt, folder.as_str())?;
        Ok(env::set_current_dir(rt, folder.as_str())?)
    }

    /// Goes back to the folder above, and removes that of the case with what lies in it.
    pub fn leave(&self, rt: &HostRuntime) -> Result<(), CaseError> {
        env::set_current_dir(rt, "..")?;
        let folder = self.folder(rt)?;
        Ok(fs::remove_dir_all(rt, folder.as_str())?)
    }
}
