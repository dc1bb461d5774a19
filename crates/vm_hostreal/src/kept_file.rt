//! The file that was used last, which stays open for the next call on it.
ghost use Rattle.std.specs.Prelude.{◌≤◌, length, IfOk};

use crate::files::{self, Access};
use std::fs::File;
use std::io::{self, ErrorKind};
use std::rt::HostRuntime;

/// A regular file that is open.
#[derive(Drop)]
struct OpenFile {
    name: String,
    access: Access,
    file: File,
}

/// The file that was used last, if it is open. So a file that is read or written piece by piece is opened once, and a
/// sync comes over the handle that wrote, which is the one that hears of a write that failed late.
#[derive(Drop)]
pub(crate) struct KeptFile {
    last: Option<OpenFile>,
}

impl KeptFile {
    /// None is open.
    pub(crate) fn new() -> KeptFile {
        KeptFile { last: None }
    }

    /// That file, open for this. Any other one is closed.
    fn take(&mut self, rt: &HostRuntime, name: &str, access: Access) -> io::Result<OpenFile> {
        if let Some(open) = self.last.take() {
            if open.access == access && open.name.as_str() == name {
                return Ok(open);
            }
        }
        let file = files::open(rt, name, access)?;
        let name = String::from_str(rt.alloc(), name)?;
        Ok(OpenFile { name, access, file })
    }

    /// Reads from a place on, as many bytes as fit or stand there.
    pub(crate) fn read_at(
        &mut self,
        rt: &HostRuntime,
        name: &str,
        at: u64,
        into: &mut [u8],
    ) -> io::Result<usize>
        ensures { IfOk result (λ n. n ≤ length into.old) }
    {
        let open = self.take(rt, name, Access::Read)?;
        let count = files::read_full(&open.file, at, into)?;
        self.last = Some(open);
        Ok(count)
    }

    /// Makes a file, or cuts it off at 0 bytes, and makes sure of it and of its folder.
    pub(crate) fn make(&mut self, rt: &HostRuntime, name: &str) -> io::Result<()> {
        let owned = String::from_str(rt.alloc(), name)?;
        let file = files::create(rt, name)?;
        self.last = Some(OpenFile {
            name: owned,
            access: Access::Write,
            file,
        });
        Ok(())
    }

    /// Writes a whole piece from a place on.
    pub(crate) fn write_at(
        &mut self,
        rt: &HostRuntime,
        name: &str,
        at: u64,
        piece: &[u8],
    ) -> io::Result<()> {
        let open = self.take(rt, name, Access::Write)?;
        files::write_full(&open.file, at, piece)?;
        self.last = Some(open);
        Ok(())
    }

    /// Makes sure of what was written. A file that may not be written is opened for reading.
    pub(crate) fn sync(&mut self, rt: &HostRuntime, name: &str) -> io::Result<()> {
        let open = match self.take(rt, name, Access::Write) {
            Err(error) if error.kind() == ErrorKind::PermissionDenied => {
                self.take(rt, name, Access::Read)?
            }
            other => other?,
        };
        open.file.sync_all()?;
        self.last = Some(open);
        Ok(())
    }
}
