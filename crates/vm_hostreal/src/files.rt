//! Calls on regular files of the system. Each is tried again where a signal interrupts it.
ghost use Rattle.std.specs.Prelude.{◌≤◌, length, IfOk};

use std::fs::{self, File, Metadata, OpenOptions};
use std::io::{self, ErrorKind};
use std::os::unix::fs::FileExt;
use std::path::Path;
use std::rt::HostRuntime;

/// What a file is opened for. A file that is only written needs no right to be read.
#[derive(Clone, Copy, Debug, PartialEq, Eq)]
pub(crate) enum Access {
    Read,
    Write,
    Both,
}

/// Refuses what isn't a regular file: a folder, a FIFO, a socket or a device.
fn require_regular(metadata: &Metadata) -> io::Result<()> {
    if metadata.is_file() {
        Ok(())
    } else {
        Err(io::Error::from(ErrorKind::InvalidInput))
    }
}

/// How many bytes a regular file has. It isn't opened.
pub(crate) fn size_of(rt: &HostRuntime, name: &str) -> io::Result<u64> {
    let metadata = fs::metadata(rt, name)?;
    require_regular(&metadata)?;
    Ok(metadata.len())
}

/// Opens a regular file that is there.
///
/// A FIFO that nobody has open at its other end would hold the caller in open(2), and std has no O_NONBLOCK: so the
/// file is looked at first, and once more when it is open.
pub(crate) fn open(rt: &HostRuntime, name: &str, access: Access) -> io::Result<File> {
    let _size = size_of(rt, name)?;
    let mut options = OpenOptions::new();
    options.read(access != Access::Write);
    options.write(access != Access::Read);
    let file = options.open(rt, name)?;
    require_regular(&file.metadata()?)?;
    Ok(file)
}

/// Makes a regular file, or cuts it off at 0 bytes, and makes sure of it and of its folder. It is open for writing.
pub(crate) fn create(rt: &HostRuntime, name: &str) -> io::Result<File> {
    match size_of(rt, name) {
        Err(error) if error.kind() != ErrorKind::NotFound => return Err(error),
        _ => {}
    }
    let mut options = OpenOptions::new();
    options.write(true);
    options.create(true);
    options.truncate(true);
    let file = options.open(rt, name)?;
    require_regular(&file.metadata()?)?;
    file.sync_all()?;
    sync_folder(rt, name)?;
    Ok(file)
}

/// Makes sure of the entry of a file in its folder. Some file systems have no such call, and need none.
fn sync_folder(rt: &HostRuntime, name: &str) -> io::Result<()> {
    match File::open(rt, folder_of(name))?.sync_all() {
        Err(error) if !has_no_such_call(error.kind()) => Err(error),
        _ => Ok(()),
    }
}

fn has_no_such_call(kind: ErrorKind) -> bool {
    kind == ErrorKind::InvalidInput || kind == ErrorKind::Unsupported
}

/// The folder that a file stands in.
fn folder_of(name: &str) -> &str {
    match Path::new(name).parent() {
        Some(folder) if !folder.as_str().is_empty() => folder.as_str(),
        _ => ".",
    }
}

/// Reads from a place on, until the buffer is full or the file ends, and answers how many bytes that were.
pub(crate) fn read_full(file: &File, at: u64, into: &mut [u8]) -> io::Result<usize>
    ensures { IfOk result (λ n. n ≤ length into.old) }
{
    let mut done = 0;
    'reading: for _ in 0..u64::MAX {
        let from = at.saturating_add(done as u64);
        if done == into.len() || from > i64::MAX as u64 {
            return Ok(done);
        }
        match file.read_at(&mut into[done..], from) {
            Ok(0) => return Ok(done),
            Ok(count) => done += count,
            Err(error) if error.kind() == ErrorKind::Interrupted => {}
            Err(error) => return Err(error),
        }
    }
    Err(io::Error::from(ErrorKind::Interrupted))
}

/// Writes a whole piece from a place on. An empty piece past the end makes the file longer too.
pub(crate) fn write_full(file: &File, at: u64, piece: &[u8]) -> io::Result<()> {
    if piece.is_empty() && file.metadata()?.len() < at {
        return file.set_len(at);
    }
    file.write_all_at(piece, at)
}
