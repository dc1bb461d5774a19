//! The commands that are the same over each host.
use crate::case::{CaseError, bytes_of, count_of, cut, name_of, number_of};
use crate::gave::{Gave, done, refused};
use std::alloc::Global;
use vm_host::Host;

/// A write that a case asks for.
#[derive(Drop)]
pub struct Piece {
    pub name: String,
    pub at: u64,
    pub bytes: Vec<u8>,
}

impl Piece {
    /// The write of these fields: NAME:AT:BYTES.
    pub fn of(alloc: Global, fields: &str) -> Result<Piece, CaseError> {
        let (name, rest) = cut(fields)?;
        let (at, bytes) = cut(rest)?;
        Ok(Piece {
            name: name_of(alloc, name)?,
            at: number_of(at)?,
            bytes: bytes_of(alloc, bytes)?,
        })
    }
}

/// The sector and its bytes of these fields: NUMBER:BYTES.
pub fn sector_of(alloc: Global, fields: &str) -> Result<(u64, [u8; 512]), CaseError> {
    let (number, bytes) = cut(fields)?;
    let bytes = bytes_of(alloc, bytes)?;
    if bytes.len() != 512 {
        return Err(CaseError::Form);
    }
    let mut sector = [0; 512];
    sector.copy_from_slice(&bytes);
    Ok((number_of(number)?, sector))
}

/// Makes a file anew: NAME.
fn make<H: Host>(alloc: Global, host: &mut H, name: &str) -> Result<Gave, CaseError> {
    let name = name_of(alloc, name)?;
    Ok(done(host.make(alloc, name.as_str())))
}

/// The length of a file: NAME.
fn length<H: Host>(alloc: Global, host: &mut H, name: &str) -> Result<Gave, CaseError> {
    let name = name_of(alloc, name)?;
    match host.length(name.as_str()) {
        Ok(length) => Ok(Gave::Number(length)),
        Err(fault) => Ok(refused(fault)),
    }
}

/// Bytes of a file: NAME:AT:COUNT.
fn read<H: Host>(alloc: Global, host: &mut H, fields: &str) -> Result<Gave, CaseError> {
    let (name, rest) = cut(fields)?;
    let (at, count) = cut(rest)?;
    let name = name_of(alloc, name)?;
    let mut into = vec![in alloc; 0x5A; count_of(count)? as usize]?;
    match host.read_at(name.as_str(), number_of(at)?, &mut into) {
        Ok(count) => {
            into.truncate(count);
            Ok(Gave::Bytes(into))
        }
        Err(fault) => Ok(refused(fault)),
    }
}

/// Carries out a command that needs nothing before it.
pub fn run_free<H: Host>(
    alloc: Global,
    host: &mut H,
    command: &str,
    fields: &str,
) -> Result<Gave, CaseError> {
    match command {
        "make" => make(alloc, host, fields),
        "length" => length(alloc, host, fields),
        "read" => read(alloc, host, fields),
        _ => Err(CaseError::Form),
    }
}
