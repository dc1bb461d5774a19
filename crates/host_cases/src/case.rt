use crate::gave::Gave;
use crate::ran::Ran;
use std::alloc::{AllocError, AllocFailed, Global};
use std::io;
use std::sync::Wait;
use std::thread::Threads;
use thiserror::Error;
use vm_host::Host;
use vm_law::OutOfMemory;

/// Why a case wasn't run to its end.
#[derive(Debug, Drop, Error)]
pub enum CaseError {
    #[error("no case")]
    Form,
    #[error("the folder of a case failed")]
    Folder,
    #[error("out of memory")]
    Memory,
}

impl From<AllocError> for CaseError {
    fn from(_error: AllocError) -> CaseError {
        CaseError::Memory
    }
}

impl<T: Drop> From<AllocFailed<T>> for CaseError {
    fn from(_error: AllocFailed<T>) -> CaseError {
        CaseError::Memory
    }
}

impl From<OutOfMemory> for CaseError {
    fn from(_error: OutOfMemory) -> CaseError {
        CaseError::Memory
    }
}

impl From<io::Error> for CaseError {
    fn from(_error: io::Error) -> CaseError {
        CaseError::Folder
    }
}

/// How often bytes or a name are repeated at most, and how many bytes are read at once at most.
const MOST: u64 = 100_000;

/// A host on which commands are carried out.
pub trait Bed {
    type Files: Host;

    /// The host, for a command line.
    fn files(&mut self) -> &mut Self::Files;

    /// Carries out a command with its fields, and answers what it gave.
    fn run(&mut self, command: &str, fields: &str) -> Result<Gave, CaseError>;
}

/// The field before the first colon, and those after it.
pub fn cut(fields: &str) -> Result<(&str, &str), CaseError> {
    fields.split_once(':').ok_or(CaseError::Form)
}

/// The number that decimal digits name.
pub fn number_of(digits: &str) -> Result<u64, CaseError> {
    match u64::from_str_radix(digits, 10) {
        Ok(number) => Ok(number),
        Err(_) => Err(CaseError::Form),
    }
}

/// The number that decimal digits name, at most [`MOST`].
pub fn count_of(digits: &str) -> Result<u64, CaseError> {
    match number_of(digits)? {
        count if count <= MOST => Ok(count),
        _ => Err(CaseError::Form),
    }
}

/// The number that octal digits name.
pub fn mode_of(digits: &str) -> Result<u32, CaseError> {
    match u32::from_str_radix(digits, 8) {
        Ok(mode) => Ok(mode),
        Err(_) => Err(CaseError::Form),
    }
}

/// The bytes that pairs of hexadecimal digits name.
fn pairs_of(alloc: Global, digits: &str) -> Result<Vec<u8>, CaseError> {
    match hex::decode(alloc, digits) {
        Ok(bytes) => Ok(bytes),
        Err(hex::FromHexError::OutOfMemory) => Err(CaseError::Memory),
        Err(_) => Err(CaseError::Form),
    }
}

/// Adds a byte so many times.
fn add_repeated(out: &mut Vec<u8>, byte: &str, times: &str) -> Result<(), CaseError> {
    let Ok(byte) = u8::from_str_radix(byte, 16) else {
        return Err(CaseError::Form);
    };
    for _ in 0..count_of(times)? {
        out.push(byte)?;
    }
    Ok(())
}

/// The bytes that a text of a case spells.
pub fn bytes_of(alloc: Global, text: &str) -> Result<Vec<u8>, CaseError> {
    let mut out = Vec::new(alloc);
    for part in text.split('+') {
        match part.split_once('*') {
            Some((byte, times)) => add_repeated(&mut out, byte, times)?,
            None => out.extend_from_slice(&pairs_of(alloc, part)?)?,
        }
    }
    Ok(out)
}

/// The name that a text of a case spells.
pub fn name_of(alloc: Global, text: &str) -> Result<String, CaseError> {
    let Some((piece, times)) = text.split_once('*') else {
        return Ok(String::from_str(alloc, text)?);
    };
    let mut name = String::new(alloc);
    for _ in 0..count_of(times)? {
        name.push_str(piece)?;
    }
    Ok(name)
}

/// Whether bytes are those that a text spells.
fn are_spelled(alloc: Global, bytes: &[u8], text: &str) -> Result<bool, CaseError> {
    match bytes_of(alloc, text) {
        Ok(wanted) => Ok(wanted.as_slice() == bytes),
        Err(CaseError::Form) => Ok(false),
        Err(error) => Err(error),
    }
}

/// Whether a command gave what a text says.
fn is_wanted(alloc: Global, gave: &Gave, wanted: &str) -> Result<bool, CaseError> {
    match gave {
        Gave::Bytes(bytes) => are_spelled(alloc, bytes, wanted),
        Gave::Name(name) => Ok(name_of(alloc, wanted)?.as_bytes() == name.as_slice()),
        Gave::Number(number) => Ok(number_of(wanted).is_ok_and(|wanted| wanted == *number)),
        Gave::Answer(answer) => Ok(answer.word() == wanted),
    }
}

/// Carries out the words of a case, and says whether each gave what it must.
pub fn check<R: Threads + Wait + Sync, B: Bed>(
    threads: &R,
    alloc: Global,
    bed: &mut B,
    ran: &mut Ran,
    words: &str,
) -> Result<String, CaseError> {
    let mut compared = 0u64;
    for word in words.split(' ') {
        let Some((call, wanted)) = word.split_once('>') else {
            return Err(CaseError::Form);
        };
        let (command, fields) = call.split_once(':').unwrap_or((call, ""));
        let gave = match command {
            "run" => ran.run(threads, alloc, bed.files(), fields)?,
            "console" => ran.console(alloc)?,
            "log" => ran.log(alloc)?,
            "fail_console" => ran.fail_console(fields)?,
            "fail_log" => ran.fail_log(fields)?,
            _ => bed.run(command, fields)?,
        };
        if !is_wanted(alloc, &gave, wanted)? {
            let text = gave.text(alloc)?;
            return Ok(format!(in alloc; "differs: {word} gave {text}")?);
        }
        compared = compared.saturating_add(1);
    }
    Ok(format!(in alloc; "ok {compared}")?)
}
