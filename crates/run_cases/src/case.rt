use ctl_script::ScriptError;
use std::alloc::{AllocError, AllocFailed, Global};
use thiserror::Error;
use vm_asm::AsmError;
use vm_law::OutOfMemory;

/// Why a case wasn't run to its end.
#[derive(Debug, Drop, Error)]
pub enum CaseError {
    #[error("no case")]
    Form,
    #[error("no assembly")]
    Assembly,
    #[error("no script")]
    Script,
    #[error("no start")]
    Start,
    #[error("out of memory")]
    Memory,
}

impl From<AllocError> for CaseError {
    fn from(_error: AllocError) -> CaseError {
        CaseError::Memory
    }
}

impl<T: Drop> From<AllocFailed<T>> for CaseError {
    fn from(_error: AllocFailed<T>) -> CaseError {
        CaseError::Memory
    }
}

impl From<OutOfMemory> for CaseError {
    fn from(_error: OutOfMemory) -> CaseError {
        CaseError::Memory
    }
}

impl From<AsmError> for CaseError {
    fn from(error: AsmError) -> CaseError {
        match error {
            AsmError::Memory => CaseError::Memory,
            AsmError::Fault { .. } => CaseError::Assembly,
        }
    }
}

impl From<ScriptError> for CaseError {
    fn from(error: ScriptError) -> CaseError {
        match error {
            ScriptError::Memory => CaseError::Memory,
            ScriptError::Fault { .. } => CaseError::Script,
        }
    }
}

/// The number that decimal digits name, or hexadecimal ones behind `0x`.
pub fn number_of(word: &str) -> Result<u64, CaseError> {
    let parsed = match word.strip_prefix("0x") {
        Some(digits) => u64::from_str_radix(digits, 16),
        None => u64::from_str_radix(word, 10),
    };
    match parsed {
        Ok(number) => Ok(number),
        Err(_) => Err(CaseError::Form),
    }
}

/// The bytes that pairs of hexadecimal digits name.
pub fn bytes_of(alloc: Global, digits: &str) -> Result<Vec<u8>, CaseError> {
    match hex::decode(alloc, digits) {
        Ok(bytes) => Ok(bytes),
        Err(hex::FromHexError::OutOfMemory) => Err(CaseError::Memory),
        Err(_) => Err(CaseError::Form),
    }
}

/// The first word of a text, and those behind it.
pub fn cut(text: &str) -> (&str, &str) {
    text.split_once(' ').unwrap_or((text, ""))
}

/// The numbers that words name, at most three, and 0 for those that are missing.
pub fn numbers_of(words: &str) -> Result<[u64; 3], CaseError> {
    let mut numbers = [0; 3];
    if words.is_empty() {
        return Ok(numbers);
    }
    for (place, word) in words.split(' ').enumerate() {
        if place >= 3 {
            return Err(CaseError::Form);
        }
        numbers[place] = number_of(word)?;
    }
    Ok(numbers)
}

/// A number of 8 bits.
pub fn byte(number: u64) -> Result<u8, CaseError> {
    u8::try_from(number).map_err(|_| CaseError::Form)
}

/// A number of 16 bits.
pub fn word(number: u64) -> Result<u16, CaseError> {
    u16::try_from(number).map_err(|_| CaseError::Form)
}

/// A number of 32 bits.
pub fn dword(number: u64) -> Result<u32, CaseError> {
    u32::try_from(number).map_err(|_| CaseError::Form)
}
