use crate::bench::Bench;
use std::alloc::{AllocError, Global};
use std::fmt::Write;
use thiserror::Error;

/// Why a case wasn't run to its end.
#[derive(Debug, Drop, Error)]
pub enum CaseError {
    #[error("no case")]
    Form,
    #[error("out of memory")]
    Memory,
}

impl From<AllocError> for CaseError {
    fn from(_error: AllocError) -> CaseError {
        CaseError::Memory
    }
}

/// The bytes that pairs of hexadecimal digits name.
pub fn bytes_of(alloc: Global, digits: &str) -> Result<Vec<u8>, CaseError> {
    match hex::decode(alloc, digits) {
        Ok(bytes) => Ok(bytes),
        Err(hex::FromHexError::OutOfMemory) => Err(CaseError::Memory),
        Err(_) => Err(CaseError::Form),
    }
}

/// The number that hexadecimal digits name.
pub fn number_of(digits: &str) -> Result<u64, CaseError> {
    match u64::from_str_radix(digits, 16) {
        Ok(number) => Ok(number),
        Err(_) => Err(CaseError::Form),
    }
}

/// The numbers after a command's name, and 0 for those that it lacks.
pub fn numbers_of(fields: &str) -> Result<[u64; 5], CaseError> {
    let mut numbers = [0; 5];
    for (place, digits) in fields.split(':').enumerate() {
        if place >= 5 {
            return Err(CaseError::Form);
        }
        numbers[place] = number_of(digits)?;
    }
    Ok(numbers)
}

/// Carries out the words of a case, and says whether each gave what it must.
pub fn check(alloc: Global, bench: &mut Bench, line: &str) -> Result<String, CaseError> {
    let mut compared = 0u64;
    for word in line.split(' ') {
        let (command, want) = match word.split_once('>') {
            Some((command, want)) => (command, Some(want)),
            None => (word, None),
        };
        let mut gave = String::new(alloc);
        bench.run(alloc, command, &mut gave)?;
        if let Some(want) = want {
            if gave.as_str() != want {
                return Ok(format!(in alloc; "differs: {word} gave {gave}")?);
            }
            compared = compared.saturating_add(1);
        }
    }
    Ok(format!(in alloc; "ok {compared}")?)
}
