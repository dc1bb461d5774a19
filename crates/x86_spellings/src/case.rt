use std::alloc::{AllocError, AllocFailed, Global};
use thiserror::Error;
use x86_encode::Labels;

/// What a line says of its bytes.
#[derive(Clone, Copy, PartialEq, Eq)]
pub enum Claim {
    /// They spell an instruction.
    Spelling,
    /// They are the canonical spelling of one.
    Canonical,
    /// They are the canonical spelling of one with labels.
    Labelled(Labels),
    /// They are no instruction, and no beginning of one.
    Unknown,
}

/// A line of input.
#[derive(Drop)]
pub struct Case {
    pub claim: Claim,
    pub bytes: Vec<u8>,
    /// The instruction.
    pub text: String,
}

/// Why a line can't be tried.
#[derive(Debug, Drop, Error)]
pub enum CaseError {
    #[error("no case")]
    Form,
    #[error("out of memory")]
    Memory,
}

impl From<AllocError> for CaseError {
    fn from(_error: AllocError) -> CaseError {
        CaseError::Memory
    }
}

impl<T: Drop> From<AllocFailed<T>> for CaseError {
    fn from(_error: AllocFailed<T>) -> CaseError {
        CaseError::Memory
    }
}

/// The bytes that pairs of hexadecimal digits name.
fn bytes_of(alloc: Global, digits: &str) -> Result<Vec<u8>, CaseError> {
    match hex::decode(alloc, digits) {
        Ok(bytes) => Ok(bytes),
        Err(hex::FromHexError::OutOfMemory) => Err(CaseError::Memory),
        Err(_) => Err(CaseError::Form),
    }
}

fn claim_of(word: &str) -> Option<Claim> {
    let labels = |displacement: bool, immediate: bool| {
        Claim::Labelled(Labels {
            displacement,
            immediate,
        })
    };
    match word {
        "spelling" => Some(Claim::Spelling),
        "canonical" => Some(Claim::Canonical),
        "displacement" => Some(labels(true, false)),
        "immediate" => Some(labels(false, true)),
        "both" => Some(labels(true, true)),
        "unknown" => Some(Claim::Unknown),
        _ => None,
    }
}

impl Case {
    /// The case of a line.
    pub fn parse(alloc: Global, line: &str) -> Result<Case, CaseError> {
        let (word, rest) = line.split_once(' ').ok_or(CaseError::Form)?;
        let claim = claim_of(word).ok_or(CaseError::Form)?;
        let (digits, text) = rest.split_once(' ').unwrap_or((rest, ""));
        let bytes = bytes_of(alloc, digits)?;
        let text = text.to_owned(alloc)?;
        Ok(Case { claim, bytes, text })
    }
}
