use std::alloc::{AllocError, AllocFailed, Global};
use text_reader::digit;
use thiserror::Error;
use vm_law::OutOfMemory;

/// Why a case wasn't read.
#[derive(Debug, Drop, Error)]
pub enum CaseError {
    #[error("no case")]
    Form,
    #[error("out of memory")]
    Memory,
}

impl From<AllocError> for CaseError {
    fn from(_error: AllocError) -> CaseError {
        CaseError::Memory
    }
}

impl<T: Drop> From<AllocFailed<T>> for CaseError {
    fn from(_error: AllocFailed<T>) -> CaseError {
        CaseError::Memory
    }
}

impl From<OutOfMemory> for CaseError {
    fn from(_error: OutOfMemory) -> CaseError {
        CaseError::Memory
    }
}

/// The byte of two hexadecimal digits.
fn byte_of(high: u8, low: u8) -> Result<u8, CaseError> {
    let (Some(high), Some(low)) = (digit(high, 16), digit(low, 16)) else {
        return Err(CaseError::Form);
    };
    Ok(high * 16 + low)
}

/// The byte that a text begins with, spelled by itself or behind a backslash, and what follows.
fn first_byte(text: &[u8]) -> Result<(u8, &[u8]), CaseError> {
    match text {
        [b'\\', b'n', rest @ ..] => Ok((b'\n', rest)),
        [b'\\', b'r', rest @ ..] => Ok((b'\r', rest)),
        [b'\\', b't', rest @ ..] => Ok((b'\t', rest)),
        [b'\\', b'\\', rest @ ..] => Ok((b'\\', rest)),
        [b'\\', b'x', high, low, rest @ ..] => Ok((byte_of(*high, *low)?, rest)),
        [b'\\', ..] => Err(CaseError::Form),
        [b, rest @ ..] => Ok((*b, rest)),
        [] => Err(CaseError::Form),
    }
}

/// Adds a text in which nothing is repeated.
fn add_plain(out: &mut Vec<u8>, text: &[u8]) -> Result<(), CaseError> {
    let mut rest = text;
    for _ in 0..text.len() {
        if rest.is_empty() {
            return Ok(());
        }
        let (byte, after) = first_byte(rest)?;
        out.push(byte)?;
        rest = after;
    }
    Ok(())
}

/// The text before the first of a byte, and after it.
fn cut(text: &[u8], at: u8) -> Result<(&[u8], &[u8]), CaseError> {
    for (k, b) in text.iter().enumerate() {
        if *b == at {
            return Ok((&text[..k], &text[k + 1..]));
        }
    }
    Err(CaseError::Form)
}

/// The number of decimal digits, at most 100,000,000.
pub fn number_of(digits: &[u8]) -> Result<u32, CaseError> {
    match text_reader::number(digits, 10) {
        Some(n) if n <= 100_000_000 => Ok(n as u32),
        _ => Err(CaseError::Form),
    }
}

/// Adds what `N{TEXT}` at the text's begin repeats, and answers what follows.
fn add_repeated<'a>(out: &mut Vec<u8>, text: &'a [u8]) -> Result<&'a [u8], CaseError> {
    let (times, text) = cut(text, b'{')?;
    let (piece, rest) = cut(text, b'}')?;
    for _ in 0..number_of(times)? {
        add_plain(out, piece)?;
    }
    Ok(rest)
}

/// The bytes that a text of a case spells.
pub fn bytes_of(alloc: Global, text: &str) -> Result<Vec<u8>, CaseError> {
    let mut out = Vec::new(alloc);
    let mut rest = text.as_bytes();
    for _ in 0..text.len() {
        rest = match rest {
            [] => return Ok(out),
            [b'\\', b'*', after @ ..] => add_repeated(&mut out, after)?,
            [b'\\', b'p', after @ ..] => {
                out.extend_from_slice(b"VMFLAT1\n")?;
                after
            }
            _ => {
                let (byte, after) = first_byte(rest)?;
                out.push(byte)?;
                after
            }
        };
    }
    Ok(out)
}
