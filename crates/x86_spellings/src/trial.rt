use crate::case::{Case, CaseError, Claim};
use crate::text::put_insn;
use std::alloc::{AllocError, Global};
use std::fmt::Write;
use vm_law::Insn;
use x86_decode::{DecodeFault, decode};
use x86_encode::{Labels, encode, encode_labelled, labelled, spelled};

/// Whether each proper front of the bytes is too short.
fn fronts_are_short(bytes: &[u8]) -> bool {
    for cut in 0..bytes.len() {
        if decode(&bytes[..cut]) != Err(DecodeFault::Short) {
            return false;
        }
    }
    true
}

/// Tries bytes that are no instruction.
fn try_unknown(bytes: &[u8], more: &[u8], out: &mut String) -> Result<(), AllocError> {
    if !fronts_are_short(bytes) {
        return out.push_str("a front isn't short");
    }
    if decode(bytes) != Err(DecodeFault::Unknown) || decode(more) != Err(DecodeFault::Unknown) {
        return out.push_str("not unknown");
    }
    out.push_str("ok")
}

/// The canonical spelling, if there is one.
fn canonical(insn: &Insn, into: &mut [u8; 15]) -> Option<u8> {
    if spelled(insn) {
        Some(encode(insn, into))
    } else {
        None
    }
}

/// The canonical spelling with labels, if there is one.
fn canonical_with(insn: &Insn, labels: Labels, into: &mut [u8; 15]) -> Option<u8> {
    if labelled(insn, labels) {
        Some(encode_labelled(insn, labels, into))
    } else {
        None
    }
}

/// Tries a canonical spelling against the one that was found.
fn try_canonical(
    found: Option<u8>,
    into: &[u8; 15],
    bytes: &[u8],
    out: &mut String,
) -> Result<(), AllocError> {
    let Some(count) = found else {
        return out.push_str("no spelling");
    };
    let written = into.get(..usize::from(count)).unwrap_or(&[]);
    if written == bytes {
        return out.push_str("ok");
    }
    out.push_str("canonical")?;
    for byte in written {
        write!(out, " {byte:02x}")?;
    }
    Ok(())
}

/// Tries an instruction's canonical spelling, which is read back and no longer.
fn try_again(insn: &Insn, length: u8, out: &mut String) -> Result<(), AllocError> {
    let mut into = [0xF3; 15];
    let Some(count) = canonical(insn, &mut into) else {
        return out.push_str("no spelling");
    };
    if count > length || decode(&into) != Ok((*insn, count)) {
        return out.push_str("not read back");
    }
    out.push_str("ok")
}

/// Tries what was decoded of a case's bytes.
fn try_insn(
    alloc: Global,
    case: &Case,
    insn: &Insn,
    length: u8,
    out: &mut String,
) -> Result<(), CaseError> {
    let mut text = String::new(alloc);
    put_insn(insn, &mut text)?;
    if text.as_str() != case.text.as_str() {
        write!(out, "spells {}", text.as_str())?;
        return Ok(());
    }
    let mut into = [0xF3; 15];
    let bytes = case.bytes.as_slice();
    match case.claim {
        Claim::Spelling | Claim::Unknown => try_again(insn, length, out)?,
        Claim::Canonical => {
            let found = canonical(insn, &mut into);
            try_canonical(found, &into, bytes, out)?;
        }
        Claim::Labelled(labels) => {
            let found = canonical_with(insn, labels, &mut into);
            try_canonical(found, &into, bytes, out)?;
        }
    }
    Ok(())
}

/// Tries a case, and says `ok` or what came instead.
pub fn try_case(alloc: Global, case: &Case, out: &mut String) -> Result<(), CaseError> {
    let bytes = case.bytes.as_slice();
    let mut more = bytes.to_vec(alloc)?;
    more.push(0x66)?;
    if case.claim == Claim::Unknown {
        try_unknown(bytes, more.as_slice(), out)?;
        return Ok(());
    }
    if !fronts_are_short(bytes) {
        out.push_str("a front isn't short")?;
        return Ok(());
    }
    match decode(more.as_slice()) {
        Err(fault) => write!(out, "{fault}")?,
        Ok((insn, length)) => {
            if usize::from(length) == bytes.len() {
                try_insn(alloc, case, &insn, length, out)?;
            } else {
                write!(out, "{length} bytes")?;
            }
        }
    }
    Ok(())
}
