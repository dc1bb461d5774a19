use crate::case::{CaseError, bytes_of, put_lines};
use std::alloc::{AllocError, Global};
use text_reader::number;
use vm_asm::{AsmError, assemble, disassemble, workload};
use vm_law::FlatImage;

/// The image of a text, or its first fault as it is printed.
fn assembled(alloc: Global, bytes: &[u8]) -> Result<Result<FlatImage, String>, CaseError> {
    if bytes.len() >= 0x1_0000_0000 {
        return Err(CaseError::Form);
    }
    match assemble(alloc, bytes) {
        Ok(image) => Ok(Ok(image)),
        Err(AsmError::Fault { line, kind }) => {
            let fault = format!(in alloc; "at {line}: {kind}")?;
            Ok(Err(fault))
        }
        Err(AsmError::Memory) => Err(CaseError::Memory),
    }
}

/// Adds bytes in hexadecimal digits; of more than 2,000 their number.
fn put_bytes(out: &mut String, bytes: &[u8]) -> Result<(), AllocError> {
    if bytes.len() > 2_000 {
        let length = bytes.len();
        return write!(out, "<{length}>");
    }
    for byte in bytes {
        write!(out, "{byte:02x}")?;
    }
    Ok(())
}

/// Adds an image.
fn put_image(out: &mut String, image: &FlatImage) -> Result<(), AllocError> {
    let (entry, code) = (image.entry, image.code);
    write!(out, "{entry} {code} ")?;
    put_bytes(out, image.payload.as_slice())
}

/// The image of a text.
pub fn image_outcome(alloc: Global, text: &str) -> Result<String, CaseError> {
    let bytes = bytes_of(alloc, text)?;
    match assembled(alloc, &bytes)? {
        Ok(image) => {
            let mut out = String::new(alloc);
            put_image(&mut out, &image)?;
            Ok(out)
        }
        Err(fault) => Ok(fault),
    }
}

/// The payload of a text.
pub fn code_outcome(alloc: Global, text: &str) -> Result<String, CaseError> {
    let bytes = bytes_of(alloc, text)?;
    match assembled(alloc, &bytes)? {
        Ok(image) => {
            let mut out = String::new(alloc);
            put_bytes(&mut out, image.payload.as_slice())?;
            Ok(out)
        }
        Err(fault) => Ok(fault),
    }
}

/// The text that a code part is given back as.
fn text_again(alloc: Global, code: &[u8]) -> Result<String, CaseError> {
    if code.is_empty() || code.len() > 16_777_216 {
        return Err(CaseError::Form);
    }
    let text = disassemble(alloc, code)?;
    Ok(text)
}

/// `ok` where the text of a text's payload is the text; else what it is.
pub fn same_outcome(alloc: Global, text: &str) -> Result<String, CaseError> {
    let mut bytes = bytes_of(alloc, text)?;
    bytes.push(b'\n')?;
    let mut out = String::new(alloc);
    match assembled(alloc, &bytes)? {
        Ok(image) => {
            let again = text_again(alloc, image.payload.as_slice())?;
            if again.as_str().as_bytes() == bytes.as_slice() {
                out.push_str("ok")?;
            } else {
                put_lines(&mut out, again.as_str())?;
            }
            Ok(out)
        }
        Err(fault) => Ok(fault),
    }
}

/// The text of bytes, and what they are assembled to again where it is something else.
pub fn text_outcome(alloc: Global, digits: &str) -> Result<String, CaseError> {
    let code = match hex::decode(alloc, digits) {
        Ok(code) => code,
        Err(hex::FromHexError::OutOfMemory) => return Err(CaseError::Memory),
        Err(_) => return Err(CaseError::Form),
    };
    let text = text_again(alloc, &code)?;
    let mut out = String::new(alloc);
    put_lines(&mut out, text.as_str())?;
    match assembled(alloc, text.as_str().as_bytes())? {
        Ok(image) if image.payload.as_slice() == code.as_slice() => {}
        Ok(image) => {
            out.push_str(" differs ")?;
            put_bytes(&mut out, image.payload.as_slice())?;
        }
        Err(fault) => {
            out.push_str(" differs ")?;
            out.push_str(fault.as_str())?;
        }
    }
    Ok(out)
}

/// The count of decimal digits.
fn count_of(digits: &str) -> Result<u32, CaseError> {
    match number(digits.as_bytes(), 10) {
        Some(n) if n < 0x1_0000_0000 => Ok(n as u32),
        _ => Err(CaseError::Form),
    }
}

/// The image of a workload.
pub fn workload_outcome(alloc: Global, text: &str) -> Result<String, CaseError> {
    let mut counts = Vec::new(alloc);
    for digits in text.split(',') {
        counts.push(count_of(digits)?)?;
    }
    if counts.is_empty() || counts.len() > 16 {
        return Err(CaseError::Form);
    }
    let image = workload(alloc, &counts)?;
    let mut out = String::new(alloc);
    put_image(&mut out, &image)?;
    Ok(out)
}
