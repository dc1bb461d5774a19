//! A code part as text.
ghost use Rattle.std.specs.Prelude.{◌≡◌, ◌<◌, ◌≤◌, ◌++◌, true, length, IfOk, OnOk, string_bytes};
ghost use Rattle.x86_encode.specs.Canonical.{HasSpelling};
ghost use Rattle.vm_asm.specs.Disassembly.{IsFirst, Piece, byte, instruction, piece_text, AddsSpelled, code_alone, IsAssembledTo, IsDisassembly};

use crate::assembling::assemble;
use asm_insn::{put_hex, put_instruction, taken_apart};
use std::alloc::{AllocError, Global};
use vm_law::{FlatImage, Insn, OutOfMemory};
use x86_decode::decode;
use x86_encode::encode;

/// Adds the line of an instruction.
fn put_line(out: &mut String, insn: &Insn) -> Result<(), AllocError>
    ensures { OnOk result (string_bytes out.new ≡ string_bytes out.old ++ piece_text (instruction insn.now)) }
{
    put_instruction(out, &taken_apart(insn))?;
    out.push('\n')
}

/// Adds the line of a byte at which no instruction stands.
fn put_byte(out: &mut String, b: u8) -> Result<(), AllocError>
    ensures { OnOk result (string_bytes out.new ≡ string_bytes out.old ++ piece_text (byte b)) }
{
    out.push_str(".byte ")?;
    put_hex(out, u64::from(b))?;
    out.push('\n')
}

/// Adds the canonical spelling of an instruction.
fn put_canonical(bytes: &mut Vec<u8>, insn: &Insn) -> Result<(), AllocError>
    requires { HasSpelling insn.now }
    ensures { OnOk result (AddsSpelled (instruction insn.now) bytes.old.items bytes.new.items) }
{
    let mut spelling = [0u8; 15];
    let count = encode(insn, &mut spelling);
    bytes.extend_from_slice(&spelling[..usize::from(count)])?;
    Ok(())
}

/// Adds the line of what the code begins with, an instruction or a single byte, and the bytes that this line is to be
/// assembled to, and answers how many bytes of the code it is of.
fn put_first(text: &mut String, bytes: &mut Vec<u8>, code: &[u8]) -> Result<usize, AllocError>
    requires { 0 < length code.now }
    ensures read { IfOk result (λ n. (p : Piece) × IsFirst p n code.now × AddsSpelled p bytes.old.items bytes.new.items
        × (string_bytes text.new ≡ string_bytes text.old ++ piece_text p)) }
    ensures some { IfOk result (λ n. 0 < n) }
    ensures within { IfOk result (λ n. n ≤ length code.now) }
{
    match decode(code) {
        Ok((insn, count)) => {
            put_line(text, &insn)?;
            put_canonical(bytes, &insn)?;
            Ok(usize::from(count))
        }
        Err(_) => {
            put_byte(text, code[0])?;
            bytes.push(code[0])?;
            Ok(1)
        }
    }
}

/// Whether an image is these bytes, all of them code, and is entered at their begin.
fn is_code(image: &FlatImage, bytes: &[u8]) -> bool
    ensures { result ≡ true → image.now ≡ code_alone bytes.now }
{
    image.entry == 0 && image.code == bytes.len() as u64 && image.payload.as_slice() == bytes
}

/// Whether a text was assembled to these bytes; not so too where memory was refused.
fn comes_back(alloc: Global, text: &str, bytes: &[u8]) -> bool
    ensures { result ≡ true → IsAssembledTo text.now bytes.now }
{
    if text.len() > 0xFFFF_FFFF {
        return false;
    }
    match assemble(alloc, text.as_bytes()) {
        Ok(image) => is_code(&image, bytes),
        Err(_) => false,
    }
}

/// A code part as text: a line for each instruction, one after the other, and `.byte` for each byte at which none stands.
///
/// The text is assembled again before it is answered, so what is answered gives the canonical spellings of the
/// instructions, and the single bytes. `OutOfMemory` may be the answer to any code.
pub fn disassemble(alloc: Global, code: &[u8]) -> Result<String, OutOfMemory>
    requires some { 0 < length code.now }
    requires few { length code.now ≤ 16777216 }
    ensures { IfOk result (λ text. IsDisassembly code.now (string_bytes text)) }
{
    let mut text = String::new(alloc);
    let mut bytes = Vec::new(alloc);
    let mut at = 0usize;
    while at < code.len() {
        at += put_first(&mut text, &mut bytes, &code[at..])?;
    }
    if comes_back(alloc, text.as_str(), &bytes) {
        Ok(text)
    } else {
        Err(OutOfMemory)
    }
}
