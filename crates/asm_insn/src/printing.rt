//! The text of an instruction.
ghost use Rattle.std.specs.Prelude.{◌≡◌, ◌++◌, OnOk, string_bytes};
ghost use Rattle.asm_insn.specs.Printing.{number_text, hex_text, value_text, offset_text, displacement_text, base_text, index_text, is_bare, place_text, inside_text, size_word, operand_text, operands_text, lock_text, instruction_text};

use crate::instruction::Instruction;
use crate::words::put_mnemonic;
use asm_words::{Memory, Operand, Operands, Value, high_name, width_name};
use std::alloc::AllocError;
use vm_law::{Loc, Width};

/// Adds a magnitude in hexadecimal digits behind `0x`.
pub fn put_hex(out: &mut String, n: u64) -> Result<(), AllocError>
    ensures { OnOk result (string_bytes out.new ≡ string_bytes out.old ++ hex_text n) }
{
    write!(out, "0x{n:x}")
}

/// Adds a number of at most 64 bits, with `-` before one below zero.
fn put_number(out: &mut String, n: i128) -> Result<(), AllocError>
    ensures { OnOk result (string_bytes out.new ≡ string_bytes out.old ++ number_text n) }
{
    let size = n.unsigned_abs().min(0xFFFF_FFFF_FFFF_FFFF) as u64;
    if n < 0 {
        out.push_str("-")?;
        return put_hex(out, size);
    }
    put_hex(out, size)
}

/// Adds a value, which is a number.
fn put_value(out: &mut String, value: Value) -> Result<(), AllocError>
    ensures { OnOk result (string_bytes out.new ≡ string_bytes out.old ++ value_text value) }
{
    match value {
        Value::Number(n) => put_number(out, n),
        _ => Ok(()),
    }
}

/// Adds a number behind another part, and nothing for 0.
fn put_offset(out: &mut String, n: i128) -> Result<(), AllocError>
    ensures { OnOk result (string_bytes out.new ≡ string_bytes out.old ++ offset_text n) }
{
    if n == 0 {
        return Ok(());
    }
    if n > 0 {
        out.push_str("+")?;
        return put_number(out, n);
    }
    put_number(out, n)
}

/// Adds a displacement behind another part.
fn put_displacement(out: &mut String, value: Value) -> Result<(), AllocError>
    ensures { OnOk result (string_bytes out.new ≡ string_bytes out.old ++ displacement_text value) }
{
    match value {
        Value::Number(n) => put_offset(out, n),
        _ => Ok(()),
    }
}

/// Adds a base, with `+` behind it where an index follows.
fn put_base(out: &mut String, base: Option<u8>, more: bool) -> Result<(), AllocError>
    ensures { OnOk result (string_bytes out.new ≡ string_bytes out.old ++ base_text base more) }
{
    let Some(base) = base else {
        return Ok(());
    };
    out.push_str(width_name(Width::Q, base))?;
    if more {
        return out.push_str("+");
    }
    Ok(())
}

/// Adds an index with its factor.
fn put_index(out: &mut String, index: Option<u8>, scale: i128) -> Result<(), AllocError>
    ensures { OnOk result (string_bytes out.new ≡ string_bytes out.old ++ index_text index scale) }
{
    let Some(index) = index else {
        return Ok(());
    };
    out.push_str(width_name(Width::Q, index))?;
    out.push_str("*")?;
    put_number(out, scale)
}

/// Whether a place has neither a base nor an index.
fn is_bare(memory: &Memory) -> bool
    ensures { result ≡ is_bare memory.now }
{
    memory.base.is_none() && memory.index.is_none()
}

/// Adds a place that doesn't count from the next instruction.
fn put_place(out: &mut String, memory: &Memory) -> Result<(), AllocError>
    ensures { OnOk result (string_bytes out.new ≡ string_bytes out.old ++ place_text memory.now) }
{
    if is_bare(memory) {
        return put_value(out, memory.displacement);
    }
    put_base(out, memory.base, memory.index.is_some())?;
    put_index(out, memory.index, memory.scale)?;
    put_displacement(out, memory.displacement)
}

/// Adds what stands between the brackets.
fn put_inside(out: &mut String, memory: &Memory) -> Result<(), AllocError>
    ensures { OnOk result (string_bytes out.new ≡ string_bytes out.old ++ inside_text memory.now) }
{
    if memory.rip {
        out.push_str("rip")?;
        return put_displacement(out, memory.displacement);
    }
    put_place(out, memory)
}

/// The word for a width of memory.
fn size_word(width: Option<Width>) -> &'static str
    ensures { result.now ≡ size_word width }
{
    match width {
        None => "",
        Some(Width::B) => "byte ",
        Some(Width::W) => "word ",
        Some(Width::D) => "dword ",
        Some(Width::Q) => "qword ",
    }
}

/// Adds an operand.
fn put_operand(out: &mut String, operand: &Operand) -> Result<(), AllocError>
    ensures { OnOk result (string_bytes out.new ≡ string_bytes out.old ++ operand_text operand.now) }
{
    match operand {
        Operand::Register(_, Loc::High(number)) => out.push_str(high_name(*number)),
        Operand::Register(width, Loc::Reg(number)) => out.push_str(width_name(*width, *number)),
        Operand::Register(_, Loc::Mem(_)) => Ok(()),
        Operand::Memory(width, memory) => {
            out.push_str(size_word(*width))?;
            out.push_str("[")?;
            put_inside(out, memory)?;
            out.push_str("]")
        }
        Operand::Value(value) => put_value(out, *value),
        Operand::Distance(n) => {
            out.push_str("rel ")?;
            put_number(out, *n)
        }
    }
}

/// Adds a space and the operands with commas between them.
fn put_operands(out: &mut String, operands: &Operands) -> Result<(), AllocError>
    ensures { OnOk result (string_bytes out.new ≡ string_bytes out.old ++ operands_text operands.now) }
{
    match operands {
        Operands::None => Ok(()),
        Operands::One(a) => {
            out.push_str(" ")?;
            put_operand(out, a)
        }
        Operands::Two(a, b) => {
            out.push_str(" ")?;
            put_operand(out, a)?;
            out.push_str(",")?;
            put_operand(out, b)
        }
        Operands::Three(a, b, c) => {
            out.push_str(" ")?;
            put_operand(out, a)?;
            out.push_str(",")?;
            put_operand(out, b)?;
            out.push_str(",")?;
            put_operand(out, c)
        }
    }
}

/// Adds LOCK, where it stands.
fn put_lock(out: &mut String, lock: bool) -> Result<(), AllocError>
    ensures { OnOk result (string_bytes out.new ≡ string_bytes out.old ++ lock_text lock) }
{
    if lock {
        return out.push_str("lock ");
    }
    Ok(())
}

/// Adds the statement of an instruction.
pub fn put_instruction(out: &mut String, instruction: &Instruction) -> Result<(), AllocError>
    ensures { OnOk result (string_bytes out.new ≡ string_bytes out.old ++ instruction_text instruction.now) }
{
    put_lock(out, instruction.lock)?;
    put_mnemonic(out, &instruction.mnemonic)?;
    put_operands(out, &instruction.operands)
}
