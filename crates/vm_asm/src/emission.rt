//! The bytes of statements, once each label has its place.
ghost use Rattle.std.specs.Prelude.{◌≡◌, ◌++◌, ◌-◌, [], length, replicate, IfOk, OnOk};
ghost use Rattle.asm_insn.specs.Spelling.{Speller, IsSpeller};
ghost use Rattle.byteorder.specs.Endian.{little_bytes};
ghost use Rattle.vm_asm.specs.Layout.{bytes_of, end_behind, Assembles};
ghost use Rattle.asm_words.specs.Number.{bits_in};
ghost use Rattle.asm_insn.specs.Instruction.{spelled_with};
ghost use Rattle.vm_asm.specs.Assembly.{statement_bytes, put, put_all, error_in, Adds, Puts};

use crate::fault::{AsmError, AsmKind, Refusal};
use crate::layout::{Placed, bytes_of};
use crate::spelling::put_spelling;
use crate::statement::Statement;
use asm_insn::{Instruction, resolved};
use asm_words::bits_in;
use byteorder::{ByteOrder, LittleEndian};
use std::alloc::{AllocError, Global};
use vm_law::Width;

/// Adds zeros up to a place.
fn put_zeros(out: &mut Vec<u8>, end: usize) -> Result<(), AllocError>
    ensures { OnOk result (out.new.items ≡ out.old.items ++ replicate (end - length out.old.items) 0) }
{
    if out.len() < end {
        out.resize(end, 0)?;
    }
    Ok(())
}

/// Adds a number in so many bits, its low byte first.
fn put_number(out: &mut Vec<u8>, width: Width, n: i128) -> Result<(), AllocError>
    ensures { OnOk result (out.new.items ≡ out.old.items ++ little_bytes (bytes_of width) (bits_in width n)) }
{
    let mut bytes = [0u8; 8];
    LittleEndian::write_u64(&mut bytes, bits_in(width, n));
    out.extend_from_slice(&bytes[..bytes_of(width) as usize])?;
    Ok(())
}

/// Adds the bytes of an instruction, where the next one stands at `next`.
fn put_instruction(
    out: &mut Vec<u8>,
    places: &[Option<u32>],
    next: u32,
    instruction: &Instruction,
) -> Result<(), Refusal>
    ensures { (spell : Speller) → IsSpeller spell → Adds out.old.items out.new.items result (spelled_with spell instruction.now places.now next) }
{
    match instruction.insn(places, u64::from(next)) {
        Some(insn) => put_spelling(out, instruction.labels(), &insn),
        None => Err(Refusal::Kind(AsmKind::Range)),
    }
}

/// Adds the bytes of a statement up to its end.
#[tactic(auto, unfolding(crate::specs::Assembly::statement_bytes))]
fn put_statement(
    out: &mut Vec<u8>,
    places: &[Option<u32>],
    end: u32,
    statement: &Statement,
) -> Result<(), Refusal>
    ensures { (spell : Speller) → IsSpeller spell → Adds out.old.items out.new.items result (statement_bytes spell places.now (length out.old.items) end statement.now) }
{
    match statement {
        Statement::Org(_) => Ok(put_zeros(out, end as usize)?),
        Statement::Number(width, value) => {
            let n = resolved(*value, places, 0);
            Ok(put_number(out, *width, n)?)
        }
        Statement::Instruction(instruction) => put_instruction(out, places, end, instruction),
        _ => Ok(()),
    }
}

/// Adds the bytes of a statement; `Range` where they don't end where the layout says.
#[tactic(auto, unfolding(crate::specs::Assembly::put))]
fn put_placed(out: &mut Vec<u8>, places: &[Option<u32>], placed: &Placed) -> Result<(), Refusal>
    ensures bytes { (spell : Speller) → IsSpeller spell → Puts out.new.items result (put spell places.now out.old.items placed.now) }
    ensures end { OnOk result (length out.new.items ≡ placed.now.end) }
{
    put_statement(out, places, placed.end, &placed.statement)?;
    if out.len() == placed.end as usize {
        Ok(())
    } else {
        Err(Refusal::Kind(AsmKind::Range))
    }
}

/// The error of a refused line.
fn error_in(line: u32, refusal: Refusal) -> AsmError
    ensures { result ≡ error_in line refusal }
{
    match refusal {
        Refusal::Kind(kind) => AsmError::Fault { line, kind },
        Refusal::Memory => AsmError::Memory,
    }
}

/// The bytes of statements one after the other, where labels have these places.
pub fn bytes_with(
    alloc: Global,
    places: &[Option<u32>],
    statements: &[Placed],
) -> Result<Vec<u8>, AsmError>
    ensures bytes { (spell : Speller) → IsSpeller spell → Assembles (λ out. out.items) result (put_all spell places.now [] statements.now) }
    ensures end { IfOk result (λ out. length out.items ≡ end_behind 0 statements.now) }
{
    let mut out = Vec::new(alloc);
    for placed in statements {
        match put_placed(&mut out, places, placed) {
            Ok(()) => {}
            Err(refusal) => return Err(error_in(placed.line, refusal)),
        }
    }
    Ok(out)
}
