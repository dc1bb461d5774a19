//! Places in memory: what stands in brackets.
ghost use Rattle.std.specs.Prelude.{◌≡◌, ◌<◌, ◌^◌, length, IfOk, option_map};
ghost use Rattle.text_reader.specs.Word.{texts};
ghost use Rattle.asm_words.specs.Memory.{index_of, term_of, with_term, of_terms, before_minus, with_minus, memory_of, nowhere, rank_of};

use crate::blank::{parts_at, trimmed};
use crate::label::{Value, value_of};
use crate::number::{magnitude, number_of};
use crate::register::pointer_of;
use std::alloc::Global;
use text_reader::cut_at;
use vm_law::OutOfMemory;

/// A place in memory, as it is written.
#[derive(Clone, Copy)]
pub struct Memory {
    /// Whether it counts from the next instruction.
    pub rip: bool,
    pub base: Option<u8>,
    pub index: Option<u8>,
    /// The index's factor; 1 where there is no index.
    pub scale: i128,
    /// 0 where it is left out.
    pub displacement: Value,
}

/// A part of a place in memory.
#[derive(Clone, Copy)]
enum Term {
    Rip,
    Base(u8),
    Index(u8, i128),
    Displacement(Value),
}

/// A place, and how far its parts have come: 1 behind `rip` or the base, 2 behind the index, 3 behind the displacement.
#[derive(Clone, Copy)]
struct Begun {
    memory: Memory,
    rank: u8,
}

const NOWHERE: Begun = Begun {
    memory: Memory {
        rip: false,
        base: None,
        index: None,
        scale: 1,
        displacement: Value::Number(0),
    },
    rank: 0,
};

/// A register and its factor.
fn index_of(register: &str, scale: &str) -> Option<Term>
    ensures { result ≡ index_of register.now scale.now }
{
    let register = pointer_of(trimmed(register))?;
    let scale = number_of(trimmed(scale))?;
    Some(Term::Index(register, scale))
}

/// The part that a text is.
fn term_of(names: &[&str], text: &str) -> Option<Term>
    requires { length names.now < 2 ^ 32 }
    ensures { result ≡ term_of (texts names.now) text.now }
{
    if text == "rip" {
        return Some(Term::Rip);
    }
    if let Some((register, scale)) = cut_at(text, '*') {
        return index_of(register, scale);
    }
    if let Some(register) = pointer_of(text) {
        return Some(Term::Base(register));
    }
    let value = value_of(names, text)?;
    Some(Term::Displacement(value))
}

/// Which parts may stand behind which.
fn rank_of(term: Term) -> u8
    ensures { result ≡ rank_of term }
{
    match term {
        Term::Rip | Term::Base(_) => 1,
        Term::Index(_, _) => 2,
        Term::Displacement(_) => 3,
    }
}

/// The place with one part more, where that part may stand there.
fn with_term(begun: Begun, term: Term) -> Option<Begun>
    ensures { result ≡ with_term begun term }
{
    let rank = rank_of(term);
    if rank <= begun.rank {
        return None;
    }
    let memory = begun.memory;
    let memory = match term {
        Term::Rip => Memory {
            rip: true,
            ..memory
        },
        Term::Base(register) => Memory {
            base: Some(register),
            ..memory
        },
        Term::Index(_, _) if memory.rip => return None,
        Term::Index(register, scale) => Memory {
            index: Some(register),
            scale,
            ..memory
        },
        Term::Displacement(displacement) => Memory {
            displacement,
            ..memory
        },
    };
    Some(Begun { memory, rank })
}

/// The place of these parts, each with blanks round it or not.
fn of_terms(names: &[&str], parts: &[&str]) -> Option<Begun>
    requires { length names.now < 2 ^ 32 }
    ensures { result ≡ of_terms (texts names.now) nowhere (texts parts.now) }
{
    let mut begun = NOWHERE;
    for part in parts {
        let term = term_of(names, trimmed(part))?;
        begun = with_term(begun, term)?;
    }
    Some(begun)
}

/// The place before a displacement that a `-` stands before; nothing may stand there.
fn before_minus(alloc: Global, names: &[&str], text: &str) -> Result<Option<Begun>, OutOfMemory>
    requires { length names.now < 2 ^ 32 }
    ensures { IfOk result (λ begun. begun ≡ before_minus (texts names.now) text.now) }
{
    if trimmed(text).is_empty() {
        return Ok(Some(NOWHERE));
    }
    let parts = parts_at(alloc, text, '+')?;
    Ok(of_terms(names, &parts))
}

/// The place with a displacement below zero.
fn with_minus(begun: Option<Begun>, digits: &str) -> Option<Memory>
    ensures { result ≡ with_minus begun digits.now }
{
    let n = magnitude(trimmed(digits))?;
    let begun = with_term(begun?, Term::Displacement(Value::Number(-(n as i128))))?;
    Some(begun.memory)
}

/// The place in memory of a text between brackets.
#[tactic(auto, unfolding(crate::specs::Memory::memory_of))]
pub fn memory_of(alloc: Global, names: &[&str], text: &str) -> Result<Option<Memory>, OutOfMemory>
    requires { length names.now < 2 ^ 32 }
    ensures { IfOk result (λ memory. memory ≡ memory_of (texts names.now) text.now) }
{
    if let Some((front, digits)) = cut_at(text, '-') {
        let begun = before_minus(alloc, names, front)?;
        return Ok(with_minus(begun, digits));
    }
    let parts = parts_at(alloc, text, '+')?;
    match of_terms(names, &parts) {
        Some(begun) => Ok(Some(begun.memory)),
        None => Ok(None),
    }
}
