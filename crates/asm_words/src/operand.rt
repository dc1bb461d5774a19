//! Operands of instructions and directives.
ghost use Rattle.std.specs.Prelude.{◌≡◌, ◌<◌, ◌^◌, length, IfOk, option_map};
ghost use Rattle.text_reader.specs.Word.{texts};
ghost use Rattle.asm_words.specs.Operand.{size_of, distance_of, place_of, bracketed, word_of, operand_of, each_of, few, operands_of};

use crate::blank::{first_word, parts_at, trimmed};
use crate::label::{Value, value_of};
use crate::memory::{Memory, memory_of};
use crate::number::number_of;
use crate::register::register_of;
use std::alloc::Global;
use text_reader::cut_at;
use vm_law::{Loc, OutOfMemory, Width};

/// An operand, as it is written.
#[derive(Clone, Copy)]
pub enum Operand {
    /// A register with its width.
    Register(Width, Loc),
    /// A place in memory, with the width that stands before it, if one does.
    Memory(Option<Width>, Memory),
    /// A number or a label.
    Value(Value),
    /// How far a jump goes from the next instruction on.
    Distance(i128),
}

/// The operands of an instruction.
#[derive(Clone, Copy)]
pub enum Operands {
    None,
    One(Operand),
    Two(Operand, Operand),
    Three(Operand, Operand, Operand),
}

/// The width that a word before a bracket says: `None` in `Some` where there is no word.
fn size_of(word: &str) -> Option<Option<Width>>
    ensures { result ≡ size_of word.now }
{
    match word {
        "" => Some(None),
        "byte" => Some(Some(Width::B)),
        "word" => Some(Some(Width::W)),
        "dword" => Some(Some(Width::D)),
        "qword" => Some(Some(Width::Q)),
        _ => None,
    }
}

/// What stands before the first `[`, and what stands between it and a `]` at the end.
fn bracketed(text: &str) -> Option<(&str, &str)>
    ensures { option_map (λ p. (p.0.now, p.1.now)) result ≡ bracketed text.now }
{
    let (front, rest) = cut_at(text, '[')?;
    let (inside, end) = cut_at(rest, ']')?;
    if end.is_empty() {
        Some((front, inside))
    } else {
        None
    }
}

/// An operand in memory, by the word before the brackets and by what stands in them.
fn place_of(
    alloc: Global,
    names: &[&str],
    word: &str,
    inside: &str,
) -> Result<Option<Operand>, OutOfMemory>
    requires { length names.now < 2 ^ 32 }
    ensures { IfOk result (λ operand. operand ≡ place_of (texts names.now) word.now inside.now) }
{
    let Some(width) = size_of(trimmed(word)) else {
        return Ok(None);
    };
    match memory_of(alloc, names, inside)? {
        Some(memory) => Ok(Some(Operand::Memory(width, memory))),
        None => Ok(None),
    }
}

/// `rel` and a number.
fn distance_of(text: &str) -> Option<Operand>
    ensures { result ≡ distance_of text.now }
{
    let (word, rest) = first_word(text);
    if word == "rel" {
        let n = number_of(rest)?;
        Some(Operand::Distance(n))
    } else {
        None
    }
}

/// An operand without brackets.
fn word_of(names: &[&str], text: &str) -> Option<Operand>
    requires { length names.now < 2 ^ 32 }
    ensures { result ≡ word_of (texts names.now) text.now }
{
    if let Some((width, register)) = register_of(text) {
        return Some(Operand::Register(width, register));
    }
    if let Some(value) = value_of(names, text) {
        return Some(Operand::Value(value));
    }
    distance_of(text)
}

/// The operand of a text that has no blank at its ends.
#[tactic(auto, unfolding(crate::specs::Operand::operand_of))]
fn operand_of(alloc: Global, names: &[&str], text: &str) -> Result<Option<Operand>, OutOfMemory>
    requires { length names.now < 2 ^ 32 }
    ensures { IfOk result (λ operand. operand ≡ operand_of (texts names.now) text.now) }
{
    match bracketed(text) {
        Some((word, inside)) => place_of(alloc, names, word, inside),
        None => Ok(word_of(names, text)),
    }
}

/// The operands of these texts, each with blanks round it or not.
fn each_of(
    alloc: Global,
    names: &[&str],
    parts: &[&str],
) -> Result<Option<Vec<Operand>>, OutOfMemory>
    requires { length names.now < 2 ^ 32 }
    ensures { IfOk result (λ operands. option_map (λ v. v.items) operands ≡ each_of (texts names.now) (texts parts.now)) }
{
    let mut operands = Vec::new(alloc);
    for part in parts {
        let Some(operand) = operand_of(alloc, names, trimmed(part))? else {
            return Ok(None);
        };
        operands.push(operand)?;
    }
    Ok(Some(operands))
}

/// At most three operands.
fn few(operands: &[Operand]) -> Option<Operands>
    ensures { result ≡ few operands.now }
{
    match operands {
        [] => Some(Operands::None),
        [a] => Some(Operands::One(*a)),
        [a, b] => Some(Operands::Two(*a, *b)),
        [a, b, c] => Some(Operands::Three(*a, *b, *c)),
        _ => None,
    }
}

/// The operands that commas separate in a text without blanks at its ends, at most three; none where it is empty.
#[tactic(auto, unfolding(crate::specs::Operand::operands_of))]
pub fn operands_of(
    alloc: Global,
    names: &[&str],
    text: &str,
) -> Result<Option<Operands>, OutOfMemory>
    requires { length names.now < 2 ^ 32 }
    ensures { IfOk result (λ operands. operands ≡ operands_of (texts names.now) text.now) }
{
    if text.is_empty() {
        return Ok(Some(Operands::None));
    }
    let parts = parts_at(alloc, text, ',')?;
    match each_of(alloc, names, &parts)? {
        Some(operands) => Ok(few(&operands)),
        None => Ok(None),
    }
}
