//! Statements: directives and instructions.
ghost use Rattle.std.specs.Prelude.{◌≡◌, ◌<◌, ◌^◌, length};
ghost use Rattle.text_reader.specs.Word.{texts};
ghost use Rattle.asm_insn.specs.Spelling.{Speller, IsSpeller};
ghost use Rattle.vm_asm.specs.Statement.{instruction_of, directive_with, statement_of, Answers};

use crate::directive::{Directive, directed, directive_of};
use crate::fault::{AsmKind, Refusal};
use asm_insn::{Instruction, are_defined, is_defined_value, value_fits};
use asm_words::{Field, Operand, Value, first_word, mnemonic_of, operands_of};
use std::alloc::Global;
use vm_law::Width;

/// What a line says behind its label.
#[derive(Clone, Copy)]
pub enum Statement {
    Nothing,
    /// The entry is at this label.
    Entry(Value),
    /// The code part ends here.
    Data,
    /// Zeros up to this place.
    Org(i128),
    /// A number in so many bits.
    Number(Width, Value),
    Instruction(Instruction),
}

impl Statement {
    ghost use Rattle.vm_asm.specs.Statement.{is_defined, fits};
    ghost use Rattle.asm_insn.specs.Spelling.{Speller, IsSpeller};
    ghost use Rattle.std.specs.Prelude.{◌≡◌};

    /// Whether each label that it uses is defined.
    pub fn is_defined(&self) -> bool
        ensures { result ≡ is_defined self.now }
    {
        match self {
            Statement::Entry(value) => is_defined_value(*value),
            Statement::Number(_, value) => is_defined_value(*value),
            Statement::Instruction(instruction) => are_defined(&instruction.operands),
            _ => true,
        }
    }

    /// Whether each of its numbers is one that a field in its place can hold.
    pub fn fits(&self) -> bool
        ensures { (spell : Speller) → IsSpeller spell → result ≡ fits spell self.now }
    {
        match self {
            Statement::Number(width, value) => value_fits(Field::Whole(*width), *value),
            Statement::Instruction(instruction) => instruction.fits(),
            _ => true,
        }
    }
}

/// The instruction of a mnemonic and the text of its operands.
#[tactic(auto, unfolding(crate::specs::Statement::instruction_of))]
fn instruction_of(
    alloc: Global,
    names: &[&str],
    lock: bool,
    word: &str,
    rest: &str,
) -> Result<Statement, Refusal>
    requires { length names.now < 2 ^ 32 }
    ensures { (spell : Speller) → IsSpeller spell → Answers result (instruction_of spell (texts names.now) lock word.now rest.now) }
{
    let Some(mnemonic) = mnemonic_of(word) else {
        return Err(Refusal::Kind(AsmKind::Word));
    };
    let Some(operands) = operands_of(alloc, names, rest)? else {
        return Err(Refusal::Kind(AsmKind::Operand));
    };
    let instruction = Instruction {
        lock,
        mnemonic,
        operands,
    };
    if instruction.is_spelled() {
        Ok(Statement::Instruction(instruction))
    } else {
        Err(Refusal::Kind(AsmKind::Operand))
    }
}

/// The statement of a directive and the text of its operands.
#[tactic(auto, unfolding(crate::specs::Statement::directive_with))]
fn directive_with(
    alloc: Global,
    names: &[&str],
    directive: Directive,
    rest: &str,
) -> Result<Statement, Refusal>
    requires { length names.now < 2 ^ 32 }
    ensures { Answers result (directive_with (texts names.now) directive rest.now) }
{
    let Some(operands) = operands_of(alloc, names, rest)? else {
        return Err(Refusal::Kind(AsmKind::Operand));
    };
    match directed(directive, operands) {
        Some(statement) => Ok(statement),
        None => Err(Refusal::Kind(AsmKind::Operand)),
    }
}

/// The statement of a text without blanks at its ends.
#[tactic(auto, unfolding(crate::specs::Statement::statement_of))]
pub fn statement_of(alloc: Global, names: &[&str], text: &str) -> Result<Statement, Refusal>
    requires { length names.now < 2 ^ 32 }
    ensures { (spell : Speller) → IsSpeller spell → Answers result (statement_of spell (texts names.now) text.now) }
{
    if text.is_empty() {
        return Ok(Statement::Nothing);
    }
    let (word, rest) = first_word(text);
    if let Some(directive) = directive_of(word) {
        return directive_with(alloc, names, directive, rest);
    }
    if word == "lock" {
        let (word, rest) = first_word(rest);
        return instruction_of(alloc, names, true, word, rest);
    }
    instruction_of(alloc, names, false, word, rest)
}
