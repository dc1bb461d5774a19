//! The numbers that stand for the values of operands, once each label has its place.
ghost use Rattle.std.specs.Prelude.{◌≡◌};
ghost use Rattle.asm_insn.specs.Resolving.{is_jump, place_at, resolved, operand_number, argument_with, arguments_with, sampled};

use crate::argument::{Argument, Arguments, argument_of};
use asm_words::{Form, Mnemonic, Operand, Operands, Value};

/// Whether a label among the operands stands for how far it is away.
pub fn is_jump(mnemonic: Mnemonic) -> bool
    ensures { result ≡ is_jump mnemonic }
{
    matches!(
        mnemonic,
        Mnemonic::Jcc(_) | Mnemonic::Form(Form::Jmp) | Mnemonic::Form(Form::Call)
    )
}

/// The place of a label, and 0 where it has none yet.
pub fn place_at(places: &[Option<u32>], label: u32) -> u32
    ensures { result ≡ place_at places.now label }
{
    match places.get(label as usize) {
        Some(Some(place)) => *place,
        _ => 0,
    }
}

/// The number of a value: of a label how far its place is from another.
pub fn resolved(value: Value, places: &[Option<u32>], from: u64) -> i128
    ensures { result ≡ resolved value places.now from }
{
    match value {
        Value::Number(n) => n,
        Value::Label(label) => i128::from(place_at(places, label)) - i128::from(from),
        Value::Undefined => 0,
    }
}

/// The number of an operand, where labels have these places and the next instruction stands at `next`.
fn operand_number(operand: &Operand, places: &[Option<u32>], next: u64, jump: bool) -> i128
    ensures { result ≡ operand_number operand.now places.now next jump }
{
    match operand {
        Operand::Register(_, _) => 0,
        Operand::Memory(_, memory) if memory.rip => resolved(memory.displacement, places, next),
        Operand::Memory(_, memory) => resolved(memory.displacement, places, 0),
        Operand::Value(value) if jump => resolved(*value, places, next),
        Operand::Value(value) => resolved(*value, places, 0),
        Operand::Distance(n) => *n,
    }
}

/// An operand with its number.
fn argument_with(operand: &Operand, places: &[Option<u32>], next: u64, jump: bool) -> Argument
    ensures { result ≡ argument_with operand.now places.now next jump }
{
    argument_of(operand, operand_number(operand, places, next, jump))
}

/// The operands with their numbers.
pub fn arguments_with(
    operands: &Operands,
    places: &[Option<u32>],
    next: u64,
    jump: bool,
) -> Arguments
    ensures { result ≡ arguments_with operands.now places.now next jump }
{
    match operands {
        Operands::None => Arguments::None,
        Operands::One(a) => Arguments::One(argument_with(a, places, next, jump)),
        Operands::Two(a, b) => Arguments::Two(
            argument_with(a, places, next, jump),
            argument_with(b, places, next, jump),
        ),
        Operands::Three(a, b, c) => Arguments::Three(
            argument_with(a, places, next, jump),
            argument_with(b, places, next, jump),
            argument_with(c, places, next, jump),
        ),
    }
}

/// The operands with the number 1 for each of theirs.
pub fn sampled(operands: &Operands) -> Arguments
    ensures { result ≡ sampled operands.now }
{
    match operands {
        Operands::None => Arguments::None,
        Operands::One(a) => Arguments::One(argument_of(a, 1)),
        Operands::Two(a, b) => Arguments::Two(argument_of(a, 1), argument_of(b, 1)),
        Operands::Three(a, b, c) => {
            Arguments::Three(argument_of(a, 1), argument_of(b, 1), argument_of(c, 1))
        }
    }
}
