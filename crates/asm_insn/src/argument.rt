//! Operands with the numbers that stand for their values.
ghost use Rattle.std.specs.Prelude.{◌≡◌};
ghost use Rattle.asm_insn.specs.Argument.{is_scale, scale_in, mem_of, argument_of};

use asm_words::{Memory, Operand, Value, signed32_in};
use vm_law::{Loc, Mem, Width};

/// An operand with its number.
#[derive(Clone, Copy)]
pub enum Argument {
    /// A register, or a place in memory with the width that stands before it.
    Place(Width, Loc),
    /// A place in memory without a width.
    Address(Mem),
    Number(i128),
    /// The number of a label.
    Label(i128),
    /// How far a jump goes.
    Distance(i128),
}

/// The operands with their numbers.
#[derive(Clone, Copy)]
pub enum Arguments {
    None,
    One(Argument),
    Two(Argument, Argument),
    Three(Argument, Argument, Argument),
}

/// Whether an index may have that factor.
pub fn is_scale(n: i128) -> bool
    ensures { result ≡ is_scale n }
{
    n == 1 || n == 2 || n == 4 || n == 8
}

/// An index's factor, and 1 for another number.
fn scale_in(n: i128) -> u8
    ensures { result ≡ scale_in n }
{
    if is_scale(n) { n as u8 } else { 1 }
}

/// The place in memory with this displacement.
#[tactic(auto, unfolding(crate::specs::Argument::mem_of))]
fn mem_of(memory: &Memory, displacement: i128) -> Mem
    ensures { result ≡ mem_of memory.now displacement }
{
    Mem {
        base: memory.base,
        index: memory.index,
        scale: scale_in(memory.scale),
        disp: signed32_in(Width::D, displacement),
        rip: memory.rip,
    }
}

/// The operand with this number for its value, where it has one.
pub fn argument_of(operand: &Operand, n: i128) -> Argument
    ensures { result ≡ argument_of operand.now n }
{
    match operand {
        Operand::Register(width, register) => Argument::Place(*width, *register),
        Operand::Memory(Some(width), memory) => {
            Argument::Place(*width, Loc::Mem(mem_of(memory, n)))
        }
        Operand::Memory(None, memory) => Argument::Address(mem_of(memory, n)),
        Operand::Value(Value::Number(_)) => Argument::Number(n),
        Operand::Value(_) => Argument::Label(n),
        Operand::Distance(_) => Argument::Distance(n),
    }
}
