//! Which instruction a mnemonic and its operands name, and the field that holds its number.
ghost use Rattle.std.specs.Prelude.{◌≡◌};
ghost use Rattle.asm_insn.specs.Naming.{named_of, immediate_field, field_of};

use crate::argument::Arguments;
use crate::one_operand::{none_of, one_of};
use crate::two_operands::{three_of, two_of};
use asm_words::{Field, Mnemonic};
use vm_law::{Insn, Loc, Op, Width};

/// The instruction that a mnemonic and its operands name, with LOCK or without it; it may have no spelling.
pub fn named_of(lock: bool, mnemonic: Mnemonic, arguments: Arguments) -> Option<Insn>
    ensures { result ≡ named_of lock mnemonic arguments }
{
    let (width, op) = match arguments {
        Arguments::None => none_of(mnemonic)?,
        Arguments::One(a) => one_of(mnemonic, a)?,
        Arguments::Two(a, b) => two_of(mnemonic, a, b)?,
        Arguments::Three(a, b, c) => three_of(mnemonic, a, b, c)?,
    };
    Some(Insn { lock, width, op })
}

/// The widest field that holds a number of an operation of the width: 32 bits with their sign at the width of 64.
fn immediate_field(width: Width) -> Field
    ensures { result ≡ immediate_field width }
{
    match width {
        Width::Q => Field::Extended(Width::D),
        _ => Field::Whole(width),
    }
}

/// The widest field that holds the number of an instruction; any where it has none.
pub fn field_of(insn: &Insn) -> Field
    ensures { result ≡ field_of insn.now }
{
    match insn.op {
        Op::Mov(Loc::Reg(_) | Loc::High(_), _) => Field::Whole(insn.width),
        Op::Shift(_, _, _) | Op::In(_) | Op::Out(_) | Op::Int(_) => Field::Whole(Width::B),
        Op::Ret(_) => Field::Whole(Width::W),
        Op::Bit(_, _, _) => Field::Extended(Width::B),
        _ => immediate_field(insn.width),
    }
}
