//! Which operation a mnemonic names with two operands, or with three.
ghost use Rattle.std.specs.Prelude.{◌≡◌};
ghost use Rattle.asm_insn.specs.TwoOperands.{extended_of, address_of, exchange_of, into_of, in_of, out_of, moved_of, two_form, two_of, three_of};

use crate::argument::Argument;
use crate::operand_kind::{
    accumulator_in, count_in, immediate_in, into_register, operands_in, pair_of, place_in, port_in,
    register_in,
};
use asm_words::{Form, Mnemonic, signed32_in};
use vm_law::{Op, Width};

/// MOVZX, MOVSX and MOVSXD.
fn extended_of(form: Form, a: Argument, b: Argument) -> Option<(Width, Op)>
    ensures { result ≡ extended_of form a b }
{
    let (width, number) = register_in(a)?;
    let (from, place) = place_in(b)?;
    match (form, from) {
        (Form::MovZx, _) => Some((width, Op::MovZx(number, from, place))),
        (Form::MovSx, Width::B | Width::W) => Some((width, Op::MovSx(number, from, place))),
        (Form::MovSxd, Width::D) => Some((width, Op::MovSx(number, from, place))),
        _ => None,
    }
}

/// LEA.
fn address_of(a: Argument, b: Argument) -> Option<(Width, Op)>
    ensures { result ≡ address_of a b }
{
    let (width, number) = register_in(a)?;
    match b {
        Argument::Address(mem) => Some((width, Op::Lea(number, mem))),
        _ => None,
    }
}

/// XCHG, CMPXCHG and XADD.
fn exchange_of(form: Form, a: Argument, b: Argument) -> Option<(Width, Op)>
    ensures { result ≡ exchange_of form a b }
{
    let (width, first, second) = pair_of(a, b)?;
    match form {
        Form::Xchg => Some((width, Op::Xchg(first, second))),
        Form::CmpXchg => Some((width, Op::CmpXchg(first, second))),
        Form::Xadd => Some((width, Op::Xadd(first, second))),
        _ => None,
    }
}

/// IMUL, BSF and BSR into a register.
fn into_of(form: Form, a: Argument, b: Argument) -> Option<(Width, Op)>
    ensures { result ≡ into_of form a b }
{
    let (width, number, place) = into_register(a, b)?;
    match form {
        Form::Imul => Some((width, Op::Imul2(number, place))),
        Form::Bsf => Some((width, Op::Bsf(number, place))),
        Form::Bsr => Some((width, Op::Bsr(number, place))),
        _ => None,
    }
}

/// IN.
fn in_of(a: Argument, b: Argument) -> Option<(Width, Op)>
    ensures { result ≡ in_of a b }
{
    let width = accumulator_in(a)?;
    let port = port_in(b)?;
    Some((width, Op::In(port)))
}

/// OUT.
fn out_of(a: Argument, b: Argument) -> Option<(Width, Op)>
    ensures { result ≡ out_of a b }
{
    let port = port_in(a)?;
    let width = accumulator_in(b)?;
    Some((width, Op::Out(port)))
}

/// MOV and TEST.
fn moved_of(form: Form, a: Argument, b: Argument) -> Option<(Width, Op)>
    ensures { result ≡ moved_of form a b }
{
    let (width, place, source) = operands_in(a, b)?;
    match form {
        Form::Mov => Some((width, Op::Mov(place, source))),
        Form::Test => Some((width, Op::Test(place, source))),
        _ => None,
    }
}

/// An operation with two operands whose word may have others.
fn two_form(form: Form, a: Argument, b: Argument) -> Option<(Width, Op)>
    ensures { result ≡ two_form form a b }
{
    match form {
        Form::Mov | Form::Test => moved_of(form, a, b),
        Form::MovZx | Form::MovSx | Form::MovSxd => extended_of(form, a, b),
        Form::Lea => address_of(a, b),
        Form::Xchg | Form::CmpXchg | Form::Xadd => exchange_of(form, a, b),
        Form::Imul | Form::Bsf | Form::Bsr => into_of(form, a, b),
        Form::In => in_of(a, b),
        Form::Out => out_of(a, b),
        _ => None,
    }
}

/// An operation with two operands.
#[tactic(auto, unfolding(crate::specs::TwoOperands::two_of))]
pub fn two_of(mnemonic: Mnemonic, a: Argument, b: Argument) -> Option<(Width, Op)>
    ensures { result ≡ two_of mnemonic a b }
{
    match mnemonic {
        Mnemonic::Arithmetic(op) => {
            let (width, place, source) = operands_in(a, b)?;
            Some((width, Op::Alu(op, place, source)))
        }
        Mnemonic::BitTest(op) => {
            let (width, place, source) = operands_in(a, b)?;
            Some((width, Op::Bit(op, place, source)))
        }
        Mnemonic::Shift(op) => {
            let (width, place) = place_in(a)?;
            let count = count_in(b)?;
            Some((width, Op::Shift(op, place, count)))
        }
        Mnemonic::CMov(condition) => {
            let (width, number, place) = into_register(a, b)?;
            Some((width, Op::CMov(condition, number, place)))
        }
        Mnemonic::Form(form) => two_form(form, a, b),
        _ => None,
    }
}

/// An operation with three operands: IMUL by a number.
#[tactic(auto, unfolding(crate::specs::TwoOperands::three_of))]
pub fn three_of(mnemonic: Mnemonic, a: Argument, b: Argument, c: Argument) -> Option<(Width, Op)>
    ensures { result ≡ three_of mnemonic a b c }
{
    match mnemonic {
        Mnemonic::Form(Form::Imul) => {
            let (width, number, place) = into_register(a, b)?;
            let n = immediate_in(c)?;
            Some((width, Op::Imul3(number, place, signed32_in(width, n))))
        }
        _ => None,
    }
}
