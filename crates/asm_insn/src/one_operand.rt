//! Which operation a mnemonic names with one operand, or with none.
ghost use Rattle.std.specs.Prelude.{◌≡◌};
ghost use Rattle.asm_insn.specs.OneOperand.{none_of, at_place, of_register, jump_of, of_system, one_form, one_of};

use crate::argument::Argument;
use crate::operand_kind::{place_in, register_in, source_in, target_in};
use asm_words::{Form, Mnemonic, bits_in};
use vm_law::{Loc, Op, UnaryOp, Width};

/// An operation without operands.
#[tactic(auto, unfolding(crate::specs::OneOperand::none_of))]
pub fn none_of(mnemonic: Mnemonic) -> Option<(Width, Op)>
    ensures { result ≡ none_of mnemonic }
{
    match mnemonic {
        Mnemonic::Alone(width, op) => Some((width, op)),
        Mnemonic::Form(Form::Ret) => Some((Width::Q, Op::Ret(0))),
        Mnemonic::Form(Form::Nop) => Some((Width::Q, Op::Nop(None))),
        _ => None,
    }
}

/// An operation on one place.
fn at_place(form: Form, place: Loc) -> Option<Op>
    ensures { result ≡ at_place form place }
{
    match form {
        Form::Imul => Some(Op::Unary(UnaryOp::Imul, place)),
        Form::Inc => Some(Op::Inc(place)),
        Form::Dec => Some(Op::Dec(place)),
        Form::Nop => Some(Op::Nop(Some(place))),
        _ => None,
    }
}

/// PUSH, POP and BSWAP of a register, and PUSH of a number.
fn of_register(form: Form, a: Argument) -> Option<(Width, Op)>
    ensures { result ≡ of_register form a }
{
    match form {
        Form::Push => {
            let source = source_in(Width::Q, a)?;
            Some((Width::Q, Op::Push(source)))
        }
        Form::Pop => {
            let (width, number) = register_in(a)?;
            Some((width, Op::Pop(number)))
        }
        Form::Bswap => {
            let (width, number) = register_in(a)?;
            Some((width, Op::Bswap(number)))
        }
        _ => None,
    }
}

/// JMP and CALL.
fn jump_of(form: Form, a: Argument) -> Option<(Width, Op)>
    ensures { result ≡ jump_of form a }
{
    if let Some(distance) = target_in(a) {
        return match form {
            Form::Jmp => Some((Width::Q, Op::Jmp(distance))),
            Form::Call => Some((Width::Q, Op::Call(distance))),
            _ => None,
        };
    }
    let (width, place) = place_in(a)?;
    match (form, place) {
        (Form::Jmp, place) => Some((width, Op::JmpTo(place))),
        (Form::Call, Loc::Reg(number)) => Some((width, Op::CallReg(number))),
        _ => None,
    }
}

/// RET, INT and LIDT.
fn of_system(form: Form, a: Argument) -> Option<(Width, Op)>
    ensures { result ≡ of_system form a }
{
    match (form, a) {
        (Form::Ret, Argument::Number(n)) => {
            Some((Width::Q, Op::Ret(bits_in(Width::W, n) as u16)))
        }
        (Form::Int, Argument::Number(n)) => Some((Width::Q, Op::Int(bits_in(Width::B, n) as u8))),
        (Form::Lidt, Argument::Address(mem)) => Some((Width::Q, Op::Lidt(mem))),
        _ => None,
    }
}

/// An operation with one operand whose word may have others.
fn one_form(form: Form, a: Argument) -> Option<(Width, Op)>
    ensures { result ≡ one_form form a }
{
    match form {
        Form::Push | Form::Pop | Form::Bswap => of_register(form, a),
        Form::Jmp | Form::Call => jump_of(form, a),
        Form::Ret | Form::Int | Form::Lidt => of_system(form, a),
        _ => {
            let (width, place) = place_in(a)?;
            let op = at_place(form, place)?;
            Some((width, op))
        }
    }
}

/// An operation with one operand.
#[tactic(auto, unfolding(crate::specs::OneOperand::one_of))]
pub fn one_of(mnemonic: Mnemonic, a: Argument) -> Option<(Width, Op)>
    ensures { result ≡ one_of mnemonic a }
{
    match mnemonic {
        Mnemonic::Unary(op) => {
            let (width, place) = place_in(a)?;
            Some((width, Op::Unary(op, place)))
        }
        Mnemonic::SetCc(condition) => {
            let (width, place) = place_in(a)?;
            Some((width, Op::SetCc(condition, place)))
        }
        Mnemonic::Jcc(condition) => {
            let distance = target_in(a)?;
            Some((Width::Q, Op::Jcc(condition, distance)))
        }
        Mnemonic::Form(form) => one_form(form, a),
        _ => None,
    }
}
