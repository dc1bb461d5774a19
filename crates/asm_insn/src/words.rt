//! The words of mnemonics.
ghost use Rattle.std.specs.Prelude.{◌≡◌, ◌++◌, OnOk, string_bytes};
ghost use Rattle.asm_insn.specs.Printing.{arithmetic_word, unary_word, shift_word, bit_test_word, condition_word, form_word, alone_word, mnemonic_text};

use asm_words::{Form, Mnemonic};
use std::alloc::AllocError;
use vm_law::{ArithmeticOp, BitTestOp, Condition, Op, ShiftOp, UnaryOp, Width};

/// The word of an operation on a destination and a source.
fn arithmetic_word(k: ArithmeticOp) -> &'static str
    ensures { result.now ≡ arithmetic_word k }
{
    match k {
        ArithmeticOp::Add => "add",
        ArithmeticOp::Or => "or",
        ArithmeticOp::Adc => "adc",
        ArithmeticOp::Sbb => "sbb",
        ArithmeticOp::And => "and",
        ArithmeticOp::Sub => "sub",
        ArithmeticOp::Xor => "xor",
        ArithmeticOp::Cmp => "cmp",
    }
}

/// The word of an operation on one operand.
fn unary_word(k: UnaryOp) -> &'static str
    ensures { result.now ≡ unary_word k }
{
    match k {
        UnaryOp::Not => "not",
        UnaryOp::Neg => "neg",
        UnaryOp::Mul => "mul",
        UnaryOp::Imul => "imul",
        UnaryOp::Div => "div",
        UnaryOp::Idiv => "idiv",
    }
}

/// The word of a shift or rotate.
fn shift_word(k: ShiftOp) -> &'static str
    ensures { result.now ≡ shift_word k }
{
    match k {
        ShiftOp::Rol => "rol",
        ShiftOp::Ror => "ror",
        ShiftOp::Shl => "shl",
        ShiftOp::Shr => "shr",
        ShiftOp::Sar => "sar",
    }
}

/// The word of a test of one bit.
fn bit_test_word(k: BitTestOp) -> &'static str
    ensures { result.now ≡ bit_test_word k }
{
    match k {
        BitTestOp::Bt => "bt",
        BitTestOp::Bts => "bts",
        BitTestOp::Btr => "btr",
        BitTestOp::Btc => "btc",
    }
}

/// The word of a condition.
fn condition_word(k: Condition) -> &'static str
    ensures { result.now ≡ condition_word k }
{
    match k {
        Condition::O => "o",
        Condition::No => "no",
        Condition::B => "b",
        Condition::Ae => "ae",
        Condition::E => "e",
        Condition::Ne => "ne",
        Condition::Be => "be",
        Condition::A => "a",
        Condition::S => "s",
        Condition::Ns => "ns",
        Condition::P => "p",
        Condition::Np => "np",
        Condition::L => "l",
        Condition::Ge => "ge",
        Condition::Le => "le",
        Condition::G => "g",
    }
}

/// The words whose operands decide what instruction it is.
fn form_word(form: Form) -> &'static str
    ensures { result.now ≡ form_word form }
{
    match form {
        Form::Test => "test",
        Form::Imul => "imul",
        Form::Inc => "inc",
        Form::Dec => "dec",
        Form::Mov => "mov",
        Form::MovZx => "movzx",
        Form::MovSx => "movsx",
        Form::MovSxd => "movsxd",
        Form::Lea => "lea",
        Form::Xchg => "xchg",
        Form::CmpXchg => "cmpxchg",
        Form::Xadd => "xadd",
        Form::Bsf => "bsf",
        Form::Bsr => "bsr",
        Form::Bswap => "bswap",
        Form::Jmp => "jmp",
        Form::Call => "call",
        Form::Ret => "ret",
        Form::Push => "push",
        Form::Pop => "pop",
        Form::In => "in",
        Form::Out => "out",
        Form::Int => "int",
        Form::Lidt => "lidt",
        Form::Nop => "nop",
    }
}

/// The word of an operation without operands.
fn alone_word(width: Width, op: &Op) -> &'static str
    ensures { result.now ≡ alone_word width op.now }
{
    match op {
        Op::Leave => "leave",
        Op::PushF => "pushfq",
        Op::PopF => "popfq",
        Op::Widen => match width {
            Width::W => "cbw",
            Width::D => "cwde",
            _ => "cdqe",
        },
        Op::SignFill => match width {
            Width::W => "cwd",
            Width::D => "cdq",
            _ => "cqo",
        },
        Op::Clc => "clc",
        Op::Stc => "stc",
        Op::Cmc => "cmc",
        Op::Cld => "cld",
        Op::Std => "std",
        Op::Int(_) => "int3",
        Op::Iret => "iretq",
        Op::Ud2 => "ud2",
        Op::Hlt => "hlt",
        Op::Sti => "sti",
        Op::Cli => "cli",
        Op::Pause => "pause",
        Op::Endbr => "endbr64",
        Op::Fence(0xE8) => "lfence",
        Op::Fence(0xF0) => "mfence",
        _ => "sfence",
    }
}

/// Adds a mnemonic.
pub fn put_mnemonic(out: &mut String, mnemonic: &Mnemonic) -> Result<(), AllocError>
    ensures { OnOk result (string_bytes out.new ≡ string_bytes out.old ++ mnemonic_text mnemonic.now) }
{
    match mnemonic {
        Mnemonic::Arithmetic(k) => out.push_str(arithmetic_word(*k)),
        Mnemonic::Unary(k) => out.push_str(unary_word(*k)),
        Mnemonic::Shift(k) => out.push_str(shift_word(*k)),
        Mnemonic::BitTest(k) => out.push_str(bit_test_word(*k)),
        Mnemonic::Jcc(condition) => {
            out.push_str("j")?;
            out.push_str(condition_word(*condition))
        }
        Mnemonic::SetCc(condition) => {
            out.push_str("set")?;
            out.push_str(condition_word(*condition))
        }
        Mnemonic::CMov(condition) => {
            out.push_str("cmov")?;
            out.push_str(condition_word(*condition))
        }
        Mnemonic::Alone(width, op) => out.push_str(alone_word(*width, op)),
        Mnemonic::Form(form) => out.push_str(form_word(*form)),
    }
}
