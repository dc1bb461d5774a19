//! Mnemonics: the words of instructions, as the Intel SDM, volume 2, has them.
ghost use Rattle.std.specs.Prelude.{◌≡◌};
ghost use Rattle.asm_words.specs.Mnemonic.{arithmetic_of, unary_of, shift_of, bit_test_of, condition_of, alone_of, form_of, jcc_of, setcc_of, cmov_of, conditional_of, mnemonic_of};

use text_reader::after_byte;
use vm_law::{ArithmeticOp, BitTestOp, Condition, Op, ShiftOp, UnaryOp, Width};

/// The words whose operands decide what instruction it is.
#[derive(Clone, Copy)]
pub enum Form {
    Test,
    Imul,
    Inc,
    Dec,
    Mov,
    MovZx,
    MovSx,
    MovSxd,
    Lea,
    Xchg,
    CmpXchg,
    Xadd,
    Bsf,
    Bsr,
    Bswap,
    Jmp,
    Call,
    Ret,
    Push,
    Pop,
    In,
    Out,
    Int,
    Lidt,
    Nop,
}

/// What a mnemonic names.
#[derive(Clone, Copy)]
pub enum Mnemonic {
    Arithmetic(ArithmeticOp),
    Unary(UnaryOp),
    Shift(ShiftOp),
    BitTest(BitTestOp),
    Jcc(Condition),
    SetCc(Condition),
    CMov(Condition),
    /// An operation without operands, of this width.
    Alone(Width, Op),
    Form(Form),
}

/// The word of an operation on a destination and a source.
fn arithmetic_of(word: &str) -> Option<ArithmeticOp>
    ensures { result ≡ arithmetic_of word.now }
{
    match word {
        "add" => Some(ArithmeticOp::Add),
        "or" => Some(ArithmeticOp::Or),
        "adc" => Some(ArithmeticOp::Adc),
        "sbb" => Some(ArithmeticOp::Sbb),
        "and" => Some(ArithmeticOp::And),
        "sub" => Some(ArithmeticOp::Sub),
        "xor" => Some(ArithmeticOp::Xor),
        "cmp" => Some(ArithmeticOp::Cmp),
        _ => None,
    }
}

/// The word of an operation on one operand.
fn unary_of(word: &str) -> Option<UnaryOp>
    ensures { result ≡ unary_of word.now }
{
    match word {
        "not" => Some(UnaryOp::Not),
        "neg" => Some(UnaryOp::Neg),
        "mul" => Some(UnaryOp::Mul),
        "div" => Some(UnaryOp::Div),
        "idiv" => Some(UnaryOp::Idiv),
        _ => None,
    }
}

/// The word of a shift or rotate.
fn shift_of(word: &str) -> Option<ShiftOp>
    ensures { result ≡ shift_of word.now }
{
    match word {
        "rol" => Some(ShiftOp::Rol),
        "ror" => Some(ShiftOp::Ror),
        "shl" => Some(ShiftOp::Shl),
        "shr" => Some(ShiftOp::Shr),
        "sar" => Some(ShiftOp::Sar),
        _ => None,
    }
}

/// The word of a test of one bit.
fn bit_test_of(word: &str) -> Option<BitTestOp>
    ensures { result ≡ bit_test_of word.now }
{
    match word {
        "bt" => Some(BitTestOp::Bt),
        "bts" => Some(BitTestOp::Bts),
        "btr" => Some(BitTestOp::Btr),
        "btc" => Some(BitTestOp::Btc),
        _ => None,
    }
}

/// The word of a condition.
fn condition_of(word: &str) -> Option<Condition>
    ensures { result ≡ condition_of word.now }
{
    match word {
        "o" => Some(Condition::O),
        "no" => Some(Condition::No),
        "b" => Some(Condition::B),
        "ae" => Some(Condition::Ae),
        "e" => Some(Condition::E),
        "ne" => Some(Condition::Ne),
        "be" => Some(Condition::Be),
        "a" => Some(Condition::A),
        "s" => Some(Condition::S),
        "ns" => Some(Condition::Ns),
        "p" => Some(Condition::P),
        "np" => Some(Condition::Np),
        "l" => Some(Condition::L),
        "ge" => Some(Condition::Ge),
        "le" => Some(Condition::Le),
        "g" => Some(Condition::G),
        _ => None,
    }
}

/// The word of an operation without operands, with its width.
fn alone_of(word: &str) -> Option<(Width, Op)>
    ensures { result ≡ alone_of word.now }
{
    match word {
        "leave" => Some((Width::Q, Op::Leave)),
        "pushfq" => Some((Width::Q, Op::PushF)),
        "popfq" => Some((Width::Q, Op::PopF)),
        "cbw" => Some((Width::W, Op::Widen)),
        "cwde" => Some((Width::D, Op::Widen)),
        "cdqe" => Some((Width::Q, Op::Widen)),
        "cwd" => Some((Width::W, Op::SignFill)),
        "cdq" => Some((Width::D, Op::SignFill)),
        "cqo" => Some((Width::Q, Op::SignFill)),
        "clc" => Some((Width::Q, Op::Clc)),
        "stc" => Some((Width::Q, Op::Stc)),
        "cmc" => Some((Width::Q, Op::Cmc)),
        "cld" => Some((Width::Q, Op::Cld)),
        "std" => Some((Width::Q, Op::Std)),
        "int3" => Some((Width::Q, Op::Int(3))),
        "iretq" => Some((Width::Q, Op::Iret)),
        "ud2" => Some((Width::Q, Op::Ud2)),
        "hlt" => Some((Width::Q, Op::Hlt)),
        "sti" => Some((Width::Q, Op::Sti)),
        "cli" => Some((Width::Q, Op::Cli)),
        "pause" => Some((Width::Q, Op::Pause)),
        "endbr64" => Some((Width::Q, Op::Endbr)),
        "lfence" => Some((Width::Q, Op::Fence(0xE8))),
        "mfence" => Some((Width::Q, Op::Fence(0xF0))),
        "sfence" => Some((Width::Q, Op::Fence(0xF8))),
        _ => None,
    }
}

/// The words whose operands decide what instruction it is.
fn form_of(word: &str) -> Option<Form>
    ensures { result ≡ form_of word.now }
{
    match word {
        "test" => Some(Form::Test),
        "imul" => Some(Form::Imul),
        "inc" => Some(Form::Inc),
        "dec" => Some(Form::Dec),
        "mov" => Some(Form::Mov),
        "movzx" => Some(Form::MovZx),
        "movsx" => Some(Form::MovSx),
        "movsxd" => Some(Form::MovSxd),
        "lea" => Some(Form::Lea),
        "xchg" => Some(Form::Xchg),
        "cmpxchg" => Some(Form::CmpXchg),
        "xadd" => Some(Form::Xadd),
        "bsf" => Some(Form::Bsf),
        "bsr" => Some(Form::Bsr),
        "bswap" => Some(Form::Bswap),
        "jmp" => Some(Form::Jmp),
        "call" => Some(Form::Call),
        "ret" => Some(Form::Ret),
        "push" => Some(Form::Push),
        "pop" => Some(Form::Pop),
        "in" => Some(Form::In),
        "out" => Some(Form::Out),
        "int" => Some(Form::Int),
        "lidt" => Some(Form::Lidt),
        "nop" => Some(Form::Nop),
        _ => None,
    }
}

/// A jump on a condition, which stands behind `j`.
fn jcc_of(word: &str) -> Option<Condition>
    ensures { result ≡ jcc_of word.now }
{
    condition_of(after_byte(word, 'j')?)
}

/// A byte set on a condition, which stands behind `set`.
fn setcc_of(word: &str) -> Option<Condition>
    ensures { result ≡ setcc_of word.now }
{
    let after = after_byte(word, 's')?;
    let after = after_byte(after, 'e')?;
    condition_of(after_byte(after, 't')?)
}

/// A move on a condition, which stands behind `cmov`.
fn cmov_of(word: &str) -> Option<Condition>
    ensures { result ≡ cmov_of word.now }
{
    let after = after_byte(word, 'c')?;
    let after = after_byte(after, 'm')?;
    let after = after_byte(after, 'o')?;
    condition_of(after_byte(after, 'v')?)
}

/// What a word names, if it is a mnemonic.
pub fn mnemonic_of(word: &str) -> Option<Mnemonic>
    ensures { result ≡ mnemonic_of word.now }
{
    if let Some(op) = arithmetic_of(word) {
        return Some(Mnemonic::Arithmetic(op));
    }
    if let Some(op) = unary_of(word) {
        return Some(Mnemonic::Unary(op));
    }
    if let Some(op) = shift_of(word) {
        return Some(Mnemonic::Shift(op));
    }
    if let Some(op) = bit_test_of(word) {
        return Some(Mnemonic::BitTest(op));
    }
    if let Some((width, op)) = alone_of(word) {
        return Some(Mnemonic::Alone(width, op));
    }
    if let Some(form) = form_of(word) {
        return Some(Mnemonic::Form(form));
    }
    conditional_of(word)
}

/// A word of which a condition is a part.
fn conditional_of(word: &str) -> Option<Mnemonic>
    ensures { result ≡ conditional_of word.now }
{
    if let Some(condition) = jcc_of(word) {
        return Some(Mnemonic::Jcc(condition));
    }
    if let Some(condition) = setcc_of(word) {
        return Some(Mnemonic::SetCc(condition));
    }
    let condition = cmov_of(word)?;
    Some(Mnemonic::CMov(condition))
}
