ghost use Rattle.std.specs.Prelude.{◌≡◌, ◌<◌};
ghost use Rattle.x86_encode.specs.Inside.Plain.{loc_of, optional_loc, first_of, second_of, e_loc, g_loc, o_loc, condition_number, condition_of, source_number, count_number, port_number, number_of, low_of, bit_of, wants_rex};

use vm_law::{Condition, Count, Loc, Op, Src, Width};
use x86_grammar::Form;

fn loc_of(operand: Src) -> Loc
    ensures { result ≡ loc_of operand }
{
    match operand {
        Src::Loc(l) => l,
        Src::Imm(_) => Loc::Reg(0),
    }
}

fn optional(l: Option<Loc>) -> Loc
    ensures { result ≡ optional_loc l }
{
    match l {
        None => Loc::Reg(0),
        Some(l) => l,
    }
}

/// The operand that an operation names first.
#[tactic(auto, unfolding(crate::specs::Inside::Plain::first_of))]
fn first_of(op: Op) -> Loc
    ensures { result ≡ first_of op }
{
    match op {
        Op::Alu(_, a, _) | Op::Test(a, _) | Op::Unary(_, a) | Op::Inc(a) | Op::Dec(a) => a,
        Op::Mov(a, _) | Op::Xchg(a, _) | Op::CmpXchg(a, _) | Op::Xadd(a, _) => a,
        Op::Shift(_, a, _) | Op::Bit(_, a, _) | Op::SetCc(_, a) | Op::JmpTo(a) => a,
        Op::Nop(a) => optional(a),
        Op::Imul2(n, _) | Op::Imul3(n, _, _) | Op::MovZx(n, _, _) | Op::MovSx(n, _, _) => Loc::Reg(
            n,
        ),
        Op::Lea(n, _) | Op::Bsf(n, _) | Op::Bsr(n, _) | Op::CMov(_, n, _) => Loc::Reg(n),
        Op::Bswap(n) | Op::CallReg(n) | Op::Pop(n) => Loc::Reg(n),
        Op::Push(b) => loc_of(b),
        Op::Lidt(m) => Loc::Mem(m),
        Op::Jcc(_, _) | Op::Jmp(_) | Op::Call(_) | Op::Ret(_) | Op::Int(_) | Op::Iret => Loc::Reg(
            0,
        ),
        Op::Leave | Op::PushF | Op::PopF | Op::Widen | Op::SignFill | Op::Fence(_) => Loc::Reg(0),
        Op::Clc | Op::Stc | Op::Cmc | Op::Cld | Op::Std | Op::Sti | Op::Cli => Loc::Reg(0),
        Op::In(_) | Op::Out(_) | Op::Ud2 | Op::Hlt | Op::Pause | Op::Endbr => Loc::Reg(0),
    }
}

/// The operand that it names second.
#[tactic(auto, unfolding(crate::specs::Inside::Plain::second_of))]
fn second_of(op: Op) -> Loc
    ensures { result ≡ second_of op }
{
    match op {
        Op::Alu(_, _, b) | Op::Test(_, b) | Op::Mov(_, b) | Op::Bit(_, _, b) => loc_of(b),
        Op::Imul2(_, b) | Op::Imul3(_, b, _) | Op::MovZx(_, _, b) | Op::MovSx(_, _, b) => b,
        Op::Xchg(_, b) | Op::CmpXchg(_, b) | Op::Xadd(_, b) => b,
        Op::Bsf(_, b) | Op::Bsr(_, b) | Op::CMov(_, _, b) => b,
        Op::Lea(_, m) => Loc::Mem(m),
        _ => Loc::Reg(0),
    }
}

/// What stands in the last field of the ModRM byte.
#[tactic(auto, unfolding(crate::specs::Inside::Plain::e_loc))]
pub(crate) fn e_loc(form: Form, op: Op) -> Loc
    ensures { result ≡ e_loc form op }
{
    match form {
        Form::EG | Form::EI | Form::E => first_of(op),
        Form::GE | Form::GEI => second_of(op),
        _ => Loc::Reg(0),
    }
}

/// What stands in its middle field.
#[tactic(auto, unfolding(crate::specs::Inside::Plain::g_loc))]
pub(crate) fn g_loc(form: Form, op: Op) -> Loc
    ensures { result ≡ g_loc form op }
{
    match form {
        Form::EG => second_of(op),
        Form::GE | Form::GEI => first_of(op),
        _ => Loc::Reg(0),
    }
}

/// What stands in the opcode byte.
#[tactic(auto, unfolding(crate::specs::Inside::Plain::o_loc))]
pub(crate) fn o_loc(form: Form, op: Op) -> Loc
    ensures { result ≡ o_loc form op }
{
    match form {
        Form::OI | Form::OA | Form::O => first_of(op),
        _ => Loc::Reg(0),
    }
}

/// The number of a condition in an opcode byte.
#[tactic(auto, unfolding(crate::specs::Inside::Plain::condition_number))]
fn condition_number(condition: Condition) -> u8
    ensures { result ≡ condition_number condition }
{
    match condition {
        Condition::O => 0,
        Condition::No => 1,
        Condition::B => 2,
        Condition::Ae => 3,
        Condition::E => 4,
        Condition::Ne => 5,
        Condition::Be => 6,
        Condition::A => 7,
        Condition::S => 8,
        Condition::Ns => 9,
        Condition::P => 10,
        Condition::Np => 11,
        Condition::L => 12,
        Condition::Ge => 13,
        Condition::Le => 14,
        Condition::G => 15,
    }
}

/// The number of an operation's condition, where it has one.
#[tactic(auto, unfolding(crate::specs::Inside::Plain::condition_of))]
pub(crate) fn condition_of(op: Op) -> u8
    ensures { result ≡ condition_of op }
{
    match op {
        Op::SetCc(c, _) | Op::CMov(c, _, _) | Op::Jcc(c, _) => condition_number(c),
        _ => 0,
    }
}

fn source_number(b: Src) -> i64
    ensures { result ≡ source_number b }
{
    match b {
        Src::Loc(_) => 0,
        Src::Imm(v) => v,
    }
}

fn count_number(c: Count) -> i64
    ensures { result ≡ count_number c }
{
    match c {
        Count::Imm(c) => i64::from(c),
        Count::Cl => 0,
    }
}

fn port_number(p: Option<u8>) -> i64
    ensures { result ≡ port_number p }
{
    match p {
        None => 0,
        Some(p) => i64::from(p),
    }
}

/// The number of an operation that has one.
#[tactic(auto, unfolding(crate::specs::Inside::Plain::number_of))]
pub(crate) fn number_of(op: Op) -> i64
    ensures { result ≡ number_of op }
{
    match op {
        Op::Alu(_, _, b) | Op::Test(_, b) | Op::Mov(_, b) => source_number(b),
        Op::Bit(_, _, b) | Op::Push(b) => source_number(b),
        Op::Imul3(_, _, v) => i64::from(v),
        Op::Shift(_, _, c) => count_number(c),
        Op::Jcc(_, d) => i64::from(d),
        Op::Jmp(d) => i64::from(d),
        Op::Call(d) => i64::from(d),
        Op::Ret(n) => i64::from(n),
        Op::In(p) => port_number(p),
        Op::Out(p) => port_number(p),
        Op::Int(n) => i64::from(n),
        _ => 0,
    }
}

/// A register's number without its top bit.
#[tactic(auto, unfolding(crate::specs::Inside::Plain::low_of))]
pub(crate) fn low_of(l: Loc) -> u8
    ensures value { result ≡ low_of l }
    ensures small { result < 8 }
{
    match l {
        Loc::Reg(n) => n % 8,
        Loc::High(n) => n % 4 + 4,
        Loc::Mem(_) => 0,
    }
}

/// The top bit of a register's number.
#[tactic(auto, unfolding(crate::specs::Inside::Plain::bit_of))]
pub(crate) fn bit_of(l: Loc) -> bool
    ensures { result ≡ bit_of l }
{
    match l {
        Loc::Reg(n) => n >= 8,
        Loc::High(_) | Loc::Mem(_) => false,
    }
}

/// Whether a REX byte stands, since the register is SPL, BPL, SIL or DIL.
pub(crate) fn wants_rex(w: Width, l: Loc) -> bool
    ensures { result ≡ wants_rex w l }
{
    match (w, l) {
        (Width::B, Loc::Reg(n)) => 4 <= n && n < 8,
        _ => false,
    }
}
