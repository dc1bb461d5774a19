//! The mnemonic and the operands that name an instruction.
ghost use Rattle.std.specs.Prelude.{◌≡◌};
ghost use Rattle.asm_insn.specs.Parts.{memory_in, operand_at, register_at, address_at, number_at, source_at, count_at, port_at, distance_at, one, two, pair, into, sign_extended, control_of, moving_of, parts_of, taken_apart};

use crate::instruction::Instruction;
use asm_words::{Form, Memory, Mnemonic, Operand, Operands, Value};
use vm_law::{Count, Insn, Loc, Mem, Op, Src, UnaryOp, Width};

/// A place in memory, as it is written.
fn memory_in(mem: &Mem) -> Memory
    ensures { result ≡ memory_in mem.now }
{
    Memory {
        rip: mem.rip,
        base: mem.base,
        index: mem.index,
        scale: i128::from(mem.scale),
        displacement: Value::Number(i128::from(mem.disp)),
    }
}

/// A place of a width.
fn operand_at(width: Width, place: &Loc) -> Operand
    ensures { result ≡ operand_at width place.now }
{
    match place {
        Loc::Mem(mem) => Operand::Memory(Some(width), memory_in(mem)),
        _ => Operand::Register(width, *place),
    }
}

fn register_at(width: Width, number: u8) -> Operand
    ensures { result ≡ register_at width number }
{
    Operand::Register(width, Loc::Reg(number))
}

/// A place in memory without a width.
fn address_at(mem: &Mem) -> Operand
    ensures { result ≡ address_at mem.now }
{
    Operand::Memory(None, memory_in(mem))
}

fn number_at(n: i128) -> Operand
    ensures { result ≡ number_at n }
{
    Operand::Value(Value::Number(n))
}

/// A source of a width.
fn source_at(width: Width, source: &Src) -> Operand
    ensures { result ≡ source_at width source.now }
{
    match source {
        Src::Loc(place) => operand_at(width, place),
        Src::Imm(n) => number_at(i128::from(*n)),
    }
}

/// How far a shift goes.
fn count_at(count: Count) -> Operand
    ensures { result ≡ count_at count }
{
    match count {
        Count::Imm(n) => number_at(i128::from(n)),
        Count::Cl => register_at(Width::B, 1),
    }
}

/// A port, or DX.
fn port_at(port: Option<u8>) -> Operand
    ensures { result ≡ port_at port }
{
    match port {
        Some(n) => number_at(i128::from(n)),
        None => register_at(Width::W, 2),
    }
}

/// How far a jump goes.
fn distance_at(distance: i32) -> Operands
    ensures { result ≡ distance_at distance }
{
    Operands::One(Operand::Distance(i128::from(distance)))
}

fn one(width: Width, place: &Loc) -> Operands
    ensures { result ≡ one width place.now }
{
    Operands::One(operand_at(width, place))
}

fn two(width: Width, place: &Loc, source: &Src) -> Operands
    ensures { result ≡ two width place.now source.now }
{
    Operands::Two(operand_at(width, place), source_at(width, source))
}

fn pair(width: Width, first: &Loc, second: &Loc) -> Operands
    ensures { result ≡ pair width first.now second.now }
{
    Operands::Two(operand_at(width, first), operand_at(width, second))
}

fn into(width: Width, number: u8, from: Width, place: &Loc) -> Operands
    ensures { result ≡ into width number from place.now }
{
    Operands::Two(register_at(width, number), operand_at(from, place))
}

/// MOVSX, and MOVSXD from 32 bits.
fn sign_extended(from: Width) -> Form
    ensures { result ≡ sign_extended from }
{
    match from {
        Width::D => Form::MovSxd,
        _ => Form::MovSx,
    }
}

/// What moves control, or pushes or pops.
#[tactic(auto, unfolding(crate::specs::Parts::control_of))]
fn control_of(width: Width, op: &Op) -> (Mnemonic, Operands)
    ensures { result ≡ control_of width op.now }
{
    match op {
        Op::Jcc(condition, distance) => (Mnemonic::Jcc(*condition), distance_at(*distance)),
        Op::Jmp(distance) => (Mnemonic::Form(Form::Jmp), distance_at(*distance)),
        Op::Call(distance) => (Mnemonic::Form(Form::Call), distance_at(*distance)),
        Op::JmpTo(place) => (Mnemonic::Form(Form::Jmp), one(width, place)),
        Op::CallReg(number) => (
            Mnemonic::Form(Form::Call),
            Operands::One(register_at(width, *number)),
        ),
        Op::Ret(0) => (Mnemonic::Form(Form::Ret), Operands::None),
        Op::Ret(count) => (
            Mnemonic::Form(Form::Ret),
            Operands::One(number_at(i128::from(*count))),
        ),
        Op::Push(source) => (
            Mnemonic::Form(Form::Push),
            Operands::One(source_at(width, source)),
        ),
        Op::Pop(number) => (
            Mnemonic::Form(Form::Pop),
            Operands::One(register_at(width, *number)),
        ),
        Op::Int(3) => (Mnemonic::Alone(width, *op), Operands::None),
        Op::Int(vector) => (
            Mnemonic::Form(Form::Int),
            Operands::One(number_at(i128::from(*vector))),
        ),
        Op::Lidt(mem) => (Mnemonic::Form(Form::Lidt), Operands::One(address_at(mem))),
        Op::Nop(None) => (Mnemonic::Form(Form::Nop), Operands::None),
        Op::Nop(Some(place)) => (Mnemonic::Form(Form::Nop), one(width, place)),
        _ => (Mnemonic::Alone(width, *op), Operands::None),
    }
}

/// What goes into a register, or through a port.
#[tactic(auto, unfolding(crate::specs::Parts::moving_of))]
fn moving_of(width: Width, op: &Op) -> (Mnemonic, Operands)
    ensures { result ≡ moving_of width op.now }
{
    match op {
        Op::Imul2(number, place) => (
            Mnemonic::Form(Form::Imul),
            into(width, *number, width, place),
        ),
        Op::Imul3(number, place, factor) => (
            Mnemonic::Form(Form::Imul),
            Operands::Three(
                register_at(width, *number),
                operand_at(width, place),
                number_at(i128::from(*factor)),
            ),
        ),
        Op::MovZx(number, from, place) => (
            Mnemonic::Form(Form::MovZx),
            into(width, *number, *from, place),
        ),
        Op::MovSx(number, from, place) => (
            Mnemonic::Form(sign_extended(*from)),
            into(width, *number, *from, place),
        ),
        Op::Lea(number, mem) => (
            Mnemonic::Form(Form::Lea),
            Operands::Two(register_at(width, *number), address_at(mem)),
        ),
        Op::Bsf(number, place) => (
            Mnemonic::Form(Form::Bsf),
            into(width, *number, width, place),
        ),
        Op::Bsr(number, place) => (
            Mnemonic::Form(Form::Bsr),
            into(width, *number, width, place),
        ),
        Op::Bswap(number) => (
            Mnemonic::Form(Form::Bswap),
            Operands::One(register_at(width, *number)),
        ),
        Op::SetCc(condition, place) => (Mnemonic::SetCc(*condition), one(width, place)),
        Op::CMov(condition, number, place) => (
            Mnemonic::CMov(*condition),
            into(width, *number, width, place),
        ),
        Op::In(port) => (
            Mnemonic::Form(Form::In),
            Operands::Two(register_at(width, 0), port_at(*port)),
        ),
        Op::Out(port) => (
            Mnemonic::Form(Form::Out),
            Operands::Two(port_at(*port), register_at(width, 0)),
        ),
        _ => control_of(width, op),
    }
}

/// The mnemonic and the operands of an operation of a width.
#[tactic(auto, unfolding(crate::specs::Parts::parts_of))]
fn parts_of(width: Width, op: &Op) -> (Mnemonic, Operands)
    ensures { result ≡ parts_of width op.now }
{
    match op {
        Op::Alu(k, place, source) => (Mnemonic::Arithmetic(*k), two(width, place, source)),
        Op::Test(place, source) => (Mnemonic::Form(Form::Test), two(width, place, source)),
        Op::Mov(place, source) => (Mnemonic::Form(Form::Mov), two(width, place, source)),
        Op::Bit(k, place, source) => (Mnemonic::BitTest(*k), two(width, place, source)),
        Op::Unary(UnaryOp::Imul, place) => (Mnemonic::Form(Form::Imul), one(width, place)),
        Op::Unary(k, place) => (Mnemonic::Unary(*k), one(width, place)),
        Op::Inc(place) => (Mnemonic::Form(Form::Inc), one(width, place)),
        Op::Dec(place) => (Mnemonic::Form(Form::Dec), one(width, place)),
        Op::Xchg(first, second) => (Mnemonic::Form(Form::Xchg), pair(width, first, second)),
        Op::CmpXchg(first, second) => (Mnemonic::Form(Form::CmpXchg), pair(width, first, second)),
        Op::Xadd(first, second) => (Mnemonic::Form(Form::Xadd), pair(width, first, second)),
        Op::Shift(k, place, count) => (
            Mnemonic::Shift(*k),
            Operands::Two(operand_at(width, place), count_at(*count)),
        ),
        _ => moving_of(width, op),
    }
}

/// The mnemonic and the operands that name an instruction.
pub fn taken_apart(insn: &Insn) -> Instruction
    ensures { result ≡ taken_apart insn.now }
{
    let (mnemonic, operands) = parts_of(insn.width, &insn.op);
    Instruction {
        lock: insn.lock,
        mnemonic,
        operands,
    }
}
