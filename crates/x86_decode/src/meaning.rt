ghost use Rattle.std.specs.Prelude.{◌≡◌, slice_get};
ghost use Rattle.x86_grammar.specs.declared.condition.TheConstants.{CONDITIONS};
ghost use Rattle.std.specs.Option.{option_map};
ghost use Rattle.x86_grammar.specs.Meaning.{nothing, place_alone, register_alone, memory_alone, source_alone, destination_and_source, two_places, register_and_place, register_and_memory, register_place_and_number, place_and_byte, offset_alone, byte_alone, word_alone, condition_of, op_of, rm_width, meaning};

use crate::operands::{row_operands, signed, signed32, unsigned8, unsigned16, width_of};
use vm_law::{Condition, Count, Insn, Loc, Mem, Op, Src, Width};
use x86_grammar::{CONDITIONS, Head, OpKind, Operands, Row};

/// The operation, where it has no operands and there are none.
fn alone(operands: Operands, op: Op) -> Option<Op>
    ensures { result ≡ option_map (λ _. op) (nothing operands) }
{
    match operands {
        Operands::None => Some(op),
        _ => None,
    }
}

fn place_alone(operands: Operands) -> Option<Loc>
    ensures { result ≡ place_alone operands }
{
    match operands {
        Operands::Place(a) => Some(a),
        _ => None,
    }
}

fn register_alone(operands: Operands) -> Option<u8>
    ensures { result ≡ register_alone operands }
{
    match operands {
        Operands::Place(Loc::Reg(r)) => Some(r),
        _ => None,
    }
}

fn memory_alone(operands: Operands) -> Option<Mem>
    ensures { result ≡ memory_alone operands }
{
    match operands {
        Operands::Place(Loc::Mem(m)) => Some(m),
        _ => None,
    }
}

fn source_alone(operands: Operands) -> Option<Src>
    ensures { result ≡ source_alone operands }
{
    match operands {
        Operands::Place(a) => Some(Src::Loc(a)),
        Operands::Immediate(i) => Some(Src::Imm(signed(i))),
        _ => None,
    }
}

fn destination_and_source(operands: Operands) -> Option<(Loc, Src)>
    ensures { result ≡ destination_and_source operands }
{
    match operands {
        Operands::Places(a, b) => Some((a, Src::Loc(b))),
        Operands::PlaceAndImmediate(a, i) => Some((a, Src::Imm(signed(i)))),
        _ => None,
    }
}

fn two_places(operands: Operands) -> Option<(Loc, Loc)>
    ensures { result ≡ two_places operands }
{
    match operands {
        Operands::Places(a, b) => Some((a, b)),
        _ => None,
    }
}

fn register_and_place(operands: Operands) -> Option<(u8, Loc)>
    ensures { result ≡ register_and_place operands }
{
    match operands {
        Operands::Places(Loc::Reg(r), b) => Some((r, b)),
        _ => None,
    }
}

fn register_and_memory(operands: Operands) -> Option<(u8, Mem)>
    ensures { result ≡ register_and_memory operands }
{
    match operands {
        Operands::Places(Loc::Reg(r), Loc::Mem(m)) => Some((r, m)),
        _ => None,
    }
}

fn register_place_and_number(operands: Operands) -> Option<(u8, Loc, i32)>
    ensures { result ≡ register_place_and_number operands }
{
    match operands {
        Operands::PlacesAndImmediate(Loc::Reg(r), b, i) => Some((r, b, signed32(i)?)),
        _ => None,
    }
}

fn place_and_byte(operands: Operands) -> Option<(Loc, u8)>
    ensures { result ≡ place_and_byte operands }
{
    match operands {
        Operands::PlaceAndImmediate(a, i) => Some((a, unsigned8(i)?)),
        _ => None,
    }
}

fn offset_alone(operands: Operands) -> Option<i32>
    ensures { result ≡ offset_alone operands }
{
    match operands {
        Operands::Immediate(i) => signed32(i),
        _ => None,
    }
}

fn byte_alone(operands: Operands) -> Option<u8>
    ensures { result ≡ byte_alone operands }
{
    match operands {
        Operands::Immediate(i) => unsigned8(i),
        _ => None,
    }
}

fn word_alone(operands: Operands) -> Option<u16>
    ensures { result ≡ word_alone operands }
{
    match operands {
        Operands::Immediate(i) => unsigned16(i),
        _ => None,
    }
}

/// The condition of a number, 0 to 15.
fn condition_at(number: u8) -> Option<Condition>
    ensures { result ≡ slice_get CONDITIONS number }
{
    CONDITIONS.get(number as usize).copied()
}

/// The condition in the low four bits of an opcode.
#[tactic(auto, unfolding(x86_grammar::specs::Meaning::condition_of))]
fn condition_of(byte: u8) -> Option<Condition>
    ensures { result ≡ condition_of byte }
{
    condition_at(byte % 16)
}

/// The operation of an opcode byte and operands, where it has these operands.
#[tactic(auto, unfolding(x86_grammar::specs::Meaning::op_of))]
fn op_of(kind: OpKind, byte: u8, operands: Operands) -> Option<Op>
    ensures { result ≡ op_of kind byte operands }
{
    match kind {
        OpKind::Alu(k) => {
            let (a, b) = destination_and_source(operands)?;
            Some(Op::Alu(k, a, b))
        }
        OpKind::Test => {
            let (a, b) = destination_and_source(operands)?;
            Some(Op::Test(a, b))
        }
        OpKind::Unary(k) => {
            let a = place_alone(operands)?;
            Some(Op::Unary(k, a))
        }
        OpKind::Inc => {
            let a = place_alone(operands)?;
            Some(Op::Inc(a))
        }
        OpKind::Dec => {
            let a = place_alone(operands)?;
            Some(Op::Dec(a))
        }
        OpKind::Imul2 => {
            let (r, b) = register_and_place(operands)?;
            Some(Op::Imul2(r, b))
        }
        OpKind::Imul3 => {
            let (r, b, v) = register_place_and_number(operands)?;
            Some(Op::Imul3(r, b, v))
        }
        OpKind::Mov => {
            let (a, b) = destination_and_source(operands)?;
            Some(Op::Mov(a, b))
        }
        OpKind::MovZx(w) => {
            let (r, b) = register_and_place(operands)?;
            Some(Op::MovZx(r, w, b))
        }
        OpKind::MovSx(w) => {
            let (r, b) = register_and_place(operands)?;
            Some(Op::MovSx(r, w, b))
        }
        OpKind::Lea => {
            let (r, m) = register_and_memory(operands)?;
            Some(Op::Lea(r, m))
        }
        OpKind::Xchg => {
            let (a, b) = two_places(operands)?;
            Some(Op::Xchg(a, b))
        }
        OpKind::CmpXchg => {
            let (a, b) = two_places(operands)?;
            Some(Op::CmpXchg(a, b))
        }
        OpKind::Xadd => {
            let (a, b) = two_places(operands)?;
            Some(Op::Xadd(a, b))
        }
        OpKind::Shift(k) => {
            let (a, n) = place_and_byte(operands)?;
            Some(Op::Shift(k, a, Count::Imm(n)))
        }
        OpKind::ShiftOne(k) => {
            let a = place_alone(operands)?;
            Some(Op::Shift(k, a, Count::Imm(1)))
        }
        OpKind::ShiftCl(k) => {
            let a = place_alone(operands)?;
            Some(Op::Shift(k, a, Count::Cl))
        }
        OpKind::Bit(k) => {
            let (a, b) = destination_and_source(operands)?;
            Some(Op::Bit(k, a, b))
        }
        OpKind::Bsf => {
            let (r, b) = register_and_place(operands)?;
            Some(Op::Bsf(r, b))
        }
        OpKind::Bsr => {
            let (r, b) = register_and_place(operands)?;
            Some(Op::Bsr(r, b))
        }
        OpKind::Bswap => {
            let r = register_alone(operands)?;
            Some(Op::Bswap(r))
        }
        OpKind::SetCc => {
            let c = condition_of(byte)?;
            let a = place_alone(operands)?;
            Some(Op::SetCc(c, a))
        }
        OpKind::CMov => {
            let c = condition_of(byte)?;
            let (r, b) = register_and_place(operands)?;
            Some(Op::CMov(c, r, b))
        }
        OpKind::Jcc => {
            let c = condition_of(byte)?;
            let d = offset_alone(operands)?;
            Some(Op::Jcc(c, d))
        }
        OpKind::Jmp => {
            let d = offset_alone(operands)?;
            Some(Op::Jmp(d))
        }
        OpKind::Call => {
            let d = offset_alone(operands)?;
            Some(Op::Call(d))
        }
        OpKind::JmpTo => {
            let a = place_alone(operands)?;
            Some(Op::JmpTo(a))
        }
        OpKind::CallReg => {
            let r = register_alone(operands)?;
            Some(Op::CallReg(r))
        }
        OpKind::Ret => alone(operands, Op::Ret(0)),
        OpKind::RetImmediate => {
            let n = word_alone(operands)?;
            Some(Op::Ret(n))
        }
        OpKind::Push => {
            let b = source_alone(operands)?;
            Some(Op::Push(b))
        }
        OpKind::Pop => {
            let r = register_alone(operands)?;
            Some(Op::Pop(r))
        }
        OpKind::Leave => alone(operands, Op::Leave),
        OpKind::PushF => alone(operands, Op::PushF),
        OpKind::PopF => alone(operands, Op::PopF),
        OpKind::Clc => alone(operands, Op::Clc),
        OpKind::Stc => alone(operands, Op::Stc),
        OpKind::Cmc => alone(operands, Op::Cmc),
        OpKind::Cld => alone(operands, Op::Cld),
        OpKind::Std => alone(operands, Op::Std),
        OpKind::Int3 => alone(operands, Op::Int(3)),
        OpKind::Hlt => alone(operands, Op::Hlt),
        OpKind::Sti => alone(operands, Op::Sti),
        OpKind::Cli => alone(operands, Op::Cli),
        OpKind::Widen => alone(operands, Op::Widen),
        OpKind::SignFill => alone(operands, Op::SignFill),
        OpKind::In => {
            let n = byte_alone(operands)?;
            Some(Op::In(Some(n)))
        }
        OpKind::Out => {
            let n = byte_alone(operands)?;
            Some(Op::Out(Some(n)))
        }
        OpKind::InDx => alone(operands, Op::In(None)),
        OpKind::OutDx => alone(operands, Op::Out(None)),
        OpKind::Int => {
            let n = byte_alone(operands)?;
            Some(Op::Int(n))
        }
        OpKind::Iret => alone(operands, Op::Iret),
        OpKind::Ud2 => alone(operands, Op::Ud2),
        OpKind::Lidt => {
            let m = memory_alone(operands)?;
            Some(Op::Lidt(m))
        }
        OpKind::Nop => alone(operands, Op::Nop(None)),
        OpKind::NopAt => {
            let a = place_alone(operands)?;
            Some(Op::Nop(Some(a)))
        }
        OpKind::Pause => alone(operands, Op::Pause),
        OpKind::Endbr => alone(operands, Op::Endbr),
        OpKind::Fence(m) => alone(operands, Op::Fence(m)),
    }
}

/// The width of the operand that mod and rm name, which MOVZX, MOVSX and MOVSXD extend.
#[tactic(auto, unfolding(x86_grammar::specs::Meaning::rm_width))]
pub fn rm_width(kind: OpKind, width: Width) -> Width
    ensures { result ≡ rm_width kind width }
{
    match kind {
        OpKind::MovZx(from) | OpKind::MovSx(from) => from,
        _ => width,
    }
}

/// The instruction that the parts of a spelling mean, where they fit together.
#[tactic(auto, unfolding(x86_grammar::specs::Meaning::meaning))]
pub fn meaning(
    row: &Row,
    head: &Head,
    modrm: &[u8],
    sib: &[u8],
    disp: &[u8],
    imm: &[u8],
) -> Option<Insn>
    ensures { result ≡ meaning row.now head.now modrm.now sib.now disp.now imm.now }
{
    let width = width_of(row.class, head.prefixes, head.rex);
    let from = rm_width(row.kind, width);
    let operands = row_operands(row, width, from, head, modrm, sib, disp, imm)?;
    let op = op_of(row.kind, head.byte, operands)?;
    Some(Insn {
        lock: head.prefixes.lock,
        width,
        op,
    })
}
