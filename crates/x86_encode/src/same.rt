ghost use Rattle.std.specs.Prelude.{◌≡◌, ◌↔◌, IsTrue};

use vm_law::{
    ArithmeticOp, BitTestOp, Condition, Count, Insn, Loc, Mem, Op, ShiftOp, Src, UnaryOp, Width,
};

// Whether a value is of this variant, and its fields pass the test.
macro_rules! same {
    ($value:ident is $variant:pat => $test:expr) => {
        if let $variant = $value {
            $test
        } else {
            false
        }
    };
}

fn same_option(a: Option<u8>, b: Option<u8>) -> bool
    ensures { IsTrue result ↔ (a ≡ b) }
{
    a == b
}

fn same_width(a: Width, b: Width) -> bool
    ensures { IsTrue result ↔ (a ≡ b) }
{
    a == b
}

fn same_arithmetic(a: ArithmeticOp, b: ArithmeticOp) -> bool
    ensures { IsTrue result ↔ (a ≡ b) }
{
    a == b
}

fn same_unary(a: UnaryOp, b: UnaryOp) -> bool
    ensures { IsTrue result ↔ (a ≡ b) }
{
    a == b
}

fn same_shift(a: ShiftOp, b: ShiftOp) -> bool
    ensures { IsTrue result ↔ (a ≡ b) }
{
    a == b
}

fn same_bit_test(a: BitTestOp, b: BitTestOp) -> bool
    ensures { IsTrue result ↔ (a ≡ b) }
{
    a == b
}

fn same_condition(a: Condition, b: Condition) -> bool
    ensures { IsTrue result ↔ (a ≡ b) }
{
    a == b
}

fn same_mem(a: &Mem, b: &Mem) -> bool
    ensures { IsTrue result ↔ (a.now ≡ b.now) }
{
    same_option(a.base, b.base)
        && same_option(a.index, b.index)
        && a.scale == b.scale
        && a.disp == b.disp
        && a.rip == b.rip
}

fn same_loc(a: &Loc, b: &Loc) -> bool
    ensures { IsTrue result ↔ (a.now ≡ b.now) }
{
    match a {
        Loc::Reg(x) => same!(b is Loc::Reg(y) => *x == *y),
        Loc::High(x) => same!(b is Loc::High(y) => *x == *y),
        Loc::Mem(x) => same!(b is Loc::Mem(y) => same_mem(x, y)),
    }
}

fn same_src(a: &Src, b: &Src) -> bool
    ensures { IsTrue result ↔ (a.now ≡ b.now) }
{
    match a {
        Src::Loc(x) => same!(b is Src::Loc(y) => same_loc(x, y)),
        Src::Imm(x) => same!(b is Src::Imm(y) => *x == *y),
    }
}

fn same_count(a: &Count, b: &Count) -> bool
    ensures { IsTrue result ↔ (a.now ≡ b.now) }
{
    match a {
        Count::Imm(x) => same!(b is Count::Imm(y) => *x == *y),
        Count::Cl => matches!(b, Count::Cl),
    }
}

fn same_optional_loc(a: &Option<Loc>, b: &Option<Loc>) -> bool
    ensures { IsTrue result ↔ (a.now ≡ b.now) }
{
    match a {
        None => b.is_none(),
        Some(x) => same!(b is Some(y) => same_loc(x, y)),
    }
}

fn same_op(a: &Op, b: &Op) -> bool
    ensures { IsTrue result ↔ (a.now ≡ b.now) }
{
    match a {
        Op::Alu(x0, x1, x2) =>
            same!(b is Op::Alu(y0, y1, y2) => same_arithmetic(*x0, *y0) && same_loc(x1, y1) && same_src(x2, y2)),
        Op::Test(x0, x1) => same!(b is Op::Test(y0, y1) => same_loc(x0, y0) && same_src(x1, y1)),
        Op::Unary(x0, x1) =>
            same!(b is Op::Unary(y0, y1) => same_unary(*x0, *y0) && same_loc(x1, y1)),
        Op::Inc(x) => same!(b is Op::Inc(y) => same_loc(x, y)),
        Op::Dec(x) => same!(b is Op::Dec(y) => same_loc(x, y)),
        Op::Imul2(x0, x1) => same!(b is Op::Imul2(y0, y1) => *x0 == *y0 && same_loc(x1, y1)),
        Op::Imul3(x0, x1, x2) =>
            same!(b is Op::Imul3(y0, y1, y2) => *x0 == *y0 && same_loc(x1, y1) && *x2 == *y2),
        Op::Mov(x0, x1) => same!(b is Op::Mov(y0, y1) => same_loc(x0, y0) && same_src(x1, y1)),
        Op::MovZx(x0, x1, x2) =>
            same!(b is Op::MovZx(y0, y1, y2) => *x0 == *y0 && same_width(*x1, *y1) && same_loc(x2, y2)),
        Op::MovSx(x0, x1, x2) =>
            same!(b is Op::MovSx(y0, y1, y2) => *x0 == *y0 && same_width(*x1, *y1) && same_loc(x2, y2)),
        Op::Lea(x0, x1) => same!(b is Op::Lea(y0, y1) => *x0 == *y0 && same_mem(x1, y1)),
        Op::Xchg(x0, x1) => same!(b is Op::Xchg(y0, y1) => same_loc(x0, y0) && same_loc(x1, y1)),
        Op::CmpXchg(x0, x1) =>
            same!(b is Op::CmpXchg(y0, y1) => same_loc(x0, y0) && same_loc(x1, y1)),
        Op::Xadd(x0, x1) => same!(b is Op::Xadd(y0, y1) => same_loc(x0, y0) && same_loc(x1, y1)),
        Op::Shift(x0, x1, x2) =>
            same!(b is Op::Shift(y0, y1, y2) => same_shift(*x0, *y0) && same_loc(x1, y1) && same_count(x2, y2)),
        Op::Bit(x0, x1, x2) =>
            same!(b is Op::Bit(y0, y1, y2) => same_bit_test(*x0, *y0) && same_loc(x1, y1) && same_src(x2, y2)),
        Op::Bsf(x0, x1) => same!(b is Op::Bsf(y0, y1) => *x0 == *y0 && same_loc(x1, y1)),
        Op::Bsr(x0, x1) => same!(b is Op::Bsr(y0, y1) => *x0 == *y0 && same_loc(x1, y1)),
        Op::Bswap(x) => same!(b is Op::Bswap(y) => *x == *y),
        Op::SetCc(x0, x1) =>
            same!(b is Op::SetCc(y0, y1) => same_condition(*x0, *y0) && same_loc(x1, y1)),
        Op::CMov(x0, x1, x2) =>
            same!(b is Op::CMov(y0, y1, y2) => same_condition(*x0, *y0) && *x1 == *y1 && same_loc(x2, y2)),
        Op::Jcc(x0, x1) => same!(b is Op::Jcc(y0, y1) => same_condition(*x0, *y0) && *x1 == *y1),
        Op::Jmp(x) => same!(b is Op::Jmp(y) => *x == *y),
        Op::Call(x) => same!(b is Op::Call(y) => *x == *y),
        Op::JmpTo(x) => same!(b is Op::JmpTo(y) => same_loc(x, y)),
        Op::CallReg(x) => same!(b is Op::CallReg(y) => *x == *y),
        Op::Ret(x) => same!(b is Op::Ret(y) => *x == *y),
        Op::Push(x) => same!(b is Op::Push(y) => same_src(x, y)),
        Op::Pop(x) => same!(b is Op::Pop(y) => *x == *y),
        Op::Leave => matches!(b, Op::Leave),
        Op::PushF => matches!(b, Op::PushF),
        Op::PopF => matches!(b, Op::PopF),
        Op::Widen => matches!(b, Op::Widen),
        Op::SignFill => matches!(b, Op::SignFill),
        Op::Clc => matches!(b, Op::Clc),
        Op::Stc => matches!(b, Op::Stc),
        Op::Cmc => matches!(b, Op::Cmc),
        Op::Cld => matches!(b, Op::Cld),
        Op::Std => matches!(b, Op::Std),
        Op::In(x) => same!(b is Op::In(y) => same_option(*x, *y)),
        Op::Out(x) => same!(b is Op::Out(y) => same_option(*x, *y)),
        Op::Int(x) => same!(b is Op::Int(y) => *x == *y),
        Op::Iret => matches!(b, Op::Iret),
        Op::Ud2 => matches!(b, Op::Ud2),
        Op::Lidt(x) => same!(b is Op::Lidt(y) => same_mem(x, y)),
        Op::Hlt => matches!(b, Op::Hlt),
        Op::Sti => matches!(b, Op::Sti),
        Op::Cli => matches!(b, Op::Cli),
        Op::Nop(x) => same!(b is Op::Nop(y) => same_optional_loc(x, y)),
        Op::Pause => matches!(b, Op::Pause),
        Op::Endbr => matches!(b, Op::Endbr),
        Op::Fence(x) => same!(b is Op::Fence(y) => *x == *y),
    }
}

/// Whether two instructions are the same.
pub(crate) fn same_insn(a: &Insn, b: &Insn) -> bool
    ensures { IsTrue result ↔ (a.now ≡ b.now) }
{
    a.lock == b.lock && same_width(a.width, b.width) && same_op(&a.op, &b.op)
}
