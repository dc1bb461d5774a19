/// The width of an operation: 8, 16, 32 or 64 bits.
#[derive(Clone, Copy, Debug, PartialEq, Eq)]
pub enum Width {
    B,
    W,
    D,
    Q,
}

/// A place in memory: the sum of base, `scale` times index and displacement, modulo 2^64.
///
/// Registers are numbered RAX 0, RCX 1, RDX 2, RBX 3, RSP 4, RBP 5, RSI 6, RDI 7, R8 8 to R15 15.
/// With `rip` the displacement counts from the next instruction, and there is neither base nor index.
/// Source: Intel SDM volume 2, section 2.1.5 and 2.2.1.6.
#[derive(Clone, Copy, PartialEq, Eq)]
pub struct Mem {
    pub base: Option<u8>,
    pub index: Option<u8>,
    /// 1, 2, 4 or 8; 1 where there is no index.
    pub scale: u8,
    pub disp: i32,
    pub rip: bool,
}

/// An operand that can be read and written.
#[derive(Clone, Copy, PartialEq, Eq)]
pub enum Loc {
    /// A register, 0 to 15, of the instruction's width.
    Reg(u8),
    /// AH, CH, DH or BH, by 0 to 3.
    High(u8),
    Mem(Mem),
}

/// An operand that is read: a place or a sign-extended immediate.
#[derive(Clone, Copy, PartialEq, Eq)]
pub enum Src {
    Loc(Loc),
    Imm(i64),
}

/// How far a shift or rotate goes: an immediate, or CL.
#[derive(Clone, Copy, Debug, PartialEq, Eq)]
pub enum Count {
    Imm(u8),
    Cl,
}

/// An operation on a destination and a source.
#[derive(Clone, Copy, Debug, PartialEq, Eq)]
pub enum ArithmeticOp {
    Add,
    Or,
    /// ADD with the carry flag.
    Adc,
    /// SUB with the borrow in the carry flag.
    Sbb,
    And,
    Sub,
    Xor,
    /// SUB whose result is dropped.
    Cmp,
}

/// An operation on one operand. Products and quotients are of rDX:rAX, at a width of 8 bits of AX.
#[derive(Clone, Copy, Debug, PartialEq, Eq)]
pub enum UnaryOp {
    Not,
    Neg,
    Mul,
    /// MUL of signed numbers.
    Imul,
    Div,
    /// DIV of signed numbers.
    Idiv,
}

/// A shift or rotate.
#[derive(Clone, Copy, Debug, PartialEq, Eq)]
pub enum ShiftOp {
    Rol,
    Ror,
    /// SHL, which is SAL too.
    Shl,
    Shr,
    Sar,
}

/// A test of one bit.
#[derive(Clone, Copy, Debug, PartialEq, Eq)]
pub enum BitTestOp {
    /// Copies the bit into the carry flag.
    Bt,
    /// The same, and sets the bit.
    Bts,
    /// The same, and clears it.
    Btr,
    /// The same, and turns it over.
    Btc,
}

/// A condition on the flags, in the order of its four bits in an opcode. Source: Intel SDM volume 1, appendix B.
#[derive(Clone, Copy, Debug, PartialEq, Eq)]
pub enum Condition {
    O,
    No,
    B,
    Ae,
    E,
    Ne,
    Be,
    A,
    S,
    Ns,
    P,
    Np,
    L,
    Ge,
    Le,
    G,
}

/// An operation with its operands. Source: Intel SDM volume 2.
#[derive(Clone, Copy, PartialEq, Eq)]
pub enum Op {
    Alu(ArithmeticOp, Loc, Src),
    Test(Loc, Src),
    Unary(UnaryOp, Loc),
    Inc(Loc),
    Dec(Loc),
    /// IMUL of a register by an operand.
    Imul2(u8, Loc),
    /// IMUL of an operand by an immediate, into a register.
    Imul3(u8, Loc, i32),
    Mov(Loc, Src),
    /// MOVZX into a register from an operand of 8 or 16 bits.
    MovZx(u8, Width, Loc),
    /// MOVSX from 8 or 16 bits, MOVSXD from 32.
    MovSx(u8, Width, Loc),
    Lea(u8, Mem),
    Xchg(Loc, Loc),
    CmpXchg(Loc, Loc),
    Xadd(Loc, Loc),
    Shift(ShiftOp, Loc, Count),
    Bit(BitTestOp, Loc, Src),
    Bsf(u8, Loc),
    Bsr(u8, Loc),
    Bswap(u8),
    SetCc(Condition, Loc),
    /// CMOVcc into a register.
    CMov(Condition, u8, Loc),
    /// Jcc; the displacement counts from the next instruction.
    Jcc(Condition, i32),
    Jmp(i32),
    Call(i32),
    JmpTo(Loc),
    CallReg(u8),
    /// RET, which drops so many bytes besides.
    Ret(u16),
    Push(Src),
    Pop(u8),
    Leave,
    PushF,
    PopF,
    /// CBW, CWDE or CDQE: the lower half of rAX sign-extended.
    Widen,
    /// CWD, CDQ or CQO: rDX filled with the sign of rAX.
    SignFill,
    Clc,
    Stc,
    Cmc,
    Cld,
    Std,
    /// IN from a port, or from the one in DX.
    In(Option<u8>),
    /// OUT to a port, or to the one in DX.
    Out(Option<u8>),
    Int(u8),
    Iret,
    Ud2,
    Lidt(Mem),
    Hlt,
    Sti,
    Cli,
    /// NOP, which accesses no operand.
    Nop(Option<Loc>),
    Pause,
    Endbr,
    /// LFENCE, MFENCE, SFENCE by their ModRM byte: 0xE8, 0xF0, 0xF8.
    Fence(u8),
}

/// An instruction.
#[derive(Clone, Copy, PartialEq, Eq)]
pub struct Insn {
    /// Whether LOCK stands before it.
    pub lock: bool,
    pub width: Width,
    pub op: Op,
}
