use vm_law::ArithmeticOp::{Adc, Add, And, Cmp, Or, Sbb, Sub, Xor};
use vm_law::BitTestOp::{Bt, Btc, Btr, Bts};
use vm_law::ShiftOp::{Rol, Ror, Sar, Shl, Shr};
use vm_law::UnaryOp::{Div, Idiv, Imul, Mul, Neg, Not};
use vm_law::Width::{B, D, W};
use vm_law::{ArithmeticOp, BitTestOp, ShiftOp, UnaryOp, Width};

/// An opcode map. Source: Intel SDM volume 2, appendix A.3.
#[derive(Clone, Copy)]
pub enum Map {
    /// The opcodes of one byte.
    One,
    /// The opcodes of two bytes, of which the first is 0F.
    Two,
}

/// What the ModRM byte says besides the operand, if there is one. Source: Intel SDM volume 2, section 3.1.1.1.
#[derive(Clone, Copy)]
pub enum Slash {
    /// There is no ModRM byte.
    None,
    /// `/r`: its middle field is a register.
    Any,
    /// `/0` to `/7`: its middle field is this digit.
    Digit(u8),
    /// It is this byte.
    Byte(u8),
}

/// What the operand of the ModRM byte may be.
#[derive(Clone, Copy)]
pub enum Side {
    /// A register, or a place in memory.
    Any,
    /// A place in memory.
    Mem,
    /// A register.
    Reg,
}

/// What decides the width. Source: Intel SDM volume 2, sections 2.2.1.2 and A.2.2.
#[derive(Clone, Copy)]
pub enum Class {
    /// 8 bits.
    B,
    /// 64 bits with REX.W, else 16 with 66, else 32.
    V,
    /// 16 bits with 66, else 32.
    W,
    /// 64 bits. 66 may not stand.
    Q,
    /// 64 bits, in name alone. 66 may stand.
    N,
    /// 64 bits with REX.W, else 32. 66 may not stand.
    L,
}

/// What else an opcode wants.
#[derive(Clone, Copy)]
pub enum Need {
    None,
    /// REX.W.
    Wide,
    /// No REX.B.
    NoB,
    /// A register other than rAX in the opcode byte.
    NotAcc,
}

/// The immediate. Source: Intel SDM volume 2, section A.2.2.
#[derive(Clone, Copy)]
pub enum Imm {
    None,
    /// One byte.
    B,
    /// Two bytes.
    W,
    /// Four bytes.
    D,
    /// Two bytes at 16 bits, else four.
    Z,
    /// As many bytes as the operand has.
    V,
}

/// Which operands there are, the destination first.
#[derive(Clone, Copy)]
pub enum Form {
    /// ModRM's operand, and its register.
    EG,
    /// ModRM's register, and its operand.
    GE,
    /// ModRM's operand, and an immediate.
    EI,
    /// ModRM's register, its operand, and an immediate.
    GEI,
    /// ModRM's operand.
    E,
    /// rAX, and an immediate.
    AI,
    /// The register in the opcode byte, and an immediate.
    OI,
    /// The register in the opcode byte, and rAX.
    OA,
    /// The register in the opcode byte.
    O,
    /// An immediate.
    I,
    /// None.
    Z,
}

/// Which operation it is.
#[derive(Clone, Copy)]
pub enum OpKind {
    Alu(ArithmeticOp),
    Test,
    Unary(UnaryOp),
    Inc,
    Dec,
    Imul2,
    Imul3,
    Mov,
    /// MOVZX, from this width.
    MovZx(Width),
    /// MOVSX and MOVSXD, from this width.
    MovSx(Width),
    Lea,
    Xchg,
    CmpXchg,
    Xadd,
    /// By an immediate.
    Shift(ShiftOp),
    /// By 1.
    ShiftOne(ShiftOp),
    /// By CL.
    ShiftCl(ShiftOp),
    Bit(BitTestOp),
    Bsf,
    Bsr,
    Bswap,
    /// By the condition in the opcode byte.
    SetCc,
    /// By the condition in the opcode byte.
    CMov,
    /// By the condition in the opcode byte.
    Jcc,
    Jmp,
    Call,
    JmpTo,
    CallReg,
    /// RET without an immediate.
    Ret,
    /// RET that drops as many bytes as its immediate says.
    RetImmediate,
    Push,
    Pop,
    Leave,
    PushF,
    PopF,
    Clc,
    Stc,
    Cmc,
    Cld,
    Std,
    Int3,
    Hlt,
    Sti,
    Cli,
    Widen,
    SignFill,
    /// IN from a port that is an immediate.
    In,
    /// OUT to a port that is an immediate.
    Out,
    /// IN from the port in DX.
    InDx,
    /// OUT to the port in DX.
    OutDx,
    Int,
    Iret,
    Ud2,
    Lidt,
    /// NOP without an operand.
    Nop,
    /// NOP with an operand.
    NopAt,
    Pause,
    Endbr,
    /// LFENCE, MFENCE or SFENCE, by its ModRM byte.
    Fence(u8),
}

/// An opcode with all that may stand with it. Source: Intel SDM volume 2, section 3.1.1.
#[derive(Clone, Copy)]
pub struct Row {
    pub map: Map,
    /// The first of its opcode bytes.
    pub byte: u8,
    /// How many opcode bytes it has: 8 where they name a register, 16 where they name a condition.
    pub span: u8,
    pub slash: Slash,
    pub side: Side,
    pub class: Class,
    pub need: Need,
    pub imm: Imm,
    pub form: Form,
    pub kind: OpKind,
    /// Whether F0 may stand, where ModRM's operand is in memory.
    pub lock: bool,
    /// Whether F3 stands. It may not stand else.
    pub rep: bool,
}

// The fields of a row in their order.
macro_rules! row {
    ($map:ident $byte:literal $span:literal $slash:ident$(($digit:literal))? $side:ident $class:ident $need:ident $imm:ident $form:ident $kind:ident$(($k:expr))? $lock:literal $rep:literal) => {
        Row {
            map: Map::$map,
            byte: $byte,
            span: $span,
            slash: Slash::$slash$(($digit))?,
            side: Side::$side,
            class: Class::$class,
            need: Need::$need,
            imm: Imm::$imm,
            form: Form::$form,
            kind: OpKind::$kind$(($k))?,
            lock: $lock,
            rep: $rep,
        }
    };
}

/// The opcodes, by map and byte. Source: Intel SDM volume 2, appendix A.3 and A.4, and the pages of the instructions.
pub static ROWS: [Row; 207] = [
    row!(One 0x00 1 Any Any B None None EG Alu(Add) true false),
    row!(One 0x01 1 Any Any V None None EG Alu(Add) true false),
    row!(One 0x02 1 Any Any B None None GE Alu(Add) false false),
    row!(One 0x03 1 Any Any V None None GE Alu(Add) false false),
    row!(One 0x04 1 None Any B None B AI Alu(Add) false false),
    row!(One 0x05 1 None Any V None Z AI Alu(Add) false false),
    row!(One 0x08 1 Any Any B None None EG Alu(Or) true false),
    row!(One 0x09 1 Any Any V None None EG Alu(Or) true false),
    row!(One 0x0A 1 Any Any B None None GE Alu(Or) false false),
    row!(One 0x0B 1 Any Any V None None GE Alu(Or) false false),
    row!(One 0x0C 1 None Any B None B AI Alu(Or) false false),
    row!(One 0x0D 1 None Any V None Z AI Alu(Or) false false),
    row!(One 0x10 1 Any Any B None None EG Alu(Adc) true false),
    row!(One 0x11 1 Any Any V None None EG Alu(Adc) true false),
    row!(One 0x12 1 Any Any B None None GE Alu(Adc) false false),
    row!(One 0x13 1 Any Any V None None GE Alu(Adc) false false),
    row!(One 0x14 1 None Any B None B AI Alu(Adc) false false),
    row!(One 0x15 1 None Any V None Z AI Alu(Adc) false false),
    row!(One 0x18 1 Any Any B None None EG Alu(Sbb) true false),
    row!(One 0x19 1 Any Any V None None EG Alu(Sbb) true false),
    row!(One 0x1A 1 Any Any B None None GE Alu(Sbb) false false),
    row!(One 0x1B 1 Any Any V None None GE Alu(Sbb) false false),
    row!(One 0x1C 1 None Any B None B AI Alu(Sbb) false false),
    row!(One 0x1D 1 None Any V None Z AI Alu(Sbb) false false),
    row!(One 0x20 1 Any Any B None None EG Alu(And) true false),
    row!(One 0x21 1 Any Any V None None EG Alu(And) true false),
    row!(One 0x22 1 Any Any B None None GE Alu(And) false false),
    row!(One 0x23 1 Any Any V None None GE Alu(And) false false),
    row!(One 0x24 1 None Any B None B AI Alu(And) false false),
    row!(One 0x25 1 None Any V None Z AI Alu(And) false false),
    row!(One 0x28 1 Any Any B None None EG Alu(Sub) true false),
    row!(One 0x29 1 Any Any V None None EG Alu(Sub) true false),
    row!(One 0x2A 1 Any Any B None None GE Alu(Sub) false false),
    row!(One 0x2B 1 Any Any V None None GE Alu(Sub) false false),
    row!(One 0x2C 1 None Any B None B AI Alu(Sub) false false),
    row!(One 0x2D 1 None Any V None Z AI Alu(Sub) false false),
    row!(One 0x30 1 Any Any B None None EG Alu(Xor) true false),
    row!(One 0x31 1 Any Any V None None EG Alu(Xor) true false),
    row!(One 0x32 1 Any Any B None None GE Alu(Xor) false false),
    row!(One 0x33 1 Any Any V None None GE Alu(Xor) false false),
    row!(One 0x34 1 None Any B None B AI Alu(Xor) false false),
    row!(One 0x35 1 None Any V None Z AI Alu(Xor) false false),
    row!(One 0x38 1 Any Any B None None EG Alu(Cmp) false false),
    row!(One 0x39 1 Any Any V None None EG Alu(Cmp) false false),
    row!(One 0x3A 1 Any Any B None None GE Alu(Cmp) false false),
    row!(One 0x3B 1 Any Any V None None GE Alu(Cmp) false false),
    row!(One 0x3C 1 None Any B None B AI Alu(Cmp) false false),
    row!(One 0x3D 1 None Any V None Z AI Alu(Cmp) false false),
    row!(One 0x50 8 None Any Q None None O Push false false),
    row!(One 0x58 8 None Any Q None None O Pop false false),
    row!(One 0x63 1 Any Any Q Wide None GE MovSx(D) false false),
    row!(One 0x68 1 None Any Q None D I Push false false),
    row!(One 0x69 1 Any Any V None Z GEI Imul3 false false),
    row!(One 0x6A 1 None Any Q None B I Push false false),
    row!(One 0x6B 1 Any Any V None B GEI Imul3 false false),
    row!(One 0x70 16 None Any Q None B I Jcc false false),
    row!(One 0x80 1 Digit(0) Any B None B EI Alu(Add) true false),
    row!(One 0x80 1 Digit(1) Any B None B EI Alu(Or) true false),
    row!(One 0x80 1 Digit(2) Any B None B EI Alu(Adc) true false),
    row!(One 0x80 1 Digit(3) Any B None B EI Alu(Sbb) true false),
    row!(One 0x80 1 Digit(4) Any B None B EI Alu(And) true false),
    row!(One 0x80 1 Digit(5) Any B None B EI Alu(Sub) true false),
    row!(One 0x80 1 Digit(6) Any B None B EI Alu(Xor) true false),
    row!(One 0x80 1 Digit(7) Any B None B EI Alu(Cmp) false false),
    row!(One 0x81 1 Digit(0) Any V None Z EI Alu(Add) true false),
    row!(One 0x81 1 Digit(1) Any V None Z EI Alu(Or) true false),
    row!(One 0x81 1 Digit(2) Any V None Z EI Alu(Adc) true false),
    row!(One 0x81 1 Digit(3) Any V None Z EI Alu(Sbb) true false),
    row!(One 0x81 1 Digit(4) Any V None Z EI Alu(And) true false),
    row!(One 0x81 1 Digit(5) Any V None Z EI Alu(Sub) true false),
    row!(One 0x81 1 Digit(6) Any V None Z EI Alu(Xor) true false),
    row!(One 0x81 1 Digit(7) Any V None Z EI Alu(Cmp) false false),
    row!(One 0x83 1 Digit(0) Any V None B EI Alu(Add) true false),
    row!(One 0x83 1 Digit(1) Any V None B EI Alu(Or) true false),
    row!(One 0x83 1 Digit(2) Any V None B EI Alu(Adc) true false),
    row!(One 0x83 1 Digit(3) Any V None B EI Alu(Sbb) true false),
    row!(One 0x83 1 Digit(4) Any V None B EI Alu(And) true false),
    row!(One 0x83 1 Digit(5) Any V None B EI Alu(Sub) true false),
    row!(One 0x83 1 Digit(6) Any V None B EI Alu(Xor) true false),
    row!(One 0x83 1 Digit(7) Any V None B EI Alu(Cmp) false false),
    row!(One 0x84 1 Any Any B None None EG Test false false),
    row!(One 0x85 1 Any Any V None None EG Test false false),
    row!(One 0x86 1 Any Any B None None EG Xchg true false),
    row!(One 0x87 1 Any Any V None None EG Xchg true false),
    row!(One 0x88 1 Any Any B None None EG Mov false false),
    row!(One 0x89 1 Any Any V None None EG Mov false false),
    row!(One 0x8A 1 Any Any B None None GE Mov false false),
    row!(One 0x8B 1 Any Any V None None GE Mov false false),
    row!(One 0x8D 1 Any Mem V None None GE Lea false false),
    row!(One 0x90 8 None Any V NotAcc None OA Xchg false false),
    row!(One 0x90 1 None Any N NoB None Z Nop false false),
    row!(One 0x90 1 None Any Q None None Z Pause false true),
    row!(One 0x98 1 None Any V None None Z Widen false false),
    row!(One 0x99 1 None Any V None None Z SignFill false false),
    row!(One 0x9C 1 None Any Q None None Z PushF false false),
    row!(One 0x9D 1 None Any Q None None Z PopF false false),
    row!(One 0xA8 1 None Any B None B AI Test false false),
    row!(One 0xA9 1 None Any V None Z AI Test false false),
    row!(One 0xB0 8 None Any B None B OI Mov false false),
    row!(One 0xB8 8 None Any V None V OI Mov false false),
    row!(One 0xC0 1 Digit(0) Any B None B EI Shift(Rol) false false),
    row!(One 0xC0 1 Digit(1) Any B None B EI Shift(Ror) false false),
    row!(One 0xC0 1 Digit(4) Any B None B EI Shift(Shl) false false),
    row!(One 0xC0 1 Digit(5) Any B None B EI Shift(Shr) false false),
    row!(One 0xC0 1 Digit(7) Any B None B EI Shift(Sar) false false),
    row!(One 0xC1 1 Digit(0) Any V None B EI Shift(Rol) false false),
    row!(One 0xC1 1 Digit(1) Any V None B EI Shift(Ror) false false),
    row!(One 0xC1 1 Digit(4) Any V None B EI Shift(Shl) false false),
    row!(One 0xC1 1 Digit(5) Any V None B EI Shift(Shr) false false),
    row!(One 0xC1 1 Digit(7) Any V None B EI Shift(Sar) false false),
    row!(One 0xC2 1 None Any Q None W I RetImmediate false false),
    row!(One 0xC3 1 None Any Q None None Z Ret false false),
    row!(One 0xC6 1 Digit(0) Any B None B EI Mov false false),
    row!(One 0xC7 1 Digit(0) Any V None Z EI Mov false false),
    row!(One 0xC9 1 None Any Q None None Z Leave false false),
    row!(One 0xCC 1 None Any Q None None Z Int3 false false),
    row!(One 0xCD 1 None Any Q None B I Int false false),
    row!(One 0xCF 1 None Any Q Wide None Z Iret false false),
    row!(One 0xD0 1 Digit(0) Any B None None E ShiftOne(Rol) false false),
    row!(One 0xD0 1 Digit(1) Any B None None E ShiftOne(Ror) false false),
    row!(One 0xD0 1 Digit(4) Any B None None E ShiftOne(Shl) false false),
    row!(One 0xD0 1 Digit(5) Any B None None E ShiftOne(Shr) false false),
    row!(One 0xD0 1 Digit(7) Any B None None E ShiftOne(Sar) false false),
    row!(One 0xD1 1 Digit(0) Any V None None E ShiftOne(Rol) false false),
    row!(One 0xD1 1 Digit(1) Any V None None E ShiftOne(Ror) false false),
    row!(One 0xD1 1 Digit(4) Any V None None E ShiftOne(Shl) false false),
    row!(One 0xD1 1 Digit(5) Any V None None E ShiftOne(Shr) false false),
    row!(One 0xD1 1 Digit(7) Any V None None E ShiftOne(Sar) false false),
    row!(One 0xD2 1 Digit(0) Any B None None E ShiftCl(Rol) false false),
    row!(One 0xD2 1 Digit(1) Any B None None E ShiftCl(Ror) false false),
    row!(One 0xD2 1 Digit(4) Any B None None E ShiftCl(Shl) false false),
    row!(One 0xD2 1 Digit(5) Any B None None E ShiftCl(Shr) false false),
    row!(One 0xD2 1 Digit(7) Any B None None E ShiftCl(Sar) false false),
    row!(One 0xD3 1 Digit(0) Any V None None E ShiftCl(Rol) false false),
    row!(One 0xD3 1 Digit(1) Any V None None E ShiftCl(Ror) false false),
    row!(One 0xD3 1 Digit(4) Any V None None E ShiftCl(Shl) false false),
    row!(One 0xD3 1 Digit(5) Any V None None E ShiftCl(Shr) false false),
    row!(One 0xD3 1 Digit(7) Any V None None E ShiftCl(Sar) false false),
    row!(One 0xE4 1 None Any B None B I In false false),
    row!(One 0xE5 1 None Any W None B I In false false),
    row!(One 0xE6 1 None Any B None B I Out false false),
    row!(One 0xE7 1 None Any W None B I Out false false),
    row!(One 0xE8 1 None Any Q None D I Call false false),
    row!(One 0xE9 1 None Any Q None D I Jmp false false),
    row!(One 0xEB 1 None Any Q None B I Jmp false false),
    row!(One 0xEC 1 None Any B None None Z InDx false false),
    row!(One 0xED 1 None Any W None None Z InDx false false),
    row!(One 0xEE 1 None Any B None None Z OutDx false false),
    row!(One 0xEF 1 None Any W None None Z OutDx false false),
    row!(One 0xF4 1 None Any Q None None Z Hlt false false),
    row!(One 0xF5 1 None Any Q None None Z Cmc false false),
    row!(One 0xF6 1 Digit(0) Any B None B EI Test false false),
    row!(One 0xF6 1 Digit(2) Any B None None E Unary(Not) true false),
    row!(One 0xF6 1 Digit(3) Any B None None E Unary(Neg) true false),
    row!(One 0xF6 1 Digit(4) Any B None None E Unary(Mul) false false),
    row!(One 0xF6 1 Digit(5) Any B None None E Unary(Imul) false false),
    row!(One 0xF6 1 Digit(6) Any B None None E Unary(Div) false false),
    row!(One 0xF6 1 Digit(7) Any B None None E Unary(Idiv) false false),
    row!(One 0xF7 1 Digit(0) Any V None Z EI Test false false),
    row!(One 0xF7 1 Digit(2) Any V None None E Unary(Not) true false),
    row!(One 0xF7 1 Digit(3) Any V None None E Unary(Neg) true false),
    row!(One 0xF7 1 Digit(4) Any V None None E Unary(Mul) false false),
    row!(One 0xF7 1 Digit(5) Any V None None E Unary(Imul) false false),
    row!(One 0xF7 1 Digit(6) Any V None None E Unary(Div) false false),
    row!(One 0xF7 1 Digit(7) Any V None None E Unary(Idiv) false false),
    row!(One 0xF8 1 None Any Q None None Z Clc false false),
    row!(One 0xF9 1 None Any Q None None Z Stc false false),
    row!(One 0xFA 1 None Any Q None None Z Cli false false),
    row!(One 0xFB 1 None Any Q None None Z Sti false false),
    row!(One 0xFC 1 None Any Q None None Z Cld false false),
    row!(One 0xFD 1 None Any Q None None Z Std false false),
    row!(One 0xFE 1 Digit(0) Any B None None E Inc true false),
    row!(One 0xFE 1 Digit(1) Any B None None E Dec true false),
    row!(One 0xFF 1 Digit(0) Any V None None E Inc true false),
    row!(One 0xFF 1 Digit(1) Any V None None E Dec true false),
    row!(One 0xFF 1 Digit(2) Reg Q None None E CallReg false false),
    row!(One 0xFF 1 Digit(4) Any Q None None E JmpTo false false),
    row!(Two 0x01 1 Digit(3) Mem Q None None E Lidt false false),
    row!(Two 0x0B 1 None Any Q None None Z Ud2 false false),
    row!(Two 0x1E 1 Byte(0xFA) Reg Q None None Z Endbr false true),
    row!(Two 0x1F 1 Digit(0) Any V None None E NopAt false false),
    row!(Two 0x40 16 Any Any V None None GE CMov false false),
    row!(Two 0x80 16 None Any Q None D I Jcc false false),
    row!(Two 0x90 16 Any Any B None None E SetCc false false),
    row!(Two 0xA3 1 Any Reg V None None EG Bit(Bt) false false),
    row!(Two 0xAB 1 Any Reg V None None EG Bit(Bts) false false),
    row!(Two 0xAE 1 Byte(0xE8) Reg Q None None Z Fence(0xE8) false false),
    row!(Two 0xAE 1 Byte(0xF0) Reg Q None None Z Fence(0xF0) false false),
    row!(Two 0xAE 1 Byte(0xF8) Reg Q None None Z Fence(0xF8) false false),
    row!(Two 0xAF 1 Any Any V None None GE Imul2 false false),
    row!(Two 0xB0 1 Any Any B None None EG CmpXchg true false),
    row!(Two 0xB1 1 Any Any V None None EG CmpXchg true false),
    row!(Two 0xB3 1 Any Reg V None None EG Bit(Btr) false false),
    row!(Two 0xB6 1 Any Any V None None GE MovZx(B) false false),
    row!(Two 0xB7 1 Any Any V None None GE MovZx(W) false false),
    row!(Two 0xBA 1 Digit(4) Any V None B EI Bit(Bt) false false),
    row!(Two 0xBA 1 Digit(5) Any V None B EI Bit(Bts) true false),
    row!(Two 0xBA 1 Digit(6) Any V None B EI Bit(Btr) true false),
    row!(Two 0xBA 1 Digit(7) Any V None B EI Bit(Btc) true false),
    row!(Two 0xBB 1 Any Reg V None None EG Bit(Btc) false false),
    row!(Two 0xBC 1 Any Any V None None GE Bsf false false),
    row!(Two 0xBD 1 Any Any V None None GE Bsr false false),
    row!(Two 0xBE 1 Any Any V None None GE MovSx(B) false false),
    row!(Two 0xBF 1 Any Any V None None GE MovSx(W) false false),
    row!(Two 0xC0 1 Any Any B None None EG Xadd true false),
    row!(Two 0xC1 1 Any Any V None None EG Xadd true false),
    row!(Two 0xC8 8 None Any L None None O Bswap false false),
];
