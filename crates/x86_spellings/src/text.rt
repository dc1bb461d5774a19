use std::alloc::AllocError;
use std::fmt::Write;
use vm_law::{
    ArithmeticOp, BitTestOp, Condition, Count, Insn, Loc, Mem, Op, ShiftOp, Src, UnaryOp, Width,
};

const BYTE: [&str; 16] = [
    "al", "cl", "dl", "bl", "spl", "bpl", "sil", "dil", "r8b", "r9b", "r10b", "r11b", "r12b",
    "r13b", "r14b", "r15b",
];

const WORD: [&str; 16] = [
    "ax", "cx", "dx", "bx", "sp", "bp", "si", "di", "r8w", "r9w", "r10w", "r11w", "r12w", "r13w",
    "r14w", "r15w",
];

const LONG: [&str; 16] = [
    "eax", "ecx", "edx", "ebx", "esp", "ebp", "esi", "edi", "r8d", "r9d", "r10d", "r11d", "r12d",
    "r13d", "r14d", "r15d",
];

const QUAD: [&str; 16] = [
    "rax", "rcx", "rdx", "rbx", "rsp", "rbp", "rsi", "rdi", "r8", "r9", "r10", "r11", "r12", "r13",
    "r14", "r15",
];

const HIGH: [&str; 4] = ["ah", "ch", "dh", "bh"];

/// The name of a register at a width.
fn register(width: Width, number: u8) -> &'static str {
    let number = number as usize;
    let name = match width {
        Width::B => BYTE.get(number),
        Width::W => WORD.get(number),
        Width::D => LONG.get(number),
        Width::Q => QUAD.get(number),
    };
    name.copied().unwrap_or("?")
}

fn high(number: u8) -> &'static str {
    HIGH.get(number as usize).copied().unwrap_or("?")
}

/// The word for a width of memory.
fn size(width: Width) -> &'static str {
    match width {
        Width::B => "BYTE PTR ",
        Width::W => "WORD PTR ",
        Width::D => "DWORD PTR ",
        Width::Q => "QWORD PTR ",
    }
}

/// A number in hexadecimal with its sign, `+` too.
fn put_signed(number: i32, out: &mut String) -> Result<(), AllocError> {
    if number < 0 {
        write!(out, "-0x{:x}", number.unsigned_abs())
    } else {
        write!(out, "+0x{number:x}")
    }
}

fn put_base(base: Option<u8>, out: &mut String) -> Result<(), AllocError> {
    match base {
        Some(base) => out.push_str(register(Width::Q, base)),
        None => Ok(()),
    }
}

fn put_index(mem: &Mem, out: &mut String) -> Result<(), AllocError> {
    let Some(index) = mem.index else {
        return Ok(());
    };
    if mem.base.is_some() {
        out.push_str("+")?;
    }
    write!(out, "{}*{}", register(Width::Q, index), mem.scale)
}

fn put_displacement(mem: &Mem, out: &mut String) -> Result<(), AllocError> {
    if mem.disp != 0 || (mem.base.is_none() && mem.index.is_none()) {
        put_signed(mem.disp, out)
    } else {
        Ok(())
    }
}

/// The sum that an address is.
fn put_sum(mem: &Mem, out: &mut String) -> Result<(), AllocError> {
    if mem.rip {
        out.push_str("rip")?;
        return put_signed(mem.disp, out);
    }
    put_base(mem.base, out)?;
    put_index(mem, out)?;
    put_displacement(mem, out)
}

/// A place in memory.
fn put_mem(mem: &Mem, out: &mut String) -> Result<(), AllocError> {
    out.push_str("[")?;
    put_sum(mem, out)?;
    out.push_str("]")
}

/// An operand at a width.
fn put_loc(width: Width, loc: &Loc, out: &mut String) -> Result<(), AllocError> {
    match loc {
        Loc::Reg(number) => out.push_str(register(width, *number)),
        Loc::High(number) => out.push_str(high(*number)),
        Loc::Mem(mem) => {
            out.push_str(size(width))?;
            put_mem(mem, out)
        }
    }
}

/// An immediate, in as many bits as the width has.
fn put_number(width: Width, number: i64, out: &mut String) -> Result<(), AllocError> {
    let bits = number.cast_unsigned();
    let shown = match width {
        Width::B => bits & 0xFF,
        Width::W => bits & 0xFFFF,
        Width::D => bits & 0xFFFF_FFFF,
        Width::Q => bits,
    };
    write!(out, "0x{shown:x}")
}

fn put_src(width: Width, src: &Src, out: &mut String) -> Result<(), AllocError> {
    match src {
        Src::Loc(loc) => put_loc(width, loc, out),
        Src::Imm(number) => put_number(width, *number, out),
    }
}

fn condition(condition: Condition) -> &'static str {
    match condition {
        Condition::O => "o",
        Condition::No => "no",
        Condition::B => "b",
        Condition::Ae => "ae",
        Condition::E => "e",
        Condition::Ne => "ne",
        Condition::Be => "be",
        Condition::A => "a",
        Condition::S => "s",
        Condition::Ns => "ns",
        Condition::P => "p",
        Condition::Np => "np",
        Condition::L => "l",
        Condition::Ge => "ge",
        Condition::Le => "le",
        Condition::G => "g",
    }
}

fn arithmetic(op: ArithmeticOp) -> &'static str {
    match op {
        ArithmeticOp::Add => "add",
        ArithmeticOp::Or => "or",
        ArithmeticOp::Adc => "adc",
        ArithmeticOp::Sbb => "sbb",
        ArithmeticOp::And => "and",
        ArithmeticOp::Sub => "sub",
        ArithmeticOp::Xor => "xor",
        ArithmeticOp::Cmp => "cmp",
    }
}

fn unary(op: UnaryOp) -> &'static str {
    match op {
        UnaryOp::Not => "not",
        UnaryOp::Neg => "neg",
        UnaryOp::Mul => "mul",
        UnaryOp::Imul => "imul",
        UnaryOp::Div => "div",
        UnaryOp::Idiv => "idiv",
    }
}

fn shift(op: ShiftOp) -> &'static str {
    match op {
        ShiftOp::Rol => "rol",
        ShiftOp::Ror => "ror",
        ShiftOp::Shl => "shl",
        ShiftOp::Shr => "shr",
        ShiftOp::Sar => "sar",
    }
}

fn bit_test(op: BitTestOp) -> &'static str {
    match op {
        BitTestOp::Bt => "bt",
        BitTestOp::Bts => "bts",
        BitTestOp::Btr => "btr",
        BitTestOp::Btc => "btc",
    }
}

/// A word, and an operand.
fn put_one(word: &str, width: Width, loc: &Loc, out: &mut String) -> Result<(), AllocError> {
    write!(out, "{word} ")?;
    put_loc(width, loc, out)
}

/// A word, a destination and a source.
fn put_two(
    word: &str,
    width: Width,
    loc: &Loc,
    src: &Src,
    out: &mut String,
) -> Result<(), AllocError> {
    put_one(word, width, loc, out)?;
    out.push_str(",")?;
    put_src(width, src, out)
}

/// A word, a register and an operand of a width of its own.
fn put_into(
    word: &str,
    width: Width,
    number: u8,
    from: Width,
    loc: &Loc,
    out: &mut String,
) -> Result<(), AllocError> {
    write!(out, "{word} {},", register(width, number))?;
    put_loc(from, loc, out)
}

fn put_jump(word: &str, offset: i32, out: &mut String) -> Result<(), AllocError> {
    write!(out, "{word} ")?;
    put_signed(offset, out)
}

/// How far a shift goes.
fn put_count(count: Count, out: &mut String) -> Result<(), AllocError> {
    match count {
        Count::Cl => out.push_str(",cl"),
        Count::Imm(number) => write!(out, ",0x{number:x}"),
    }
}

/// The word of an operation without operands.
fn word(width: Width, op: &Op) -> &'static str {
    match op {
        Op::Leave => "leave",
        Op::PushF => "pushf",
        Op::PopF => "popf",
        Op::Widen => match width {
            Width::W => "cbw",
            Width::Q => "cdqe",
            Width::B | Width::D => "cwde",
        },
        Op::SignFill => match width {
            Width::W => "cwd",
            Width::Q => "cqo",
            Width::B | Width::D => "cdq",
        },
        Op::Clc => "clc",
        Op::Stc => "stc",
        Op::Cmc => "cmc",
        Op::Cld => "cld",
        Op::Std => "std",
        Op::Iret => "iretq",
        Op::Ud2 => "ud2",
        Op::Hlt => "hlt",
        Op::Sti => "sti",
        Op::Cli => "cli",
        Op::Nop(_) => "nop",
        Op::Pause => "pause",
        Op::Endbr => "endbr64",
        Op::Fence(0xE8) => "lfence",
        Op::Fence(0xF0) => "mfence",
        Op::Fence(0xF8) => "sfence",
        _ => "?",
    }
}

/// An operation on a port.
fn put_port(
    read: bool,
    width: Width,
    port: Option<u8>,
    out: &mut String,
) -> Result<(), AllocError> {
    let data = register(width, 0);
    match (read, port) {
        (true, None) => write!(out, "in {data},dx"),
        (true, Some(port)) => write!(out, "in {data},0x{port:x}"),
        (false, None) => write!(out, "out dx,{data}"),
        (false, Some(port)) => write!(out, "out 0x{port:x},{data}"),
    }
}

/// An operation that moves control, or pushes or pops.
fn put_control(width: Width, op: &Op, out: &mut String) -> Result<(), AllocError> {
    match op {
        Op::Jcc(c, offset) => {
            write!(out, "j{} ", condition(*c))?;
            put_signed(*offset, out)
        }
        Op::Jmp(offset) => put_jump("jmp", *offset, out),
        Op::Call(offset) => put_jump("call", *offset, out),
        Op::JmpTo(loc) => put_one("jmp", width, loc, out),
        Op::CallReg(number) => write!(out, "call {}", register(width, *number)),
        Op::Ret(0) => out.push_str("ret"),
        Op::Ret(bytes) => write!(out, "ret 0x{bytes:x}"),
        Op::Push(src) => {
            out.push_str("push ")?;
            put_src(width, src, out)
        }
        Op::Pop(number) => write!(out, "pop {}", register(width, *number)),
        Op::In(port) => put_port(true, width, *port, out),
        Op::Out(port) => put_port(false, width, *port, out),
        Op::Int(3) => out.push_str("int3"),
        Op::Int(vector) => write!(out, "int 0x{vector:x}"),
        Op::Lidt(mem) => {
            out.push_str("lidt ")?;
            put_mem(mem, out)
        }
        Op::Nop(Some(loc)) => put_one("nop", width, loc, out),
        _ => out.push_str(word(width, op)),
    }
}

/// An operation into a register, or on bits.
fn put_moving(width: Width, op: &Op, out: &mut String) -> Result<(), AllocError> {
    match op {
        Op::Imul2(number, loc) => put_into("imul", width, *number, width, loc, out),
        Op::Imul3(number, loc, factor) => {
            put_into("imul", width, *number, width, loc, out)?;
            out.push_str(",")?;
            put_number(width, i64::from(*factor), out)
        }
        Op::MovZx(number, from, loc) => put_into("movzx", width, *number, *from, loc, out),
        Op::MovSx(number, Width::D, loc) => put_into("movsxd", width, *number, Width::D, loc, out),
        Op::MovSx(number, from, loc) => put_into("movsx", width, *number, *from, loc, out),
        Op::Lea(number, mem) => {
            write!(out, "lea {},", register(width, *number))?;
            put_mem(mem, out)
        }
        Op::Bsf(number, loc) => put_into("bsf", width, *number, width, loc, out),
        Op::Bsr(number, loc) => put_into("bsr", width, *number, width, loc, out),
        Op::Bswap(number) => write!(out, "bswap {}", register(width, *number)),
        Op::SetCc(c, loc) => {
            write!(out, "set{} ", condition(*c))?;
            put_loc(width, loc, out)
        }
        Op::CMov(c, number, loc) => {
            write!(out, "cmov{} {},", condition(*c), register(width, *number))?;
            put_loc(width, loc, out)
        }
        _ => put_control(width, op, out),
    }
}

fn put_op(width: Width, op: &Op, out: &mut String) -> Result<(), AllocError> {
    match op {
        Op::Alu(k, loc, src) => put_two(arithmetic(*k), width, loc, src, out),
        Op::Test(loc, src) => put_two("test", width, loc, src, out),
        Op::Mov(loc, src) => put_two("mov", width, loc, src, out),
        Op::Unary(k, loc) => put_one(unary(*k), width, loc, out),
        Op::Inc(loc) => put_one("inc", width, loc, out),
        Op::Dec(loc) => put_one("dec", width, loc, out),
        Op::Xchg(loc, other) => put_two("xchg", width, loc, &Src::Loc(*other), out),
        Op::CmpXchg(loc, other) => put_two("cmpxchg", width, loc, &Src::Loc(*other), out),
        Op::Xadd(loc, other) => put_two("xadd", width, loc, &Src::Loc(*other), out),
        Op::Shift(k, loc, count) => {
            put_one(shift(*k), width, loc, out)?;
            put_count(*count, out)
        }
        Op::Bit(k, loc, Src::Imm(number)) => {
            put_one(bit_test(*k), width, loc, out)?;
            out.push_str(",")?;
            put_number(Width::B, *number, out)
        }
        Op::Bit(k, loc, src) => put_two(bit_test(*k), width, loc, src, out),
        _ => put_moving(width, op, out),
    }
}

/// Prints an instruction in Intel's syntax, as GNU objdump does, but for a jump, whose operand is how far it goes from the
/// next instruction on, and a displacement of 0, which is left out.
pub fn put_insn(insn: &Insn, out: &mut String) -> Result<(), AllocError> {
    if insn.lock {
        out.push_str("lock ")?;
    }
    put_op(insn.width, &insn.op, out)
}
