use std::alloc::{AllocError, AllocFailed, Global};
use thiserror::Error;
use vm_law::Ctx;

/// The parts of a context, in the order in which they are printed.
pub const NAMES: [&str; 22] = [
    "rax", "rcx", "rdx", "rbx", "rsp", "rbp", "rsi", "rdi", "r8", "r9", "r10", "r11", "r12", "r13",
    "r14", "r15", "rip", "rflags", "idtbase", "idtlimit", "shadow", "nmiblock",
];

/// What a case runs.
#[derive(Drop)]
pub enum Event {
    /// The instruction with these bytes.
    Instruction(Vec<u8>),
    /// The delivery of a vector.
    Delivery(u8),
}

/// Bytes of memory from an address on.
#[derive(Drop)]
pub struct Piece {
    pub at: u64,
    pub bytes: Vec<u8>,
}

/// A case: what is run, the context and memory before it, and what the machine around the vCPU has for it.
#[derive(Drop)]
pub struct Case {
    pub event: Event,
    pub ctx: Ctx,
    pub memory: Vec<Piece>,
    /// What a port or a device answers.
    pub answer: u32,
    /// The error code of a delivery.
    pub error: Option<u64>,
    /// Whether a delivery is an NMI.
    pub nmi: bool,
    /// Whether to print which bytes are stored.
    pub stored: bool,
}

/// Why a case wasn't run.
#[derive(Debug, Drop, Error)]
pub enum CaseError {
    #[error("no case")]
    Form,
    #[error("out of memory")]
    Memory,
}

impl From<AllocError> for CaseError {
    fn from(_error: AllocError) -> CaseError {
        CaseError::Memory
    }
}

impl<T: Drop> From<AllocFailed<T>> for CaseError {
    fn from(_error: AllocFailed<T>) -> CaseError {
        CaseError::Memory
    }
}

/// The bytes that pairs of hexadecimal digits name.
fn bytes_of(alloc: Global, digits: &str) -> Result<Vec<u8>, CaseError> {
    match hex::decode(alloc, digits) {
        Ok(bytes) => Ok(bytes),
        Err(hex::FromHexError::OutOfMemory) => Err(CaseError::Memory),
        Err(_) => Err(CaseError::Form),
    }
}

/// The number that hexadecimal digits name.
fn number_of(digits: &str) -> Result<u64, CaseError> {
    match u64::from_str_radix(digits, 16) {
        Ok(number) => Ok(number),
        Err(_) => Err(CaseError::Form),
    }
}

/// What the first word of a case says.
fn event_of(alloc: Global, word: &str) -> Result<Event, CaseError> {
    let Some(("deliver", digits)) = word.split_once('=') else {
        return Ok(Event::Instruction(bytes_of(alloc, word)?));
    };
    let vector = u8::try_from(number_of(digits)?).map_err(|_| CaseError::Form)?;
    Ok(Event::Delivery(vector))
}

/// The context of a case that names no part of it.
fn plain() -> Ctx {
    let mut regs = [0; 16];
    let mut value = 0xA0A0_A0A0_A0A0_A0A0u64;
    for reg in regs.iter_mut() {
        *reg = value;
        value = value.wrapping_add(0x0101_0101_0101_0101);
    }
    Ctx {
        regs,
        rip: 0x2000,
        rflags: 0x202,
        idt_base: 0,
        idt_limit: 0,
        shadow: false,
        nmi_block: false,
    }
}

/// The parts of a context, in the order of `NAMES`.
pub fn parts(ctx: &Ctx) -> [u64; 22] {
    let mut values = [0; 22];
    values[..16].copy_from_slice(&ctx.regs);
    values[16] = ctx.rip;
    values[17] = ctx.rflags;
    values[18] = ctx.idt_base;
    values[19] = u64::from(ctx.idt_limit);
    values[20] = u64::from(ctx.shadow);
    values[21] = u64::from(ctx.nmi_block);
    values
}

impl Case {
    /// The case that a line states.
    pub fn parse(alloc: Global, line: &str) -> Result<Case, CaseError> {
        let mut words = line.split(' ');
        let first = words.next().ok_or(CaseError::Form)?;
        let mut case = Case {
            event: event_of(alloc, first)?,
            ctx: plain(),
            memory: Vec::new(alloc),
            answer: 0,
            error: None,
            nmi: false,
            stored: false,
        };
        for word in words {
            case.add(alloc, word)?;
        }
        Ok(case)
    }

    /// Adds what a word states.
    fn add(&mut self, alloc: Global, word: &str) -> Result<(), CaseError> {
        if word == "stored" {
            self.stored = true;
            return Ok(());
        }
        if let Some((name, digits)) = word.split_once('=') {
            return self.set(name, number_of(digits)?);
        }
        let (at, digits) = word.split_once(':').ok_or(CaseError::Form)?;
        let piece = Piece {
            at: number_of(at)?,
            bytes: bytes_of(alloc, digits)?,
        };
        self.memory.push(piece)?;
        Ok(())
    }

    /// Sets what has this name.
    fn set(&mut self, name: &str, value: u64) -> Result<(), CaseError> {
        match name {
            "answer" => self.answer = u32::try_from(value).map_err(|_| CaseError::Form)?,
            "error" => self.error = Some(value),
            "nmi" => self.nmi = value != 0,
            _ => self.set_part(name, value)?,
        }
        Ok(())
    }

    /// Sets the part of the context that has this name.
    fn set_part(&mut self, name: &str, value: u64) -> Result<(), CaseError> {
        match NAMES.iter().position(|known| *known == name) {
            Some(16) => self.ctx.rip = value,
            Some(17) => self.ctx.rflags = value,
            Some(18) => self.ctx.idt_base = value,
            Some(19) => self.ctx.idt_limit = u16::try_from(value).map_err(|_| CaseError::Form)?,
            Some(20) => self.ctx.shadow = value != 0,
            Some(21) => self.ctx.nmi_block = value != 0,
            Some(number) if number < 16 => self.ctx.regs[number] = value,
            _ => return Err(CaseError::Form),
        }
        Ok(())
    }
}
