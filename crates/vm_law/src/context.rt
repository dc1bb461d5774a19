/// The registers of a vCPU that instructions see, with the state of its interrupts.
///
/// Source: Intel SDM volume 1, section 3.4, and volume 3, section 6.8.
#[derive(Clone, Copy, PartialEq, Eq)]
pub struct Ctx {
    /// RAX 0, RCX 1, RDX 2, RBX 3, RSP 4, RBP 5, RSI 6, RDI 7, R8 8 to R15 15.
    pub regs: [u64; 16],
    pub rip: u64,
    pub rflags: u64,
    pub idt_base: u64,
    pub idt_limit: u16,
    /// Whether the instruction before was an STI that set IF, so that no interrupt is taken yet.
    pub shadow: bool,
    /// Whether NMIs are blocked until the next IRET.
    pub nmi_block: bool,
}

/// Why an instruction or a delivery couldn't be done.
#[derive(Clone, Copy, Debug, PartialEq, Eq)]
pub enum Stop {
    /// RIP isn't in the code, or the code ends in the middle of the instruction there.
    Fetch,
    /// An access to a byte outside memory.
    Memory,
    /// An access to a device window that isn't a MOV of 32 bits, aligned and inside.
    Device,
    /// The interrupt gate of this vector isn't there or isn't good.
    Gate(u8),
    /// The frame of this vector isn't all in memory above the code.
    Frame(u8),
}
