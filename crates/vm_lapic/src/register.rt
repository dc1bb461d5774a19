ghost use Rattle.std.specs.Prelude.{◌≡◌};
ghost use Rattle.vm_lapic.specs.Window as spec;

/// A register of the window. Source: Intel SDM volume 3, table 10-1.
#[derive(Clone, Copy, Debug, PartialEq, Eq)]
pub enum Register {
    Id,
    Version,
    Tpr,
    Ppr,
    Eoi,
    Svr,
    /// One of the eight words of ISR; so also the two below.
    Isr(u8),
    Tmr(u8),
    Irr(u8),
    Esr,
    IcrLow,
    IcrHigh,
    LvtTimer,
    InitialCount,
    CurrentCount,
    DivideConfiguration,
}

/// All of them.
const REGISTERS: [Register; 37] = [
    Register::Id,
    Register::Version,
    Register::Tpr,
    Register::Ppr,
    Register::Eoi,
    Register::Svr,
    Register::Isr(0),
    Register::Isr(1),
    Register::Isr(2),
    Register::Isr(3),
    Register::Isr(4),
    Register::Isr(5),
    Register::Isr(6),
    Register::Isr(7),
    Register::Tmr(0),
    Register::Tmr(1),
    Register::Tmr(2),
    Register::Tmr(3),
    Register::Tmr(4),
    Register::Tmr(5),
    Register::Tmr(6),
    Register::Tmr(7),
    Register::Irr(0),
    Register::Irr(1),
    Register::Irr(2),
    Register::Irr(3),
    Register::Irr(4),
    Register::Irr(5),
    Register::Irr(6),
    Register::Irr(7),
    Register::Esr,
    Register::IcrLow,
    Register::IcrHigh,
    Register::LvtTimer,
    Register::InitialCount,
    Register::CurrentCount,
    Register::DivideConfiguration,
];

impl Register {
    /// The register that stands at an offset, if there is one.
    #[tactic(auto, unfolding(crate::specs::Window::register_at))]
    pub fn at(offset: u32) -> Option<Register>
        ensures { result ≡ spec.register_at offset }
    {
        REGISTERS
            .iter()
            .copied()
            .find(|register| register.offset() == offset)
    }

    /// Where it stands.
    fn offset(self) -> u32
        ensures { result ≡ spec.offset_of self }
    {
        match self {
            Register::Id => 0x20,
            Register::Version => 0x30,
            Register::Tpr => 0x80,
            Register::Ppr => 0xA0,
            Register::Eoi => 0xB0,
            Register::Svr => 0xF0,
            Register::Isr(word) => 0x100 + 0x10 * word as u32,
            Register::Tmr(word) => 0x180 + 0x10 * word as u32,
            Register::Irr(word) => 0x200 + 0x10 * word as u32,
            Register::Esr => 0x280,
            Register::IcrLow => 0x300,
            Register::IcrHigh => 0x310,
            Register::LvtTimer => 0x320,
            Register::InitialCount => 0x380,
            Register::CurrentCount => 0x390,
            Register::DivideConfiguration => 0x3E0,
        }
    }
}
