/// A register of the 16550. Source: PC16550D, table 2, and bhyve's `ns16550.h`.
#[derive(Clone, Copy, Debug, PartialEq, Eq)]
pub enum Register {
    /// The receive buffer RBR where it is read, the transmit holding register THR where it is written.
    Data,
    /// IER, which enables interrupts.
    InterruptEnable,
    /// The interrupt identification IIR where it is read, the FIFO control FCR where it is written.
    InterruptIdentification,
    /// LCR, whose bit 7 is DLAB.
    LineControl,
    /// MCR.
    ModemControl,
    /// LSR.
    LineStatus,
    /// MSR.
    ModemStatus,
    /// SCR, which the driver may use as it likes.
    Scratch,
    /// DLL, the low byte of the divisor latch.
    DivisorLow,
    /// DLM, its high byte.
    DivisorHigh,
}

impl Register {
    ghost use Rattle.std.specs.Prelude.{◌≡◌, ◌<◌};
    ghost use Rattle.vm_uart.specs.Register as spec;

    /// The register at an offset below 8. `latch` is DLAB, by which the divisor latch stands at offsets 0 and 1.
    pub fn at(offset: u8, latch: bool) -> Register
        requires { offset < 8 }
        ensures { result ≡ spec.register_at latch offset }
    {
        match offset {
            0 if latch => Register::DivisorLow,
            0 => Register::Data,
            1 if latch => Register::DivisorHigh,
            1 => Register::InterruptEnable,
            2 => Register::InterruptIdentification,
            3 => Register::LineControl,
            4 => Register::ModemControl,
            5 => Register::LineStatus,
            6 => Register::ModemStatus,
            _ => Register::Scratch,
        }
    }
}
