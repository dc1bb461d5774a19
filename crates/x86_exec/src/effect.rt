//! What an instruction asks of the machine around its vCPU, and what it stored.
ghost use Rattle.std.specs.Prelude.{◌≡◌, None};

use vm_bus::Area;
use vm_law::{Stop, Width};

/// What an instruction asks of the machine around its vCPU.
///
/// Source: Intel SDM volume 3, section 6.15, and volume 2, IN, OUT, HLT and INT.
#[derive(Clone, Copy, PartialEq, Eq)]
pub enum Effect {
    /// Nothing: it is done.
    Done,
    /// HLT: it is done, and the vCPU waits for an interrupt.
    Halt,
    /// The delivery of an exception (#DE 0, #UD 6, #GP 13) or of INT's vector, with its error code where it has one.
    Trap { vector: u8, error: Option<u64> },
    /// It can't be done, and has changed nothing.
    Stop(Stop),
    /// A number of 8, 16 or 32 bits from a port, for `complete`.
    PortIn { port: u16, width: Width },
    /// A number of 8, 16 or 32 bits for a port: it is done otherwise.
    PortOut { port: u16, width: Width, value: u32 },
    /// A number of 32 bits from a device's window, for `complete`.
    Load { area: Area },
    /// A number of 32 bits for a device's window: it is done otherwise.
    Store { area: Area, value: u32 },
}

/// The bytes of memory that an instruction stored: `len` of them, 1 to 8, from an address on.
#[derive(Clone, Copy, PartialEq, Eq)]
pub struct Stored {
    pub at: u64,
    pub len: u8,
}

/// What an instruction asks, and what it stored, if anything.
#[derive(Clone, Copy, PartialEq, Eq)]
pub struct Performed {
    pub effect: Effect,
    pub stored: Option<Stored>,
}

/// An instruction isn't done by itself, and has changed nothing.
#[derive(Clone, Copy, Debug, PartialEq, Eq)]
pub struct NotDone;

impl Performed {
    /// Nothing was stored.
    pub(crate) fn asking(effect: Effect) -> Performed
        ensures { result ≡ record { effect = effect; stored = None } }
    {
        Performed {
            effect,
            stored: None,
        }
    }
}
