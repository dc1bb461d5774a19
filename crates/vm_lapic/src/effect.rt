use vm_law::Message;

/// What became of a posted vector.
#[derive(Clone, Copy, Debug, PartialEq, Eq)]
pub enum Posted {
    /// It is requested now.
    Set,
    /// It was requested already.
    Merged,
    /// The APIC is disabled.
    Ignored,
    /// Vectors below 16 are reserved.
    Illegal,
}

/// What a write does beyond the APIC itself.
#[derive(Clone, Copy, PartialEq, Eq)]
pub enum LapicEffect {
    Nothing,
    /// A vector's service ended; `level` tells whether it is in TMR, so that the I/O APIC is to hear of it.
    Eoi { vector: u8, level: bool },
    /// An interprocessor interrupt goes out.
    Send(Message),
}
