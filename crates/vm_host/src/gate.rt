//! A gate that is called before each slice of a vCPU and each write to a disk image.

/// Where the gate is called.
#[derive(Clone, Copy, Debug, PartialEq, Eq)]
pub enum Place {
    /// Before a slice of this vCPU (0 to 15).
    Slice { cpu: u8 },
    /// Before a write to the image of this disk (0 to 7).
    Write { disk: u8 },
}

/// What is called outside the turnstile, so that a test can hold one actor back while others go on.
pub trait Gate {
    /// Returns when the actor may go on.
    fn at(&self, place: Place);
}

/// The gate that is always open: it returns at once.
#[derive(Clone, Copy, Debug, PartialEq, Eq)]
pub struct NoGate;

impl Gate for NoGate {
    fn at(&self, _place: Place) {}
}
