use vm_law::Message;

/// What follows from a write to the window.
#[derive(Clone, Copy, PartialEq, Eq)]
pub struct RteChange {
    /// Whether an entry routes differently now: its vector, delivery mode, destination mode, trigger mode or
    /// destination changed.
    pub routing: bool,
    /// The message of the pin whose entry was written, where it sends.
    pub message: Option<Message>,
}
