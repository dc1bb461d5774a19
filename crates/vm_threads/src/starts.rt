//! Who gets a thread.

/// Which actors get a thread of their own. Each of the others takes its turns with the caller, as one does whose thread can't be
/// started.
#[derive(Clone, Copy, Debug, PartialEq, Eq)]
pub enum Starts {
    /// All.
    Each,
    /// The runner of each even vCPU, and each second worker, the first one among them.
    EverySecond,
    /// None.
    NoOne,
}

impl Starts {
    /// Whether the k-th runner, or the k-th worker, from 0, gets one.
    pub(crate) fn has(self, k: usize) -> bool {
        match self {
            Starts::Each => true,
            Starts::EverySecond => k % 2 == 0,
            Starts::NoOne => false,
        }
    }
}
