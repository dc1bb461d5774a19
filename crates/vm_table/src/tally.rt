//! How the requests of a drive fared.

/// How the requests of a drive fared, and its disk.
#[derive(Clone, Copy, PartialEq, Eq)]
pub struct Tally {
    /// How many requests were finished.
    pub finished: u64,
    /// How many were cancelled.
    pub cancelled: u64,
    /// How many are unfinished, at most 64.
    pub queued: u64,
    /// How many sectors of its file are in doubt, at most 131,072.
    pub doubt: u64,
}
