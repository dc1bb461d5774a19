//! The bytes of a journal, the history of a run.
//!
//! A journal is spelled by the gate byte 01, the eight bytes `VMJRNL1` and LF, the count of its entries, and
//! the entries: per entry the number of the pass that added it, a tag from 1 to 23, and the fields of that tag.
//! Numbers have their lowest byte first. [`encode`] gives this one spelling. [`decode`] answers a journal exactly
//! where the bytes are its spelling, and else the first fault and its place; each is the other's inverse.
//! The format is vmrun's own.
#![tactic(auto)]

mod fault;
mod history;
mod law;
mod reading;
mod replaying;
mod writing;

pub use fault::{JournalError, JournalKind};
pub use history::{History, HistoryError, replay_bytes};
pub use law::{entries_fit, one_spelling, read_back};
pub use reading::decode;
pub use replaying::{ReplayError, Replayed, replay, replay_front};
pub use writing::encode;
