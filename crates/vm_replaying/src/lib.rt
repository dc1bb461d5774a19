//! Replays of journals: the command `replay`.
//!
//! [`replay`] reads the start that the words and the files give, and after it the journal's file; it makes the journal's steps
//! again from there, and writes what its guest sent to the console. What it answers and keeps stands in `specs/Answers`.
#![tactic(auto)]

mod journaling;
mod refusing;
mod replaying;

pub use replaying::replay;
