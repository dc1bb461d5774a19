//! Runs on one thread: the command `solo`.
//!
//! [`solo`] reads the start that the words and the files give, opens the images of its disks, lets the actors of the run take
//! turns until it is closed (`vm_solo`), gives the images back, and writes the run's journal to its file if one is named. What it
//! answers and keeps stands in `specs/Answers`, what it leaves of the files in `specs/Disks`; `vm_threading` promises the same of
//! runs on threads, and ends them by [`give_back`].
#![tactic(auto)]

mod by_words;
mod closing;
mod running;

pub use by_words::solo;
pub use closing::give_back;
pub use running::{run_start, spent, unopened};
