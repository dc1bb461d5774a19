//! Runs on threads: the command `run`.
//!
//! [`run`] reads the start that the words and the files give, opens the images of its disks, plays the actors of the run in
//! threads until it is closed (`vm_threads`), and then gives the images back and writes the run's journal to its file if one is
//! named, as `solo` does (`vm_soloing`). What it answers and keeps, and what it leaves of the files, is what `solo` does, but that
//! the history is one of whatever way the threads interleaved, and not that of the rounds of one thread.
#![tactic(auto)]

mod by_words;
mod running;

pub use by_words::run;
