//! A run with its journal and the disk images that are at home: what the actors take in turn.
//!
//! A [`Board`] begins at a `Start` and goes on by entries. Each entry that it takes is lawful, and is what its pass adds in an
//! orderly turn; so its journal is a history of the machine, and its run is that history's last state. It carries its journal
//! through a turnstile (`vm_turn`). The image of each disk is on the board, or is out with the worker for which the run names
//! it; while it is at home it reads as the run's image of the disk, but in the sectors whose last write failed.
//!
//! Room for entries is reserved before they are added, so that adding takes no memory.
#![tactic(auto)]

mod actor;
mod board;
mod held;

pub use actor::{Did, Went};
pub use board::Board;
