//! The rounds of one thread: they are a legal history of the machine, and they come to Close.
//!
//! Each law is the contract of a function that does nothing; its statement stands in `specs/`. In every two rounds an entry is
//! added, since no state is stuck. So the run comes to 40,000,000 entries, or it has ended before. From there on control adds
//! an entry in each round that brings the end nearer, until it adds the end; and after the end each entry brings Close nearer.
#![tactic(auto)]

mod law;

pub use law::{rounds_are_legal, rounds_are_orderly, rounds_return};
