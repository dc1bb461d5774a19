//! One instruction of a vCPU, with its access to memory.
//!
//! `run_shared` runs any instruction over the context of a vCPU and the bytes of memory. What it can't do by itself it
//! asks of the machine around the vCPU by its `Effect`: the delivery of an exception, a number from or for a port or a
//! device's window, the halt. `complete` ends an instruction that asked for a number. What an instruction computes
//! stands in `x86_op`, what an address leads to in `vm_bus`; this crate says which access is allowed, in which order it
//! is judged, and what is read and written. Contracts pin effect, context and memory exactly, for every context and
//! instruction. `perform` says besides which bytes of memory were stored. A store may go to the code part; an instruction
//! that isn't done changes nothing. `perform_done` runs an instruction only where nothing is asked.
//!
//! It follows the Intel SDM, volume 1, section 3.3.7.1 (canonical addresses), volume 2, the pages of the instructions,
//! and volume 3, section 6.15 (exceptions). Without paging and segments, an access is to memory as it stands. Why an
//! instruction can't be done, a `Stop`, and that devices are reached by a MOV of 32 bits alone, are this machine's own.
#![tactic(auto)]

mod access;
mod effect;
mod law;
mod number;
mod reached;
mod shared;
mod system;

pub use effect::{Effect, NotDone, Performed, Stored};
pub use law::{shared_keeps_size, shared_leaves, shared_stores};
pub use shared::{complete, perform, perform_done, run_shared};
pub use x86_op::{is_local, run_local};
