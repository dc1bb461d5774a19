//! What each instruction computes: registers and flags after it, and the value for its operand in memory.
//!
//! Fetching, reading and writing are the caller's. [`is_local`] says whether an instruction touches registers and flags
//! alone, and [`run_local`] runs one that does. For any other, [`access_of`] says which bytes it accesses and how, and
//! [`compute`] takes what was read there and answers what is to be stored. [`faults`] says whether a division raises #DE,
//! and [`matches_accumulator`] whether a CMPXCHG stores.
//!
//! Each contract gives the whole context after, for every instruction and operand: what isn't named stays. A register
//! number that has no register reads as 0 and is never written. Flags that the architecture leaves undefined are clear.
//! IN, OUT, INT, IRETQ, UD2, LIDT and HLT are for the caller: here they only pass.
//! Source: Intel SDM volume 1, chapter 3 and appendix B, and volume 2, the pages of the instructions.
#![tactic(auto)]

mod access;
mod address;
mod arithmetic;
mod bits;
mod condition;
mod flags;
mod flow;
mod moves;
mod operand;
mod table;
mod touch;

pub use access::{Access, Way, access_of, is_local, local_has_no_access, plain_access};
pub use address::{address_behind, address_of};
pub use flow::masked_flags;
pub use operand::{pass, register, set_register, set_value, truncated, value_at};
pub use table::{compute, faults, matches_accumulator, run_local};
