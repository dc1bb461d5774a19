//! The instruction that a vCPU runs next, local instructions in a row, and a table that decodes each instruction once.
//!
//! Code begins at address 0. An instruction is decoded from the bytes that are fetched at its address: at most 15, up to
//! the end of the code (Intel SDM volume 2, section 2.3.11). [`Code`] is whoever holds code: guest memory, or a copy.
//!
//! A [`Table`] keeps instructions that were decoded. It is *right* for a code where each instruction that it keeps is what
//! the code's bytes decode as at its address; the calls here have that as a condition, leave it so, and answer what they
//! would answer without a table. After a write into the code, [`Table::forget`] makes it right again. [`CachedRam`] is guest
//! memory with a table that is right for its code at all times.
#![tactic(auto)]

mod cached_ram;
mod code;
mod fetching;
mod law;
mod slices;
mod table;

pub use cached_ram::CachedRam;
pub use code::Code;
pub use fetching::{Next, keep_at, next_of};
pub use law::writes_change_only;
pub use slices::{all_local, look_local, run_many, run_slice, stands_local, step_local};
pub use table::{Found, Place, Table};
