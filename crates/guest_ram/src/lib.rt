//! Guest memory: a byte list of which the first part is code, in pages that are allocated when they are first written.
//!
//! Contracts see the bytes and the code length (`Memory` of vm_law), which pages of 4,096 bytes stand, and for how many
//! more there is room. At its start the memory holds the payload of a flat image from address 0 on, and zeros behind it. A
//! read gives the bytes that stand there; a write replaces those that it names and leaves all others, makes the pages that
//! it touches stand, and takes no memory for it. A page that does not stand reads as zeros.
//!
//! Memory is flat, without paging (Intel SDM volume 3, chapter 2, names it physical memory); how much a guest may have,
//! from 1 MiB to 1 GiB, is vmrun's own limit.
#![tactic(auto)]

mod guest_ram;
mod law;
mod page;
mod places;

pub use guest_ram::GuestRam;
pub use law::{writes_keep_code, writes_keep_size};
