//! What a chain of descriptors asks of a block device: to read, to write, to flush, to be answered at once with a status,
//! or nothing that makes sense.
//!
//! `request` tells it from the chain, the 16 bytes of its header, and the disk's capacity. Contracts say it as a table in
//! the order in which the cases are tried.
//!
//! It follows OASIS virtio 1.2, section 5.2.6.
#![tactic(auto)]

mod ask;
mod buffers;
mod requests;

pub use ask::Ask;
pub use requests::request;
