//! Split virtqueues, as a device reads and completes them in guest memory.
//!
//! `ring_ok` tells whether the three tables lie well. `next_chain` gives the chain of descriptors that stands next on the
//! available ring: contracts say it by a relation on whole lists of descriptors, those to which the next links lead from
//! the head. `push_used` hands a chain back on the used ring.
//!
//! It follows OASIS virtio 1.2, section 2.7, without indirect descriptors and without VIRTIO_F_EVENT_IDX.
#![tactic(auto)]

mod chain;
mod memory;
mod ring;
mod used;

pub use chain::{Chain, next_chain, waits};
pub use ring::{Ring, is_size, ring_ok};
pub use used::{push_used, wants_interrupt};
