//! The unfinished requests of one virtio block device.
//!
//! Contracts see the next id and one list of the unfinished requests by ascending id, each with its request and how far it
//! is, and each call is one step of that list. A request that starts where an unfinished one ends waits until that one
//! has left, so that requests which follow one another on the disk stay in order. No call but `new`, `with_next` and
//! `copy` takes memory.
//!
//! It follows FreeBSD usr.sbin/bhyve/block_if.c, in which a request is pending, blocked or busy; requests are those of
//! OASIS virtio 1.2, section 5.2.6.
#![tactic(auto)]

mod law;
mod list;
mod progress;
mod queue;
mod saving;
mod starts;

pub use law::{an_id_names_one, first_is_free};
pub use progress::{Cancelled, Finished, Progress, Unfinished};
pub use queue::BlkQueue;
