//! The workers of block devices: the entries Pull, Begin, Move, Hold, Put and Finish.
//!
//! Each entry has a test, `may_..`, and an effect over the state of a run, both exactly as the definitions in `specs/` say.
//! An effect changes what its row names, and nothing else. Between Hold and Put the image of a disk is one worker's; here
//! the run only notes who holds it. After `RunState::reserve` no effect can fail for want of memory.
//!
//! It follows OASIS virtio 1.2, sections 2.7 and 5.2.6, and FreeBSD usr.sbin/bhyve/block_if.c.
#![tactic(auto)]

mod images;
mod moving;
mod queueing;
mod requests;
mod sectors;

pub use images::{hold, may_hold, may_put, put};
pub use moving::{finish, may_finish, may_move, move_sector};
pub use queueing::{begin, can_pull, may_begin, may_pull, pull};
pub use requests::{any_request, busy_of, first_pending, none_busy, progress_of};
