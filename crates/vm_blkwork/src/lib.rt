//! The worker of a block device: it carries the device's requests out.
//!
//! A [`Worker`] has the pass of one of its disk's workers. In its turn it has the board (`vm_board`): it brings the disk's
//! image back, if the call on it was made, and adds the first entry of its list that is lawful. Where that is a Hold, it
//! takes the image out. Outside of its turn it makes the call: it writes the sector for which the image is out, or syncs it.
//! It takes its turns at a turnstile (`vm_turn`) as well, where others add entries between them.
#![tactic(auto)]

mod going;
mod outside;
mod worker;

pub use outside::Out;
pub use worker::Worker;
