//! A table of event sources, and which of them are ready.
//!
//! A source is added with a kind of the caller's own, and gets the lowest free id of 32. It is told as ready once it is
//! enabled and its id is among those raised: each once, by ascending id.
//!
//! It follows FreeBSD's usr.sbin/bhyve/mevent.c (`mevent_add_disabled`, `mevent_enable`, `mevent_disable`,
//! `mevent_delete`, and the order of handling in `mevent_dispatch`), with ids in place of file descriptors.
#![tactic(auto)]

mod events;

pub use events::{Events, EventsFull, Source};
