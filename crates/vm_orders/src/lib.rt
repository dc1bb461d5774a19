//! Control: the entries Meet, Feed, Wish, Tick, Done, End and Close.
//!
//! Control carries out the script: it waits for what an order waits for, and then the order is done. It opens the rendezvous
//! that an order asks for, feeds the serial port, wishes a pause, lets the timers move on, and ends the run. Each entry has a
//! test, `may_..`, and an effect over the state of a run, both exactly as the definitions in `specs/` say. An effect changes
//! what its row names, and nothing else, and takes no memory.
//!
//! The order of a run's end is this project's own; the parts are those of FreeBSD's vmm(4) and bhyve(8).
#![tactic(auto)]

mod conditions;
mod duties;
mod ending;
mod orders;
mod quiet;
mod registers;
mod resting;

pub use conditions::{is_cut, may_done};
pub use duties::{feed, may_feed, may_meet, may_tick, may_wish, meet, tick, tick_of, wish};
pub use ending::{close, end, is_used_up, may_close, may_end};
pub use orders::done;
pub use quiet::{is_quiet, is_still};
pub use resting::rests_at_sight;
