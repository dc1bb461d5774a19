//! The machine's table of entries: which entry is lawful for which pass, and what its step does.
//!
//! A run goes from state to state by entries, each of which a pass adds: pass 0 is control, pass 1 + i is the runner of
//! vCPU i, and then come the workers of the block devices, device after device. One table of definitions says for each of the
//! 23 kinds of entry when it is lawful and what it does; whatever it doesn't name stays. [`Run::may`] is exactly the table's
//! test, and [`Run::apply`] makes exactly the table's step, so that a list of entries has one meaning; [`Run::advance`] does
//! both at once. From a start a run begins by [`Run::begin`], its readers give what its state holds, and
//! [`Run::first_lawful`] is what an actor chooses in its turn.
//!
//! The definitions say besides what a legal history is, what it shows, and which histories the rounds of one thread make.
//! The parts are those of Intel SDM volume 3, the 82093AA, the 16550 and OASIS virtio 1.2; stages follow FreeBSD's vmm(4).
//! Entries, passes and the table are this project's own.
#![tactic(auto)]

mod choosing;
mod entries;
mod making;
mod reading;
mod run;
mod table;
mod tally;

pub use run::Run;
pub use tally::Tally;
