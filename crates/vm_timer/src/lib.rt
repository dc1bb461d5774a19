//! The timers of the vCPUs' local APICs: how much is left of each, and which fire in a tick.
//!
//! A timer is armed with a remaining count and fires in the first tick that reaches it, once a tick; those that fire in
//! one tick come in order of what was left of them, then of their vCPU. One that fires once is disarmed then, and a
//! periodic one begins its next period where the last one ended, however far the tick went past it.
//!
//! The counting follows Intel SDM volume 3, section 10.5.4 (one-shot and periodic mode); the queue is that of FreeBSD's
//! sys/amd64/vmm/io/vlapic.c over callout(9), with counts of executed instructions in place of a clock.
#![tactic(auto)]

mod callouts;
mod fired;
mod law;

pub use callouts::Callouts;
pub use fired::Fired;
pub use law::each_fires_once;
