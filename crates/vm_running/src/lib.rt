//! A vCPU runs: the entries Enter, Slice and Step.
//!
//! For each of them one call says whether it is lawful for a pass, exactly as the definition of its row does, and another
//! makes its step: the run after it is the definition's. An Enter takes an interrupt where one can be delivered. A Slice runs
//! instructions that touch the vCPU's own registers alone; its context may have been computed elsewhere. A Step runs one
//! instruction of any other kind, with its access to memory, to a port or to a device's window, or with the delivery of what
//! it raises.
//!
//! Source: Intel SDM volume 2, the pages of the instructions, and volume 3, chapters 6 and 10. Entries, grants and Stops are
//! this project's own.
#![tactic(auto)]

mod asking;
mod entering;
mod performing;
mod rerouting;
mod slicing;
mod spending;
mod stepping;

pub use entering::{enter, may_enter};
pub use slicing::{may_slice, put_slice, run_ahead, slice, slice_ahead};
pub use stepping::{may_step, step, step_where_allowed};
