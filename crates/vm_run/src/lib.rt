//! The top call of vmrun: runs and replays of a virtual machine, plans, and assembly, from the words of the command line to
//! files, console and log.
//!
//! `vmrun run FILE` runs the guest of a flat image or of a configuration, with a thread for each vCPU and each worker of a disk,
//! and `vmrun solo FILE` the same on one thread; with `--journal JOURNAL` they write the run's history to a file. `vmrun replay
//! FILE JOURNAL` makes the steps of such a history again. All three end with a report on the log. `vmrun make CPUS NUMBER` runs
//! the guest that the numbers make, and writes its total. `vmrun show CONFIG` writes a configuration's plan, and `vmrun asm FILE
//! OUT` the image that an assembler text spells. A refusal is one value of `vm_status` from where it is found to the line that
//! the log takes.
//!
//! What it promises stands once, in `specs/Answer.antt`: `Does` has a clause for each promise, and [`vmrun`] and [`still_cmd`]
//! cite it.
#![tactic(auto)]

mod showing;
mod top;
mod unbuilt;
mod working;

pub use top::{still_cmd, vmrun};
pub use vm_outcome::{Ending, Kept, Outcome};
