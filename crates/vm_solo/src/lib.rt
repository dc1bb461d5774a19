//! All actors of a run in one thread.
//!
//! A [`Crew`] has the board (`vm_board`), control (`vm_control`), the runner of each vCPU (`vm_vcpu`) and the workers of each
//! block device (`vm_blkwork`). It plays rounds: each actor, in the order of the passes' numbers, takes its turn and then does
//! its work outside. The rounds are those of `vm_table`'s definitions, and they come to Close; where control's work outside
//! fails, control ends the run.
#![tactic(auto)]

mod crew;
mod making;
mod playing;
mod turns;

pub use crew::Crew;
