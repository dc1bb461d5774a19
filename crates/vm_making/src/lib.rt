//! Workloads that are made of two numbers: the command `make`.
//!
//! [`make`] takes the counts that a number gives for so many vCPUs, makes the guest of these counts (`vm_asm`), runs it on one
//! thread (`vm_soloing`), and writes the total to the console behind what the guest sent. It reads and writes no file. The
//! counts stand in `specs/Counts`, the start in `specs/Start`, the line in `specs/Line`, and what is answered and kept in
//! `specs/Answers`.
#![tactic(auto)]

mod counting;
mod line;
mod making;
mod starting;

pub use counting::counts_of;
pub use making::make;
