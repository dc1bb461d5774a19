//! The virtual machine that a bhyve configuration plans.
//!
//! `plan` reads the variables that vmrun builds from a configuration (`bhyve_config(5)` of FreeBSD): vCPUs, memory, block
//! devices, and vmrun's own `flat.image`, `flat.script` and `pci.B.S.F.workers`. It refuses a configuration exactly where
//! one of these has no value that the table in specs/Table allows, and tells the first such variable, in the order in
//! which they are checked, and what is wrong with it. Every other variable is accepted and listed as not built.
#![tactic(auto)]

mod disks;
mod error;
mod number;
mod planning;
mod slot;

pub use error::{PlanError, PlanKind};
pub use planning::plan;
