//! The stage of a vCPU, and which moves of it are lawful.
//!
//! A vCPU is idle, or it is frozen, running or sleeping in the hands of one pass, its owner. Anybody may freeze an idle
//! vCPU and owns it from then on; the owner may let a frozen vCPU run, sleep or be idle, and freezes it again before
//! anything else. `shift` makes exactly these moves and refuses every other one, so a vCPU changes its owner only by way
//! of the idle stage.
//!
//! The stages are those of FreeBSD's vmm(4) (`enum vcpu_state` of sys/amd64/include/vmm.h and `vcpu_set_state_locked` of
//! sys/amd64/vmm/vmm.c). The owner is this project's own.
#![tactic(auto)]

mod stage_cell;

pub use stage_cell::{Refused, StageCell, To};
