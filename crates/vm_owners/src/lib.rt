//! Who owns a vCPU: the entries Claim, Start, Exit, Sleep, Wake and Yield, and a vCPU's Turn in a rendezvous.
//!
//! For each of them one call says whether it is lawful for a pass, exactly as the definition of its row does, and another
//! makes its step: the run after it is the definition's. The stages follow FreeBSD's vmm(4) and sys/amd64/vmm/vmm.c.
#![tactic(auto)]

mod owners;
mod turns;

pub use owners::{
    claim, exit, may_claim, may_exit, may_sleep, may_start, may_wake, may_yield, sleep, start,
    wake, yield_idle,
};
pub use turns::{may_turn, turn};
