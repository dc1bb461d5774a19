//! A vCPU's local APIC.
//!
//! `Lapic` holds the registers of an xAPIC in its window of 4,096 bytes, and the vectors that are requested (IRR), in
//! service (ISR) and level-triggered (TMR) as three sets. Its contracts say, of the APIC as a record of registers and
//! sets: what a post answers and changes; which vector may be delivered; what a service and an EOI move; what each
//! offset reads, and what a write there keeps, sends or ends. A chip that is made from its saved state is the same chip.
//!
//! Not built: logical destinations (such a message is for nobody), lowest priority, SMI, INIT and ExtINT modes (such a
//! message is dropped), the error status register (it reads 0) and the timer, whose registers are kept without effect.
//!
//! Source: Intel SDM volume 3, chapter 10.
#![tactic(auto)]

mod command;
mod effect;
mod lapic;
mod register;

pub use effect::{LapicEffect, Posted};
pub use lapic::Lapic;
