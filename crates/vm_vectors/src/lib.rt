//! Sets of interrupt vectors, as a local APIC's IRR, ISR and TMR hold them.
//!
//! `VectorSet` is a set of numbers below 256. Its contracts speak of a finite set; how registers and saved forms show it as
//! bits is said by `word`, `to_bytes` and `from_bytes` alone. It is kept as four words of 64 bits.
//!
//! Source: Intel SDM volume 3, section 10.8.4.
#![tactic(auto)]

mod vector_set;
mod words;

pub use vector_set::VectorSet;
