//! Who an interrupt message is for.
//!
//! `targets` gives the vCPUs that a message reaches in a machine of so many vCPUs, exactly as a set. A destination
//! without a vCPU is nobody.
//!
//! Source: Intel SDM volume 3, section 10.6.2.
#![tactic(auto)]

mod destination;

pub use destination::targets;
