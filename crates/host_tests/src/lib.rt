//! Files, sinks, the turnstile and checkpoint files, by one call each.
//!
//! Test functions for public calls that no program of cases runs. They stand here since a crate with test functions is
//! proved twice.
#![tactic(auto)]

#[cfg(test)]
mod ckpt_store_calls;
#[cfg(test)]
mod vm_host_calls;
#[cfg(test)]
mod vm_hostreal_calls;
#[cfg(test)]
mod vm_turn_calls;
