//! One call each of the floor's crates.
//!
//! Test functions for public calls that no program of cases runs. They stand here since a crate with test functions is
//! proved twice.
#![tactic(auto)]

#[cfg(test)]
mod byte_reader_calls;
#[cfg(test)]
mod guest_ram_calls;
#[cfg(test)]
mod text_reader_calls;
#[cfg(test)]
mod vm_bus_calls;
#[cfg(test)]
mod vm_image_calls;
#[cfg(test)]
mod vm_law_calls;
#[cfg(test)]
mod x86_alu_calls;
#[cfg(test)]
mod x86_encode_calls;
#[cfg(test)]
mod x86_fetch_calls;
