//! Assembles text to image files: the command `asm`.
//!
//! [`asm`] reads an assembler text of at most 1 MiB, and writes the image that it spells. What it answers stands in
//! `specs/Answers`.
#![tactic(auto)]

mod assembling;
mod refusing;

pub use assembling::asm;
