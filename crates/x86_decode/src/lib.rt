//! The decoder of the instructions that vmrun interprets, an integer subset of 64-bit x86.
//!
//! [`decode`] answers by the grammar of instructions alone, which `x86_grammar` states as a table of opcodes and
//! a relation between bytes and instructions: it answers an instruction exactly where the bytes begin with
//! a spelling of it, `Short` exactly where more bytes would make one, and `Unknown` else. [`one_spelling`]
//! is the law that makes this answer the only one: no bytes spell two instructions, and no spelling is
//! the beginning of another. [`decoding_is_the_grammar`] says the same of the answer as a value. Source: Intel SDM volume 2, sections 2.1 to 2.2 and appendix A.
#![tactic(auto)]

mod decoder;
mod fault;
mod fields;
mod index;
pub mod meaning;
pub mod operands;
mod reading;
pub mod rows;

pub use decoder::{decode, decoding_is_the_grammar, one_spelling};
pub use fault::DecodeFault;
