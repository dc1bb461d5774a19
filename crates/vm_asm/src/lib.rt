//! The assembler of vmrun's guests, and back.
//!
//! [`assemble`] gives the flat image that a text spells, or its first faulty line with the first kind of fault. A line has
//! a label, a statement, both or neither, and a comment behind `;`. An instruction is the Intel SDM's mnemonic (volume 2)
//! with its operands in Intel's order; it is written as its canonical spelling, which `x86_encode` gives. The text is this
//! project's own. [`disassemble`] writes a code part as such a text, and [`workload`] makes a guest that counts on several
//! vCPUs.
#![tactic(auto)]

mod assembling;
mod counting;
mod directive;
mod disassembling;
mod emission;
mod fault;
mod law;
mod laying;
mod layout;
mod line;
mod spelling;
mod statement;

pub use asm_insn::spelling_is_a_function;
pub use assembling::assemble;
pub use counting::workload;
pub use disassembling::disassemble;
pub use fault::{AsmError, AsmKind};
pub use law::canonical_code_comes_back;
