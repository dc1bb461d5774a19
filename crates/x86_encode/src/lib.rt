//! The encoder of the instructions that vmrun interprets: one canonical spelling of each.
//!
//! An instruction may have many spellings: another order of prefixes, a REX byte or a SIB byte that it
//! needn't have, a longer displacement or immediate, another opcode. [`encode`] gives the least of them all,
//! by length and then byte by byte, and [`spelled`] tells whether there is one. [`encode_labelled`] and
//! [`labelled`] do the same for an instruction whose displacement or immediate is still to hold a label,
//! over the spellings with 32 bits for it. [`encoded_decodes`] is the law that what is written is read back.
//! Spellings are those of the grammar of instructions in `x86_grammar`. Source: Intel SDM volume 2,
//! sections 2.1 to 2.2 and appendix A; that the least is taken is this project's own rule.
//!
//! `specs/Canonical.antt` and `specs/Order.antt` say what is promised. `specs/Inside` is for the proof alone: it defines what
//! the code's own functions compute, and no public contract cites it.
#![tactic(auto)]

mod encoder;
mod labels;
mod least;
mod operands;
mod place;
mod plain;
mod same;

pub use encoder::{encode, encode_labelled, encoded_decodes, labelled, spelled};
pub use labels::Labels;
