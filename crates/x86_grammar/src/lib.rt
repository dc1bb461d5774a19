//! The grammar of the instructions that vmrun interprets, an integer subset of 64-bit x86: which bytes spell which
//! instruction.
//!
//! [`ROWS`] is the table of opcodes, one row each, as a reader finds them in the opcode map of the Intel SDM, volume 2,
//! appendix A. `specs/Rows.antt` says what a row says of prefixes, opcode and ModRM byte, `specs/Meaning.antt` what the
//! parts of a spelling mean (sections 2.1 to 2.2.1 of volume 2), and `specs/Grammar.antt` puts them together: `Spelled`
//! relates bytes and the instruction that they spell. The decoder and the encoder are proved against that relation.
#![tactic(auto)]

mod condition;
mod head;
mod operands;
mod table;

pub use condition::CONDITIONS;
pub use head::{Head, Prefixes, Rex};
pub use operands::{Immediate, Operands};
pub use table::{Class, Form, Imm, Map, Need, OpKind, ROWS, Row, Side, Slash};
