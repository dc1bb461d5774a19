//! Instructions by their mnemonics and operands, and back.
//!
//! An [`Instruction`] is a mnemonic with its operands, as a line has them. With numbers for its labels it names an instruction
//! of the Intel SDM, volume 2, or none; it tells whether its operands are of a form that the mnemonic has, whether its numbers
//! fit their fields, and how many bytes it takes. [`taken_apart`] gives the mnemonic and the operands that name an instruction,
//! and [`put_instruction`] writes them.
#![tactic(auto)]

mod argument;
mod fitting;
mod instruction;
mod law;
mod naming;
mod one_operand;
mod operand_kind;
mod parts;
mod printing;
mod resolving;
mod spelling;
mod two_operands;
mod words;

pub use fitting::{are_defined, is_defined_value, value_fits};
pub use instruction::Instruction;
pub use law::spelling_is_a_function;
pub use parts::taken_apart;
pub use printing::{put_hex, put_instruction};
pub use resolving::resolved;
