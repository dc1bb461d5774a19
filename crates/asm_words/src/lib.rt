//! The words of assembler text: numbers, registers, mnemonics, labels, places in memory and operands.
//!
//! Numbers are decimal or hexadecimal. Registers have the names of the Intel SDM, volume 1, and mnemonics those of volume 2;
//! of words for one instruction there is one. [`operands_of`] reads the operands that commas separate, [`mnemonic_of`] the word
//! before them, and [`label_of`] a label. A number is read whatever its size, and [`holds`] says which field holds it.
#![tactic(auto)]

mod blank;
mod label;
mod memory;
mod mnemonic;
mod number;
mod operand;
mod register;

pub use blank::{before, first_word, trimmed, without_front};
pub use label::{Value, is_label, label_of, names_label, place_in};
pub use memory::Memory;
pub use mnemonic::{Form, Mnemonic, mnemonic_of};
pub use number::{Field, bits_in, holds, signed_in, signed32_in};
pub use operand::{Operand, Operands, operands_of};
pub use register::{high_name, width_name};
