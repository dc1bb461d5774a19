//! Results and flags of the integer operations of 64-bit x86, on operands of 8, 16, 32 and 64 bits.
//!
//! Each call answers the result and RFLAGS after the operation, in which exactly the six status flags may differ from
//! RFLAGS before. Its contract gives both for every width, operand and count, in whole numbers: a sum modulo 2 to the
//! width, a signed operand as the integer that it stands for, carry where a sum doesn't fit, overflow where the signed
//! one doesn't. The bodies work with masks on machine words. A flag that the processor leaves undefined is clear.
//! Source: Intel SDM volume 1, sections 3.4.3.1 and 4.2.1, and volume 2, the pages of the instructions.
#![tactic(auto)]

mod arithmetic;
mod bit_tests;
mod flags;
mod op;
mod operand;
mod product;
mod shifts;

pub use arithmetic::alu;
pub use bit_tests::bits;
pub use flags::{Flags, only_these_change};
pub use op::{AluOp, BitOp};
pub use product::{div, mul};
pub use shifts::shift;
