//! Reading a file's bytes from left to right: numbers of 1, 2, 4 and 8 bytes with their lowest byte first, bytes as they
//! stand, fixed texts, counted lists, and the place and kind of the first fault.
//!
//! What a format is, is said by readers as functions on lists of bytes (`specs/Reader.antt`), which are put together from
//! small ones; each function here gives exactly what its reader does. `proofs/Readers.antt` and `proofs/Counted.antt` have
//! the laws by which a format's reader is shown to be the inverse of its spelling. Byte order is that of the kit's
//! `byteorder`.
#![tactic(auto)]

mod fixed;
mod reading;

pub use fixed::read_text;
pub use reading::{ReadError, Refusal, read_bytes, read_u8, read_u16, read_u32, read_u64, refused};
