//! Readers that the text formats of vmrun share: lines, words, and numbers in digits.
//!
//! A configuration (`bhyve_config(5)` of FreeBSD), a control script, the assembler's text and the command line are read
//! by these. Lines end at LF or at the text's end, and a CR before LF is no part of its line. Each reader answers exactly
//! what its definition in specs/ says of the bytes: Line for lines, Word for the words and parts of a line, Digits for
//! numbers. A text is UTF-8 as the Unicode Standard, section 3.9, defines it.
#![tactic(auto)]

mod digits;
mod line;
mod word;

pub use digits::{after_prefix, digit, hex_number, number, numeral};
pub use line::{content, first_line, utf8_of};
pub use word::{Separators, after_byte, cut_at, words};
