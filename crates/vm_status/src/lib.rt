//! How a command of vmrun is refused: the one value that carries a refusal from where it is found to the line that is written.
//!
//! A [`Refusal`] has all that its status and its line say: the file's name, what it was read as, the place and the kind of
//! the first fault. Status and line are read off it, and [`write_line`] writes the line without taking memory. The words and
//! the lines stand in `specs/`, Words and Lines. Status 71 is EX_OSERR of sysexits(3); the others are vmrun's own.
#![tactic(auto)]

mod kind;
mod line;
mod refusal;
mod role;
mod writing;

pub use kind::Kind;
pub use line::write_line;
pub use refusal::Refusal;
pub use role::Role;
pub use writing::write_all;
