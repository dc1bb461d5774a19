//! The control script: orders that are given to a running virtual machine one after the other.
//!
//! [`read`] answers the script that a text spells, or the first faulty line with the first kind of fault that it has.
//! [`print`] writes a script in the one spelling that vmrun uses itself, and [`a_print_reads_as_itself`] is the law that joins
//! the two. Lines follow bhyve_config(5): blank lines and lines that begin with `#` are skipped, and spaces and tabs before a
//! line's text are dropped. The orders are this project's own.
#![tactic(auto)]

mod before;
mod fault;
mod law;
mod numeral;
mod order;
mod printing;
mod reading;

pub use fault::{ScriptError, ScriptKind};
pub use law::a_print_reads_as_itself;
pub use printing::{Hex16, print, put_order};
pub use reading::read;
