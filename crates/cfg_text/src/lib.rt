//! The text of a bhyve configuration: variables, one a line, as `bhyve_config(5)` of FreeBSD describes them.
//!
//! `read` takes a text of fewer than 2^32 bytes. It answers each variable once, in the order of the variables' first
//! lines, with the value of the last line that gives it one, in which each `%(name)` stands for that variable's value as
//! written. It refuses a text exactly where a line is faulty or the values grow too long, and tells the first such
//! line and what is wrong with it. The rules are in specs/: Line for one line, Lines for the whole text, Values for the
//! values that name other variables.
#![tactic(auto)]

mod config;
mod error;
mod expand;
mod line;
mod reading;

pub use config::Config;
pub use error::{CfgError, CfgKind};
pub use reading::read;
