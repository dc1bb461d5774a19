//! The words of vmrun's command line.
//!
//! [`read`] answers the command that the words give by the table of commands, and [`CmdError::Usage`] exactly where they are
//! outside the table. The table is data: for each command its places, its options with a value, and its flags. The words
//! are read by `clap`, after the words that it would read otherwise than the table were refused: empty words and values,
//! `-` and `--` alone, and short options. The spelling of options follows the convention of GNU `getopt_long`.
#![tactic(auto)]

mod builder;
mod command;
mod matched;
mod number;
mod reading;
mod word;

pub use command::{CmdError, Command, InspectWords, RunWords};
pub use reading::read;
