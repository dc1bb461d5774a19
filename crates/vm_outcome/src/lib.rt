//! What a command of vmrun answers: its exit status, how it ended, and the run that it made or replayed.
//!
//! A [`Finish`] is how the work of a command ended, with the run that is kept. [`tell`] then writes to the log what is said of
//! it, the line of a refusal or the report of the run, which may change how the command ends. Statuses and what the log takes
//! stand in `specs/`: Ends and Telling.
#![tactic(auto)]

mod outcome;
mod refusing;
mod telling;

pub use outcome::{Ending, Finish, Kept, Outcome};
pub use refusing::{after_host, after_load};
pub use telling::{ending_of, is_in_doubt, report_of, tell};
