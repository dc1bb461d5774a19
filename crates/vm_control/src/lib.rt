//! Control: the pass that carries out the script, ends and closes the run, and writes the console.
//!
//! In its turn [`Control`] has the board (`vm_board`): it adds the first entry of its list that is lawful, or the end of the
//! run where its work outside failed, and takes over what the console has received since. Outside of its turn it writes
//! those bytes to a sink, piece by piece. Orders that save the machine are not for it yet.
#![tactic(auto)]

mod control;
mod failures;
mod law;
mod writing;

pub use control::{Control, OutFault};
pub use law::{entries_keep_control, new_control_fits};
