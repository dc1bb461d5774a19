//! Files that are read whole, and files that are written so that a crash at any moment leaves them refused or
//! whole.
//!
//! [`save`] and [`save_from`] make the file, write a gate byte 00, then the text behind it, and open the gate by
//! writing 01 over it, with a sync after each. So at each moment from the file's making on, a crash leaves a file
//! whose gate is shut, or the whole text: [`accepted_is_whole`] says that a file that a grammar accepts afterwards is
//! the text that was saved. No checksum is needed. Nothing is promised of a crash inside the making itself.
//! [`load`] answers what a file reads as, up to a limit on its length; [`load_gated`] stops at a gate that is shut.
//!
//! What a crash may leave is as the rule of disks of `vm_host` says.
#![tactic(auto)]

mod law;
mod loading;
mod saving;

pub use law::accepted_is_whole;
pub use loading::{LoadFault, load, load_gated};
pub use saving::{save, save_from};
