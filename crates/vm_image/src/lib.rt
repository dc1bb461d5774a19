//! Reads and writes flat images.
//!
//! The file of a flat image, with numbers of eight bytes, the lowest byte first: `VMFLAT1` and a line feed, the entry, the
//! length of the code part, and the payload, which is loaded at address 0. [`read`] gives the one image that has these
//! bytes, and where there is none for a memory of the given size, the first place at which the bytes are wrong, and why. [`write`]
//! gives the bytes of an image. The format is vmrun's own; `vm_law` defines it (specs/Image).
#![tactic(auto)]

mod error;
mod law;
mod reading;
mod writing;

pub use error::{ImageError, ImageKind};
pub use law::faults_are_all;
pub use reading::read;
pub use writing::write;
