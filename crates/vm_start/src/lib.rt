//! From the words of a command and the files that they name to the start of a run, and from a start to the images of its disks.
//!
//! [`read_start`] reads FILE, a flat image or a configuration, with all that its plan names, and answers the start or the first
//! refusal in the order of `specs/Start`: FILE, the image, the disks in order, the script, a name that is used twice, an order
//! that isn't built yet. [`read_plan`] stops at the plan of a configuration. [`open_images`] has the host lend the file of each
//! disk as an image, and [`close_images`] gives them back. A refusal tells the file, the place and the kind of the first fault;
//! what a file's bytes say is defined by the crates of the formats.
#![tactic(auto)]

mod disks;
mod image;
mod images;
mod loading;
mod names;
mod planning;
mod refusing;
mod script;
mod setup;
mod starting;
mod unbuilt;

pub use images::{close_images, open_images};
pub use planning::read_plan;
pub use starting::read_start;
