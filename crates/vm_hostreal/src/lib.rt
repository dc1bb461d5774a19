//! The outside over a real system: files, disk images in files, and standard output and error, through POSIX calls.
//!
//! [`FileHost`], [`FileImage`], [`OutSink`] and [`ErrSink`] meet the traits of `vm_host` and tell nothing of content: a real file
//! may be changed by anybody at any time, and a pipe may lose what it took. Their counts of refusals are exact: each
//! refusal raises its count, and a host tells the name of its last failure. What they ask of the system is said in their comments, and tested on a real folder.
//!
//! Only regular files are opened. A folder, a FIFO or a device is refused before it is opened, and what was opened is
//! looked at once more.
#![tactic(auto)]

mod err_sink;
mod file_host;
mod file_image;
mod files;
mod kept_file;
mod out_sink;

pub use err_sink::ErrSink;
pub use file_host::FileHost;
pub use file_image::FileImage;
pub use out_sink::OutSink;
