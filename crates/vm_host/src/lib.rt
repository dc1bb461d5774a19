//! What the virtual machine monitor asks of its surroundings: files by name, disk images, byte
//! sinks and a gate.
//!
//! The traits [`Host`], [`Image`] and [`Sink`] have a meaning (files, bytes, bytes taken) that an
//! implementation may tell or keep to itself. Clauses about content are under the premise that it
//! tells: in memory it does, over a real file system or terminal it doesn't. Counts of refusals are
//! told by all of them, and by hosts the name of their last failure, so that each refusal has its
//! cause.
//!
//! Crashes follow this rule of disks: between two syncs a written range, and what lies between the
//! old end and the end of a written range, may hold any bytes afterwards, or be cut off where it
//! lies past the old end. Bytes outside stay. After a sync that succeeded a crash leaves what a
//! read gives.
#![tactic(auto)]

mod calls;
mod event;
mod failed_name;
mod gate;
mod host;
mod image;
mod image_calls;
mod mem_host;
mod mem_image;
mod mem_sink;
mod mem_text;
mod overwrite;
mod sink;
mod text_source;

pub use failed_name::FailedName;
pub use gate::{Gate, NoGate, Place};
pub use host::{Host, HostFault};
pub use image::{Image, ImageFault};
pub use mem_host::MemHost;
pub use mem_image::MemImage;
pub use mem_sink::MemSink;
pub use mem_text::MemText;
pub use sink::{Sink, SinkFault};
pub use text_source::TextSource;
