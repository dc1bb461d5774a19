//! What a run of the machine consists of, and how it begins.
//!
//! [`Machine`] is the machine as its guest sees it: vCPUs with their local APICs, memory, the I/O APIC, the serial port,
//! block devices, the wish to pause, the rendezvous that is open, and the timers. [`RunState`] is the machine with what a
//! run keeps beside it: a seat per vCPU, the image of each disk as its file is to be, a version per page of the code, the
//! counts of executed instructions and of entries, the script with its answers, and the console. From a [`Start`] a run
//! begins by [`boot`].
//!
//! The definitions say what holds of every run (`Sound`), of which starts a run can begin, and what its first state is
//! (`Start`), and give the words in which the effects of entries are said (`Machine`, `State`, `Requests`). The parts are
//! those of Intel SDM volume 3, the 82093AA, the 16550 and OASIS virtio 1.2; stages follow FreeBSD's vmm(4), requests its
//! usr.sbin/bhyve/block_if.c.
#![tactic(auto)]

mod booting;
mod copying;
mod counting;
mod cpu;
mod drive;
mod image;
mod kept;
mod machine;
mod orders;
mod parts;
mod reading;
mod run_state;
mod start;
mod versions;

pub use booting::{boot, ctx_from};
pub use counting::open_grants;
pub use cpu::{Cpu, Seat};
pub use drive::Drive;
pub use image::{DiskImage, Holder};
pub use machine::Machine;
pub use run_state::{Answer, RunState, Said, Sample, Why};
pub use start::{Origin, Start};
pub use versions::Versions;
