//! Parts of a run, while it is put together.

use crate::cpu::Seat;
use crate::image::DiskImage;
use crate::machine::Machine;
use crate::run_state::Answer;
use crate::versions::Versions;
use vm_law::Seq;

/// What a run keeps of its vCPUs, its disks and its code.
#[derive(Drop)]
pub(crate) struct Kept {
    pub seats: Seq<Seat>,
    pub images: Seq<DiskImage>,
    pub versions: Versions,
}

/// The machine of a run, with what the run keeps of it.
#[derive(Drop)]
pub(crate) struct Held {
    pub machine: Machine,
    pub kept: Kept,
}

/// What a run was told, and what its console received.
#[derive(Drop)]
pub(crate) struct Told {
    pub orders: Seq<Answer>,
    pub input: Vec<u8>,
    pub console: Vec<u8>,
}
