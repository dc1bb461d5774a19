//! What a run starts from.

use crate::machine::Machine;
use vm_law::{FlatImage, Plan, Script, Seq};

/// What a machine is made from.
#[derive(Drop)]
pub enum Origin {
    /// A flat image.
    Flat(FlatImage),
    /// A machine that was saved.
    Saved(Machine),
}

/// What a run starts from.
#[derive(Drop)]
pub struct Start {
    pub plan: Plan,
    pub origin: Origin,
    /// The bytes of each disk.
    pub disks: Seq<Seq<u8>>,
    pub script: Script,
    /// How many instructions may be executed, 1 to 20,000,000.
    pub limit: u64,
}
