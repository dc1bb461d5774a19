//! A block device.

use blk_queue::BlkQueue;
use vm_law::Seq;
use vm_vblk::Window;

/// A block device with its disk as the guest sees it.
#[derive(Drop)]
pub struct Drive {
    /// Whether the disk is read-only.
    pub ro: bool,
    /// How many workers serve it, 1 to 8.
    pub workers: u8,
    /// Its registers.
    pub window: Window,
    /// Its unfinished requests.
    pub queue: BlkQueue,
    /// The disk's bytes, whole sectors of 512.
    pub bytes: Seq<u8>,
}
