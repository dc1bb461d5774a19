use crate::seq::Seq;
use crate::text::Text;

/// A virtual machine as its configuration plans it.
#[derive(Drop)]
pub struct Plan {
    /// How many vCPUs, 1 to 16.
    pub cpus: u8,
    /// Bytes of memory.
    pub memory: u64,
    pub name: Text,
    /// The file of the flat image.
    pub image: Option<Text>,
    /// The file of the control script.
    pub script: Option<Text>,
    pub disks: Seq<DiskPlan>,
    /// The variables that are accepted and not built, in the order of their first lines.
    pub notbuilt: Seq<Text>,
}

/// A disk of a plan.
#[derive(Drop)]
pub struct DiskPlan {
    /// The disk's file.
    pub path: Text,
    /// Whether it is read-only.
    pub ro: bool,
    /// How many workers serve it, 1 to 8.
    pub workers: u8,
}
