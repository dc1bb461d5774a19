//! A disk as its file is to be.

use vm_law::Seq;

/// Who has a disk's image.
#[derive(Clone, Copy)]
pub struct Holder {
    /// The pass that took it.
    pub by: u16,
    /// The id of the request for which it did.
    pub id: u32,
}

/// A disk as its file is to be, and how its requests fared.
#[derive(Drop)]
pub struct DiskImage {
    /// The file's bytes, whole sectors of 512.
    pub bytes: Seq<u8>,
    /// For each sector whether it is in doubt: its last write failed, so that the file may hold any bytes there.
    pub doubt: Seq<bool>,
    /// Who has the image, where it isn't at home.
    pub holder: Option<Holder>,
    /// How many requests were finished.
    pub finished: u64,
    /// How many were cancelled.
    pub cancelled: u64,
}
