use arrayvec::ArrayVec;

/// A descriptor of a split virtqueue. Source: OASIS virtio 1.2, section 2.7.5.
#[derive(Clone, Copy, Default, PartialEq, Eq)]
pub struct Descriptor {
    pub addr: u64,
    pub len: u32,
    /// 1 next, 2 device-writable, 4 indirect.
    pub flags: u16,
}

/// A descriptor chain: the index of its first descriptor, and its descriptors in order.
#[derive(PartialEq, Drop)]
pub struct ChainList {
    pub head: u16,
    pub descriptors: ArrayVec<Descriptor, 128>,
}

/// What a block request does. Source: OASIS virtio 1.2, section 5.2.6.
#[derive(Clone, Copy, Debug, PartialEq, Eq)]
pub enum Kind {
    Read,
    Write,
    Flush,
}

/// A piece of guest memory.
#[derive(Clone, Copy, Debug, Default, PartialEq, Eq)]
pub struct Segment {
    pub addr: u64,
    pub len: u32,
}

/// A block request that was accepted.
#[derive(PartialEq, Drop)]
pub struct Request {
    pub kind: Kind,
    /// The index of its chain's first descriptor.
    pub head: u16,
    /// The address of its status byte.
    pub status_at: u64,
    /// Its first sector; 0 for a flush.
    pub start: u64,
    /// Its sectors, of 512 bytes; 1 for a flush.
    pub count: u32,
    /// Its data, in order.
    pub segments: ArrayVec<Segment, 126>,
}
