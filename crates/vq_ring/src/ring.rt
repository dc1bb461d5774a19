ghost use Rattle.std.specs.Prelude.{◌≡◌, ◌<◌, ◌≤◌, ◌+◌, ◌*◌, ◌^◌};
ghost use Rattle.vq_ring.specs.Ring as spec;

/// Where the three tables of a split virtqueue lie in guest memory, by their addresses.
///
/// Source: OASIS virtio 1.2, section 2.7.
#[derive(Clone, Copy, PartialEq, Eq)]
pub struct Ring {
    /// How many descriptors the table has, and how many entries either ring.
    pub size: u16,
    /// The descriptor table.
    pub desc: u64,
    /// The available ring, which the driver writes.
    pub avail: u64,
    /// The used ring, which the device writes.
    pub used: u64,
}

/// Whether a queue can have this size: it is a power of 2 up to 128.
///
/// Source: OASIS virtio 1.2, section 2.7.
pub fn is_size(size: u16) -> bool
    ensures { result ≡ spec.is_size size }
{
    matches!(size, 1 | 2 | 4 | 8 | 16 | 32 | 64 | 128)
}

/// Whether a table of `len` bytes is aligned, and lies wholly in RAM above the code.
fn lies_well(code: u64, ram: u64, at: u64, len: u64, align: u64) -> bool
    requires { 0 < align }
    ensures { result ≡ spec.lies_well code ram at len align }
{
    at % align == 0 && code <= at && len <= ram && at <= ram - len
}

/// Whether a queue can be used: its size is a power of 2 up to 128, and each of its tables is aligned and lies wholly in
/// RAM above the code. RAM has `ram` bytes, of which the first `code` are code.
///
/// Source: OASIS virtio 1.2, section 2.7 (alignment and size of each part).
#[tactic(auto, unfolding(crate::specs::Ring::ring_ok))]
pub fn ring_ok(ring: &Ring, code: u64, ram: u64) -> bool
    ensures { result ≡ spec.ring_ok ring.now code ram }
{
    let size = u64::from(ring.size);
    is_size(ring.size)
        && lies_well(code, ram, ring.desc, 16 * size, 16)
        && lies_well(code, ram, ring.avail, 6 + 2 * size, 2)
        && lies_well(code, ram, ring.used, 6 + 8 * size, 4)
}
