ghost use Rattle.std.specs.Prelude.{◌≡◌, ◌<◌, ◌^◌};
ghost use Rattle.vm_vblk.specs.Window as spec;

/// VIRTIO_F_VERSION_1.
const VERSION_1: u64 = 0x1_0000_0000;

/// VIRTIO_F_VERSION_1 and VIRTIO_BLK_F_FLUSH: what each disk offers.
const FEATURES: u64 = 0x1_0000_0200;

/// The same with VIRTIO_BLK_F_RO: what a read-only disk offers.
const FEATURES_RO: u64 = 0x1_0000_0220;

/// The feature bits that a disk offers.
pub(crate) fn offered(ro: bool) -> u64
    ensures { result ≡ spec.offered ro }
{
    if ro { FEATURES_RO } else { FEATURES }
}

/// Whether the driver took no feature that isn't offered, and version 1.
#[tactic(auto, unfolding(crate::specs::Window::agrees))]
pub(crate) fn agrees(ro: bool, features: u64) -> bool
    ensures { result ≡ spec.agrees ro features }
{
    features & offered(ro) == features && features & VERSION_1 != 0
}

/// The word of 32 bits of a number that is selected: 0 is the low one, 1 the high one, and any other 0.
pub(crate) fn half_of(number: u64, select: u32) -> u32
    ensures { result ≡ spec.half_of number select }
{
    match select {
        0 => (number % 0x1_0000_0000) as u32,
        1 => (number >> 32) as u32,
        _ => 0,
    }
}

/// The number with another word in the selected place; where neither word is selected, the same number.
pub(crate) fn with_half(number: u64, select: u32, value: u32) -> u64
    ensures { result ≡ spec.with_half number select value }
{
    match select {
        0 => (number >> 32) * 0x1_0000_0000 + u64::from(value),
        1 => u64::from(value) * 0x1_0000_0000 + number % 0x1_0000_0000,
        _ => number,
    }
}
