ghost use Rattle.std.specs.Prelude.{◌≡◌, ◌≤◌, ◌<◌, ◌+◌, ◌-◌, ◌&&◌, ℕ, Some, None, nat_le, nat_lt, if◌then◌else◌, not, true, MatchBool, IfSome, ◌⊎◌};
ghost use Rattle.vm_bus.specs.Area as spec;

/// What stands at a range of addresses.
#[derive(Clone, Copy, Debug, PartialEq, Eq)]
pub enum Area {
    /// RAM above the code part.
    Ram,
    /// RAM, of which some is in the code part.
    Code,
    /// The local APIC's registers, from an offset below 4,096 on.
    Lapic(u32),
    /// The I/O APIC's registers, from an offset below 4,096 on.
    Ioapic(u32),
    /// The registers of a disk below 8, from an offset below 4,096 on.
    Disk(u8, u32),
    /// Bits 63 to 47 of some byte's address aren't all equal.
    Noncanonical,
    /// Some byte is in a device's window, but not all are in one.
    Split,
    /// Some byte is outside RAM, and none is in a window.
    Nothing,
}

/// The first address that isn't canonical, and the last.
const HOLE: u64 = 0x0000_8000_0000_0000;

const HOLE_LAST: u64 = 0xFFFF_7FFF_FFFF_FFFF;

/// The windows of the local APIC and the I/O APIC.
const LAPIC: u64 = 0xFEE0_0000;

const IOAPIC: u64 = 0xFEC0_0000;

/// The window of disk 0. Those of the disks 1 to 7 follow.
const DISKS: u64 = 0xD000_0000;

const DISK_WINDOWS: u64 = 0x8000;

/// How long each window is.
const WINDOW: u64 = 0x1000;

/// What stands at the `len` bytes from an address on, where RAM has `ram` bytes from address 0 on, and the first
/// `code` of them are code. The addresses wrap at 2^64. All eight windows of disks are there, whatever disks are.
///
/// In this order: a byte that isn't canonical; a range inside a window; a byte in a window; a byte outside RAM;
/// a byte in the code. No byte is anywhere where `len` is 0: the answer is then the window that the address is in,
/// or else `Ram`.
///
/// Source: Intel SDM volume 1, section 3.3.7.1, and volume 3, section 10.4.1; bhyve's `vioapic.h`.
#[inline(always)]
pub fn area_at(addr: u64, len: u64, code: u64, ram: u64) -> Area
    ensures area { result ≡ spec.area_of addr len code ram }
    ensures within { spec.IsWithin addr len code ram result }
{
    if addr < DISKS && len <= DISKS - addr {
        memory_at(addr, len, code, ram)
    } else {
        area_above(addr, len, code, ram)
    }
}

/// The same of any range, also one below all windows.
#[inline(never)]
#[tactic(auto, unfolding(crate::specs::Area::area_of, crate::specs::Area::memory_of))]
fn area_above(addr: u64, len: u64, code: u64, ram: u64) -> Area
    ensures area { result ≡ spec.area_of addr len code ram }
    ensures within { spec.IsWithin addr len code ram result }
{
    if touches_hole(addr, len) {
        return Area::Noncanonical;
    }
    if let Some(area) = window_at(addr, len) {
        return area;
    }
    if touches_device(addr, len) {
        return Area::Split;
    }
    memory_at(addr, len, code, ram)
}

/// What stands at a range that is in no window.
#[inline(always)]
#[tactic(auto, unfolding(crate::specs::Area::memory_of))]
fn memory_at(addr: u64, len: u64, code: u64, ram: u64) -> Area
    ensures area { result ≡ spec.memory_of addr len code ram }
    ensures within { spec.IsWithin addr len code ram result }
{
    if leaves_ram(addr, len, ram) {
        Area::Nothing
    } else if touches_code(addr, len, code) {
        Area::Code
    } else {
        Area::Ram
    }
}

/// Whether some byte of a range is outside RAM.
#[inline(always)]
fn leaves_ram(addr: u64, len: u64, ram: u64) -> bool
    ensures bytes { result ≡ spec.any_byte (λ a. nat_le ram a) addr len }
    ensures ends { MatchBool result (0 < len) (0 < len → addr + len ≤ ram) }
{
    touches(addr, len, ram, u64::MAX)
}

/// Whether some byte of a range is in the code.
#[inline(always)]
fn touches_code(addr: u64, len: u64, code: u64) -> bool
    ensures bytes { result ≡ spec.any_byte (λ a. nat_lt a code) addr len }
    ensures ends { MatchBool result (0 < len) (0 < len → code ≤ addr) }
{
    0 < code && touches(addr, len, 0, code - 1)
}

/// The window that a range is inside.
#[tactic(auto, unfolding(crate::specs::Area::window_of))]
fn window_at(addr: u64, len: u64) -> Option<Area>
    ensures window { result ≡ spec.window_of addr len }
    ensures within { IfSome result (λ area. (code ram : ℕ) → spec.IsWithin addr len code ram area) }
{
    if let Some(offset) = offset_in(LAPIC, addr, len) {
        return Some(Area::Lapic(offset));
    }
    if let Some(offset) = offset_in(IOAPIC, addr, len) {
        return Some(Area::Ioapic(offset));
    }
    if addr < DISKS || DISK_WINDOWS <= addr - DISKS {
        return None;
    }
    let disk = (addr - DISKS) / WINDOW;
    let offset = offset_in(DISKS + disk * WINDOW, addr, len)?;
    Some(Area::Disk(disk as u8, offset))
}

/// Where a range is in the window at `base`, if it is inside.
fn offset_in(base: u64, addr: u64, len: u64) -> Option<u32>
    ensures { result
        ≡ (if nat_le base addr && nat_lt addr (base + 4096) && nat_le (addr + len) (base + 4096)
        then Some (addr - base) else None) }
{
    if base <= addr && addr - base < WINDOW && len <= WINDOW - (addr - base) {
        Some((addr - base) as u32)
    } else {
        None
    }
}

/// Whether some byte of a range isn't at a canonical address.
fn touches_hole(addr: u64, len: u64) -> bool
    ensures { result ≡ spec.any_byte (λ a. not (spec.is_canonical a)) addr len }
{
    touches(addr, len, HOLE, HOLE_LAST)
}

/// Whether some byte of a range is in a window.
fn touches_device(addr: u64, len: u64) -> bool
    ensures bytes { result ≡ spec.any_byte spec.is_device addr len }
    ensures some { result ≡ true → 0 < len }
{
    touches(addr, len, LAPIC, LAPIC + (WINDOW - 1))
        || touches(addr, len, IOAPIC, IOAPIC + (WINDOW - 1))
        || touches(addr, len, DISKS, DISKS + (DISK_WINDOWS - 1))
}

/// Whether some byte of a range is between two addresses, or at one of them.
#[inline(always)]
fn touches(addr: u64, len: u64, first: u64, last: u64) -> bool
    requires { first ≤ last }
    ensures bytes { result ≡ spec.any_byte (λ a. nat_le first a && nat_le a last) addr len }
    ensures ends { MatchBool result (0 < len) (0 < len → (addr + len ≤ first) ⊎ (last < addr)) }
{
    // How many bytes come before the one at `first`.
    let before = first.wrapping_sub(addr);
    before < len || 0 < len && first <= addr && addr <= last
}
