//! Where an access goes, or why it can't be made.
ghost use Rattle.std.specs.Prelude.{◌≡◌, ◌<◌, ◌≤◌, ◌+◌, length, IfOk, IsTrue};
ghost use Rattle.vm_bus.specs.Area.{area_in};
ghost use Rattle.x86_exec.specs.Reached as spec;

use crate::effect::Effect;
use vm_bus::{Area, area_at};
use vm_law::{Bytes, Stop};

/// Where an access goes.
#[derive(Clone, Copy, Debug, PartialEq, Eq)]
pub(crate) enum Place {
    Memory,
    /// A device's window.
    Window(Area),
}

#[tactic(auto, unfolding(crate::specs::Reached::windowed))]
fn windowed(plain: bool, area: Area, offset: u32) -> Result<Place, Effect>
    ensures { result ≡ spec.windowed plain area offset }
{
    if plain && offset.is_multiple_of(4) {
        Ok(Place::Window(area))
    } else {
        Err(Effect::Stop(Stop::Device))
    }
}

#[inline(always)]
#[tactic(auto, unfolding(crate::specs::Reached::reached))]
fn judged(plain: bool, area: Area) -> Result<Place, Effect>
    ensures { result ≡ spec.reached plain area }
{
    match area {
        Area::Noncanonical => Err(Effect::Trap {
            vector: 13,
            error: Some(0),
        }),
        Area::Lapic(offset) | Area::Ioapic(offset) | Area::Disk(_, offset) => windowed(
            plain, area, offset,
        ),
        Area::Split => Err(Effect::Stop(Stop::Device)),
        Area::Nothing => Err(Effect::Stop(Stop::Memory)),
        Area::Code | Area::Ram => Ok(Place::Memory),
    }
}

/// Where an access to `len` bytes goes. `plain` is whether a MOV of 32 bits makes it.
#[inline(always)]
pub(crate) fn reach<B: Bytes>(bytes: &B, plain: bool, at: u64, len: u8) -> Result<Place, Effect>
    requires { 0 < len }
    ensures reached { result ≡ spec.reached plain (area_in (B.memory bytes.now) at len) }
    ensures there { IfOk result (λ place. spec.IsThere (B.memory bytes.now) at len place) }
{
    let area = area_at(at, u64::from(len), bytes.code(), bytes.size());
    judged(plain, area)
}

/// Whether an access to `len` bytes goes to memory.
#[inline(always)]
#[tactic(auto, unfolding(crate::specs::Reached::is_memory))]
pub(crate) fn is_in_memory<B: Bytes>(bytes: &B, at: u64, len: u8) -> bool
    requires { 0 < len }
    ensures is { result ≡ spec.is_memory (area_in (B.memory bytes.now) at len) }
    ensures there { IsTrue result → at + len ≤ length (B.memory bytes.now).bytes }
{
    match area_at(at, u64::from(len), bytes.code(), bytes.size()) {
        Area::Code | Area::Ram => true,
        _ => false,
    }
}

/// Reads a range of some bytes that is all in memory, and in no window.
#[tactic(auto, unfolding(crate::specs::Reached::bytes_at))]
pub(crate) fn read_at<B: Bytes, const N: usize>(bytes: &B, at: u64) -> Result<[u8; N], Effect>
    requires some { 0 < N }
    requires short { N < 256 }
    ensures { result ≡ spec.bytes_at (B.memory bytes.now) at N }
{
    match reach(bytes, false, at, N as u8)? {
        Place::Memory => {
            let mut piece = [0; N];
            bytes.read(at, &mut piece);
            Ok(piece)
        }
        Place::Window(_) => Err(Effect::Stop(Stop::Device)),
    }
}
