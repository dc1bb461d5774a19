//! Single bits of RFLAGS. Source: Intel SDM volume 1, section 3.4.3.
ghost use Rattle.std.specs.Prelude.{◌≡◌, ◌<◌};
ghost use Rattle.x86_alu.specs.Flags as spec;

pub(crate) const CF: u32 = 0;

pub(crate) const PF: u32 = 2;

pub(crate) const ZF: u32 = 6;

pub(crate) const SF: u32 = 7;

pub(crate) const IF: u32 = 9;

pub(crate) const DF: u32 = 10;

pub(crate) const OF: u32 = 11;

/// Whether a flag is set, by its place.
#[inline(always)]
pub(crate) fn is_set(flags: u64, place: u32) -> bool
    requires { place < 64 }
    ensures { result ≡ spec.is_set flags place }
{
    flags >> place & 1 == 1
}

/// RFLAGS with the flag at this place set or cleared.
#[inline(always)]
pub(crate) fn with_bit(flags: u64, place: u32, on: bool) -> u64
    requires { place < 64 }
    ensures { result ≡ spec.with_bit flags place on }
{
    let mask = 1u64 << place;
    if on { flags | mask } else { flags & !mask }
}
