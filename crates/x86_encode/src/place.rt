ghost use Rattle.std.specs.Prelude.{◌≡◌, ◌≤◌, ◌%◌};
ghost use Rattle.x86_encode.specs.Inside.Place.{is_none, is_byte, fits_none, fits_byte, fewest_mode, fewest_bytes, scale_bits, place_of, no_index, with_index};
ghost use Rattle.x86_encode.specs.Inside.Seen.{seen, disp_bytes};

use vm_law::Mem;

/// How many bytes a displacement has.
#[derive(Clone, Copy)]
pub(crate) enum Size {
    None,
    Byte,
    Long,
}

/// A place in memory as it is written: the ModRM byte without its middle field, the SIB byte, the
/// displacement, and the bits REX.X and REX.B.
#[derive(Clone, Copy)]
pub(crate) struct Written {
    pub mode: u8,
    pub sib: Option<u8>,
    pub disp: i32,
    pub size: Size,
    pub x: bool,
    pub b: bool,
}

fn is_none(d: i32) -> bool
    ensures { result ≡ is_none d }
{
    d == 0
}

fn is_byte(d: i32) -> bool
    ensures { result ≡ is_byte d }
{
    -128 <= d && d < 128
}

fn fits_none(long: bool, low: u8, d: i32) -> bool
    ensures { result ≡ fits_none long low d }
{
    !long && is_none(d) && low != 5
}

fn fits_byte(long: bool, d: i32) -> bool
    ensures { result ≡ fits_byte long d }
{
    !long && is_byte(d)
}

/// The fewest bytes for a displacement behind a base, or four, with the mode that says so.
#[tactic(auto, unfolding(crate::specs::Inside::Place::fewest_mode, crate::specs::Inside::Place::fewest_bytes))]
fn fewest(long: bool, low: u8, d: i32) -> (u8, Size)
    ensures mode { result.0 ≡ fewest_mode long low d }
    ensures bytes { disp_bytes result.1 d ≡ fewest_bytes long low d }
    ensures small { result.0 ≤ 128 }
{
    if fits_none(long, low, d) {
        return (0, Size::None);
    }
    if fits_byte(long, d) {
        return (64, Size::Byte);
    }
    (128, Size::Long)
}

fn scale_bits(scale: u8) -> u8
    ensures value { result ≡ scale_bits scale }
    ensures small { result ≤ 192 }
{
    match scale {
        1 => 0,
        2 => 64,
        4 => 128,
        _ => 192,
    }
}

#[tactic(auto, unfolding(crate::specs::Inside::Place::no_index))]
fn no_index(long: bool, base: Option<u8>, rip: bool, d: i32) -> Written
    ensures { seen result ≡ no_index long base rip d }
{
    let Some(base) = base else {
        let (mode, sib) = if rip { (5, None) } else { (4, Some(37)) };
        return Written {
            mode,
            sib,
            disp: d,
            size: Size::Long,
            x: false,
            b: false,
        };
    };
    let low = base % 8;
    let (mode, size) = fewest(long, low, d);
    if low == 4 {
        return Written {
            mode: mode + 4,
            sib: Some(36),
            disp: d,
            size,
            x: false,
            b: base >= 8,
        };
    }
    Written {
        mode: mode + low,
        sib: None,
        disp: d,
        size,
        x: false,
        b: base >= 8,
    }
}

#[tactic(auto, unfolding(crate::specs::Inside::Place::with_index))]
fn with_index(long: bool, base: Option<u8>, index: u8, scale: u8, d: i32) -> Written
    ensures { seen result ≡ with_index long base index scale d }
{
    let high = scale_bits(scale) + 8 * (index % 8);
    match base {
        None => Written {
            mode: 4,
            sib: Some(high + 5),
            disp: d,
            size: Size::Long,
            x: index >= 8,
            b: false,
        },
        Some(base) => {
            let low = base % 8;
            let (mode, size) = fewest(long, low, d);
            Written {
                mode: mode + 4,
                sib: Some(high + low),
                disp: d,
                size,
                x: index >= 8,
                b: base >= 8,
            }
        }
    }
}

/// The plain form of a place in memory, with a long displacement where it is asked.
pub(crate) fn place_of(long: bool, m: Mem) -> Written
    ensures { seen result ≡ place_of long m }
{
    match m.index {
        None => no_index(long, m.base, m.rip, m.disp),
        Some(index) => with_index(long, m.base, index, m.scale, m.disp),
    }
}
