//! What an operand is to an instruction: a place, a register, a number, a label, a port.
ghost use Rattle.std.specs.Prelude.{◌≡◌};
ghost use Rattle.asm_insn.specs.OperandKind.{place_in, register_in, pair_of, into_register, immediate_in, target_in, source_in, operands_in, count_in, port_in, accumulator_in};

use crate::argument::Argument;
use asm_words::{bits_in, signed_in, signed32_in};
use vm_law::{Count, Loc, Src, Width};

/// A place with its width.
pub fn place_in(a: Argument) -> Option<(Width, Loc)>
    ensures { result ≡ place_in a }
{
    match a {
        Argument::Place(width, place) => Some((width, place)),
        _ => None,
    }
}

/// A register by its number, with its width, but for AH, CH, DH and BH.
pub fn register_in(a: Argument) -> Option<(Width, u8)>
    ensures { result ≡ register_in a }
{
    match a {
        Argument::Place(width, Loc::Reg(number)) => Some((width, number)),
        _ => None,
    }
}

/// Two places of one width.
pub fn pair_of(a: Argument, b: Argument) -> Option<(Width, Loc, Loc)>
    ensures { result ≡ pair_of a b }
{
    let (width, first) = place_in(a)?;
    let (other, second) = place_in(b)?;
    if width == other {
        Some((width, first, second))
    } else {
        None
    }
}

/// A register, and a place of its width.
pub fn into_register(a: Argument, b: Argument) -> Option<(Width, u8, Loc)>
    ensures { result ≡ into_register a b }
{
    let (width, number) = register_in(a)?;
    let (other, place) = place_in(b)?;
    if width == other {
        Some((width, number, place))
    } else {
        None
    }
}

/// A number or a label.
pub fn immediate_in(a: Argument) -> Option<i128>
    ensures { result ≡ immediate_in a }
{
    match a {
        Argument::Number(n) => Some(n),
        Argument::Label(n) => Some(n),
        _ => None,
    }
}

/// Where a jump goes: a label or a distance.
pub fn target_in(a: Argument) -> Option<i32>
    ensures { result ≡ target_in a }
{
    match a {
        Argument::Label(n) => Some(signed32_in(Width::D, n)),
        Argument::Distance(n) => Some(signed32_in(Width::D, n)),
        _ => None,
    }
}

/// A source of an operation of that width.
pub fn source_in(width: Width, a: Argument) -> Option<Src>
    ensures { result ≡ source_in width a }
{
    if let Some(n) = immediate_in(a) {
        return Some(Src::Imm(signed_in(width, n)));
    }
    let (other, place) = place_in(a)?;
    if other == width {
        Some(Src::Loc(place))
    } else {
        None
    }
}

/// A destination, and a source of its width.
pub fn operands_in(a: Argument, b: Argument) -> Option<(Width, Loc, Src)>
    ensures { result ≡ operands_in a b }
{
    let (width, place) = place_in(a)?;
    let source = source_in(width, b)?;
    Some((width, place, source))
}

/// How far a shift goes: a number, or CL.
pub fn count_in(a: Argument) -> Option<Count>
    ensures { result ≡ count_in a }
{
    match a {
        Argument::Number(n) => Some(Count::Imm(bits_in(Width::B, n) as u8)),
        Argument::Place(Width::B, Loc::Reg(1)) => Some(Count::Cl),
        _ => None,
    }
}

/// A port: a number, or `None` in `Some` for DX.
pub fn port_in(a: Argument) -> Option<Option<u8>>
    ensures { result ≡ port_in a }
{
    match a {
        Argument::Number(n) => Some(Some(bits_in(Width::B, n) as u8)),
        Argument::Place(Width::W, Loc::Reg(2)) => Some(None),
        _ => None,
    }
}

/// The width of the accumulator.
pub fn accumulator_in(a: Argument) -> Option<Width>
    ensures { result ≡ accumulator_in a }
{
    match a {
        Argument::Place(width, Loc::Reg(0)) => Some(width),
        _ => None,
    }
}
