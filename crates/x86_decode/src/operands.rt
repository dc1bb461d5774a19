ghost use Rattle.std.specs.Prelude.{◌≡◌};
ghost use Rattle.x86_grammar.specs.Operands.{word_or_doubleword, width_of, sib_len, base_field, lacks_base, disp_len, imm_len, general_register, displacement, base_of, scale_of, index_of, address, rm_operand, reg_operand, opcode_operand, immediate, signed, signed32, unsigned8, unsigned16, place, places, immediate_alone, place_and_immediate, places_and_immediate, operands_of, row_operands};

use crate::fields::{extended, modrm_mod, names_register, rex_b, rex_r, rex_w, rex_x};
use vm_law::{Loc, Mem, Width};
use x86_grammar::{Class, Form, Head, Imm, Immediate, Operands, Prefixes, Rex, Row};

const ACCUMULATOR: Loc = Loc::Reg(0);

/// The width without REX.W.
fn word_or_doubleword(size: bool) -> Width
    ensures { result ≡ word_or_doubleword size }
{
    if size { Width::W } else { Width::D }
}

/// The width of a row's operands.
#[tactic(auto, unfolding(x86_grammar::specs::Operands::width_of))]
pub fn width_of(class: Class, prefixes: Prefixes, rex: Option<Rex>) -> Width
    ensures { result ≡ width_of class prefixes rex }
{
    match class {
        Class::B => Width::B,
        Class::V => {
            if rex_w(rex) {
                Width::Q
            } else {
                word_or_doubleword(prefixes.size)
            }
        }
        Class::W => word_or_doubleword(prefixes.size),
        Class::Q | Class::N => Width::Q,
        Class::L => { if rex_w(rex) { Width::Q } else { Width::D } }
    }
}

/// How many SIB bytes stand behind a ModRM byte.
pub fn sib_len(modrm: &[u8]) -> usize
    ensures { result ≡ sib_len modrm.now }
{
    match modrm {
        [] => 0,
        [byte, ..] => {
            if !names_register(*byte) && *byte % 8 == 4 {
                1
            } else {
                0
            }
        }
    }
}

/// The field that names the base.
fn base_field(modrm: u8, sib: &[u8]) -> u8
    ensures { result ≡ base_field modrm sib.now }
{
    match sib {
        [] => modrm % 8,
        [byte, ..] => *byte % 8,
    }
}

/// Whether this field names no base.
fn lacks_base(modrm: u8, field: u8) -> bool
    ensures { result ≡ lacks_base modrm field }
{
    modrm_mod(modrm) == 0 && field == 5
}

/// How many bytes the displacement has.
#[tactic(auto, unfolding(x86_grammar::specs::Operands::disp_len))]
pub fn disp_len(modrm: &[u8], sib: &[u8]) -> usize
    ensures { result ≡ disp_len modrm.now sib.now }
{
    let [byte, ..] = modrm else {
        return 0;
    };
    if modrm_mod(*byte) == 1 {
        return 1;
    }
    if modrm_mod(*byte) == 2 {
        return 4;
    }
    if lacks_base(*byte, base_field(*byte, sib)) {
        4
    } else {
        0
    }
}

/// How many bytes the immediate has.
#[tactic(auto, unfolding(x86_grammar::specs::Operands::imm_len))]
pub fn imm_len(imm: Imm, width: Width) -> usize
    ensures { result ≡ imm_len imm width }
{
    match imm {
        Imm::None => 0,
        Imm::B => 1,
        Imm::W => 2,
        Imm::D => 4,
        Imm::Z => match width {
            Width::W => 2,
            Width::B | Width::D | Width::Q => 4,
        },
        Imm::V => match width {
            Width::B => 1,
            Width::W => 2,
            Width::D => 4,
            Width::Q => 8,
        },
    }
}

/// A register by its number, at a width.
#[tactic(auto, unfolding(x86_grammar::specs::Operands::general_register))]
fn general_register(width: Width, rex: Option<Rex>, number: u8) -> Loc
    ensures { result ≡ general_register width rex number }
{
    match (width, rex) {
        (Width::B, None) => {
            if number < 4 {
                Loc::Reg(number)
            } else {
                Loc::High(number - 4)
            }
        }
        _ => Loc::Reg(number),
    }
}

/// The displacement, where it has no byte, one or four.
#[tactic(auto, unfolding(x86_grammar::specs::Operands::displacement))]
fn displacement(bytes: &[u8]) -> Option<i32>
    ensures { result ≡ displacement bytes.now }
{
    match bytes {
        [] => Some(0),
        [a] => Some(i32::from(a.cast_signed())),
        [a, b, c, d] => Some(i32::from_le_bytes([*a, *b, *c, *d])),
        _ => None,
    }
}

/// The base of a SIB byte, if it has one.
fn base_of(modrm: u8, sib: u8, rex: Option<Rex>) -> Option<u8>
    ensures { result ≡ base_of modrm sib rex }
{
    if lacks_base(modrm, sib % 8) {
        None
    } else {
        Some(extended(rex_b(rex), sib % 8))
    }
}

/// The factor of an index.
#[tactic(auto, unfolding(x86_grammar::specs::Operands::scale_of))]
fn scale_of(sib: u8) -> u8
    ensures { result ≡ scale_of sib }
{
    match sib / 64 {
        0 => 1,
        1 => 2,
        2 => 4,
        _ => 8,
    }
}

/// The index of a SIB byte, if it has one, and its factor.
fn index_of(sib: u8, rex: Option<Rex>) -> (Option<u8>, u8)
    ensures { result ≡ index_of sib rex }
{
    let index = extended(rex_x(rex), sib / 8 % 8);
    if index == 4 {
        (None, 1)
    } else {
        (Some(index), scale_of(sib))
    }
}

/// A place in memory, where there is at most one SIB byte.
#[tactic(auto, unfolding(x86_grammar::specs::Operands::address))]
fn address(modrm: u8, rex: Option<Rex>, sib: &[u8], disp: i32) -> Option<Mem>
    ensures { result ≡ address modrm rex sib.now disp }
{
    let rip = Mem {
        base: None,
        index: None,
        scale: 1,
        disp,
        rip: true,
    };
    match sib {
        [] => {
            if lacks_base(modrm, modrm % 8) {
                return Some(rip);
            }
            let base = Some(extended(rex_b(rex), modrm % 8));
            Some(Mem {
                base,
                index: None,
                scale: 1,
                disp,
                rip: false,
            })
        }
        [byte] => {
            let (index, scale) = index_of(*byte, rex);
            let base = base_of(modrm, *byte, rex);
            Some(Mem {
                base,
                index,
                scale,
                disp,
                rip: false,
            })
        }
        _ => None,
    }
}

/// The operand that mod and rm name.
#[tactic(auto, unfolding(x86_grammar::specs::Operands::rm_operand))]
fn rm_operand(width: Width, rex: Option<Rex>, modrm: &[u8], sib: &[u8], disp: &[u8]) -> Option<Loc>
    ensures { result ≡ rm_operand width rex modrm.now sib.now disp.now }
{
    let [byte] = modrm else {
        return None;
    };
    if names_register(*byte) {
        return Some(general_register(width, rex, extended(rex_b(rex), *byte % 8)));
    }
    let disp = displacement(disp)?;
    let mem = address(*byte, rex, sib, disp)?;
    Some(Loc::Mem(mem))
}

/// The register that reg names.
#[tactic(auto, unfolding(x86_grammar::specs::Operands::reg_operand))]
fn reg_operand(width: Width, rex: Option<Rex>, modrm: &[u8]) -> Option<Loc>
    ensures { result ≡ reg_operand width rex modrm.now }
{
    match modrm {
        [byte] => Some(general_register(width, rex, extended(rex_r(rex), *byte / 8 % 8))),
        _ => None,
    }
}

/// The register that the low three bits of an opcode name.
#[tactic(auto, unfolding(x86_grammar::specs::Operands::opcode_operand))]
fn opcode_operand(width: Width, rex: Option<Rex>, byte: u8) -> Loc
    ensures { result ≡ opcode_operand width rex byte }
{
    general_register(width, rex, extended(rex_b(rex), byte % 8))
}

/// An immediate of 1, 2, 4 or 8 bytes.
#[tactic(auto, unfolding(x86_grammar::specs::Operands::immediate))]
fn immediate(bytes: &[u8]) -> Option<Immediate>
    ensures { result ≡ immediate bytes.now }
{
    match bytes {
        [a] => Some(Immediate::Imm8(*a)),
        [a, b] => Some(Immediate::Imm16(u16::from_le_bytes([*a, *b]))),
        [a, b, c, d] => Some(Immediate::Imm32(u32::from_le_bytes([*a, *b, *c, *d]))),
        [a, b, c, d, e, f, g, h] => Some(Immediate::Imm64(u64::from_le_bytes([
            *a, *b, *c, *d, *e, *f, *g, *h,
        ]))),
        _ => None,
    }
}

/// An immediate with its sign.
#[tactic(auto, unfolding(x86_grammar::specs::Operands::signed))]
pub(crate) fn signed(immediate: Immediate) -> i64
    ensures { result ≡ signed immediate }
{
    match immediate {
        Immediate::Imm8(n) => i64::from(n.cast_signed()),
        Immediate::Imm16(n) => i64::from(n.cast_signed()),
        Immediate::Imm32(n) => i64::from(n.cast_signed()),
        Immediate::Imm64(n) => n.cast_signed(),
    }
}

/// An immediate of at most 32 bits with its sign.
#[tactic(auto, unfolding(x86_grammar::specs::Operands::signed32))]
pub(crate) fn signed32(immediate: Immediate) -> Option<i32>
    ensures { result ≡ signed32 immediate }
{
    match immediate {
        Immediate::Imm8(n) => Some(i32::from(n.cast_signed())),
        Immediate::Imm16(n) => Some(i32::from(n.cast_signed())),
        Immediate::Imm32(n) => Some(n.cast_signed()),
        Immediate::Imm64(_) => None,
    }
}

/// An immediate of one byte without a sign.
pub(crate) fn unsigned8(immediate: Immediate) -> Option<u8>
    ensures { result ≡ unsigned8 immediate }
{
    match immediate {
        Immediate::Imm8(n) => Some(n),
        Immediate::Imm16(_) | Immediate::Imm32(_) | Immediate::Imm64(_) => None,
    }
}

/// An immediate of two bytes without a sign.
pub(crate) fn unsigned16(immediate: Immediate) -> Option<u16>
    ensures { result ≡ unsigned16 immediate }
{
    match immediate {
        Immediate::Imm16(n) => Some(n),
        Immediate::Imm8(_) | Immediate::Imm32(_) | Immediate::Imm64(_) => None,
    }
}

fn place(a: Option<Loc>) -> Option<Operands>
    ensures { result ≡ place a }
{
    Some(Operands::Place(a?))
}

fn places(a: Option<Loc>, b: Option<Loc>) -> Option<Operands>
    ensures { result ≡ places a b }
{
    Some(Operands::Places(a?, b?))
}

fn immediate_alone(i: Option<Immediate>) -> Option<Operands>
    ensures { result ≡ immediate_alone i }
{
    Some(Operands::Immediate(i?))
}

fn place_and_immediate(a: Option<Loc>, i: Option<Immediate>) -> Option<Operands>
    ensures { result ≡ place_and_immediate a i }
{
    Some(Operands::PlaceAndImmediate(a?, i?))
}

fn places_and_immediate(a: Option<Loc>, b: Option<Loc>, i: Option<Immediate>) -> Option<Operands>
    ensures { result ≡ places_and_immediate a b i }
{
    Some(Operands::PlacesAndImmediate(a?, b?, i?))
}

/// Of the operands that rm, reg, the opcode and the immediate name, those of a form.
#[tactic(auto, unfolding(x86_grammar::specs::Operands::operands_of))]
fn operands_of(
    form: Form,
    rm: Option<Loc>,
    reg: Option<Loc>,
    opcode: Loc,
    immediate: Option<Immediate>,
) -> Option<Operands>
    ensures { result ≡ operands_of form rm reg opcode immediate }
{
    match form {
        Form::EG => places(rm, reg),
        Form::GE => places(reg, rm),
        Form::EI => place_and_immediate(rm, immediate),
        Form::GEI => places_and_immediate(reg, rm, immediate),
        Form::E => place(rm),
        Form::AI => place_and_immediate(Some(ACCUMULATOR), immediate),
        Form::OI => place_and_immediate(Some(opcode), immediate),
        Form::OA => places(Some(opcode), Some(ACCUMULATOR)),
        Form::O => place(Some(opcode)),
        Form::I => immediate_alone(immediate),
        Form::Z => Some(Operands::None),
    }
}

/// The operands of a row, from the parts of a spelling. `rm_width` is the width of the operand that mod and rm name.
#[tactic(auto, unfolding(x86_grammar::specs::Operands::row_operands))]
pub(crate) fn row_operands(
    row: &Row,
    width: Width,
    rm_width: Width,
    head: &Head,
    modrm: &[u8],
    sib: &[u8],
    disp: &[u8],
    imm: &[u8],
) -> Option<Operands>
    ensures { result ≡ row_operands row.now width rm_width head.now modrm.now sib.now disp.now imm.now }
{
    let rm = rm_operand(rm_width, head.rex, modrm, sib, disp);
    let reg = reg_operand(width, head.rex, modrm);
    let opcode = opcode_operand(width, head.rex, head.byte);
    operands_of(row.form, rm, reg, opcode, immediate(imm))
}
