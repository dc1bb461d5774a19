//! Registers by their names.
ghost use Rattle.std.specs.Prelude.{◌≡◌, ◌<◌};
ghost use Rattle.asm_words.specs.Register.{byte_number, word_number, dword_number, qword_number, high_number, width_number, at_width, register_of, byte_name, word_name, dword_name, qword_name, high_name, width_name};

use vm_law::{Loc, Width};

/// The number of a register of 8 bits, but for AH, CH, DH and BH.
fn byte_number(name: &str) -> Option<u8>
    ensures { result ≡ byte_number name.now }
{
    match name {
        "al" => Some(0),
        "cl" => Some(1),
        "dl" => Some(2),
        "bl" => Some(3),
        "spl" => Some(4),
        "bpl" => Some(5),
        "sil" => Some(6),
        "dil" => Some(7),
        "r8b" => Some(8),
        "r9b" => Some(9),
        "r10b" => Some(10),
        "r11b" => Some(11),
        "r12b" => Some(12),
        "r13b" => Some(13),
        "r14b" => Some(14),
        "r15b" => Some(15),
        _ => None,
    }
}

/// The number of a register of 16 bits.
fn word_number(name: &str) -> Option<u8>
    ensures { result ≡ word_number name.now }
{
    match name {
        "ax" => Some(0),
        "cx" => Some(1),
        "dx" => Some(2),
        "bx" => Some(3),
        "sp" => Some(4),
        "bp" => Some(5),
        "si" => Some(6),
        "di" => Some(7),
        "r8w" => Some(8),
        "r9w" => Some(9),
        "r10w" => Some(10),
        "r11w" => Some(11),
        "r12w" => Some(12),
        "r13w" => Some(13),
        "r14w" => Some(14),
        "r15w" => Some(15),
        _ => None,
    }
}

/// The number of a register of 32 bits.
fn dword_number(name: &str) -> Option<u8>
    ensures { result ≡ dword_number name.now }
{
    match name {
        "eax" => Some(0),
        "ecx" => Some(1),
        "edx" => Some(2),
        "ebx" => Some(3),
        "esp" => Some(4),
        "ebp" => Some(5),
        "esi" => Some(6),
        "edi" => Some(7),
        "r8d" => Some(8),
        "r9d" => Some(9),
        "r10d" => Some(10),
        "r11d" => Some(11),
        "r12d" => Some(12),
        "r13d" => Some(13),
        "r14d" => Some(14),
        "r15d" => Some(15),
        _ => None,
    }
}

/// The number of a register of 64 bits.
fn qword_number(name: &str) -> Option<u8>
    ensures { result ≡ qword_number name.now }
{
    match name {
        "rax" => Some(0),
        "rcx" => Some(1),
        "rdx" => Some(2),
        "rbx" => Some(3),
        "rsp" => Some(4),
        "rbp" => Some(5),
        "rsi" => Some(6),
        "rdi" => Some(7),
        "r8" => Some(8),
        "r9" => Some(9),
        "r10" => Some(10),
        "r11" => Some(11),
        "r12" => Some(12),
        "r13" => Some(13),
        "r14" => Some(14),
        "r15" => Some(15),
        _ => None,
    }
}

/// The number of AH, CH, DH or BH, from 0 on.
fn high_number(name: &str) -> Option<u8>
    ensures { result ≡ high_number name.now }
{
    match name {
        "ah" => Some(0),
        "ch" => Some(1),
        "dh" => Some(2),
        "bh" => Some(3),
        _ => None,
    }
}

/// The number of a register of a width by its name.
fn width_number(width: Width, name: &str) -> Option<u8>
    ensures { result ≡ width_number width name.now }
{
    match width {
        Width::B => byte_number(name),
        Width::W => word_number(name),
        Width::D => dword_number(name),
        Width::Q => qword_number(name),
    }
}

/// The register of a width, if it has that name.
fn at_width(width: Width, name: &str) -> Option<(Width, Loc)>
    ensures { result ≡ at_width width name.now }
{
    let number = width_number(width, name)?;
    Some((width, Loc::Reg(number)))
}

/// The register of a name, with its width.
pub fn register_of(name: &str) -> Option<(Width, Loc)>
    ensures { result ≡ register_of name.now }
{
    if let Some(number) = high_number(name) {
        return Some((Width::B, Loc::High(number)));
    }
    at_width(Width::B, name)
        .or(at_width(Width::W, name))
        .or(at_width(Width::D, name))
        .or(at_width(Width::Q, name))
}

/// The number of a register of 64 bits.
pub fn pointer_of(name: &str) -> Option<u8>
    ensures { result ≡ qword_number name.now }
{
    qword_number(name)
}

/// The name of a register of 8 bits, but for AH, CH, DH and BH.
fn byte_name(number: u8) -> &'static str
    ensures { result.now ≡ byte_name number }
{
    match number {
        0 => "al",
        1 => "cl",
        2 => "dl",
        3 => "bl",
        4 => "spl",
        5 => "bpl",
        6 => "sil",
        7 => "dil",
        8 => "r8b",
        9 => "r9b",
        10 => "r10b",
        11 => "r11b",
        12 => "r12b",
        13 => "r13b",
        14 => "r14b",
        _ => "r15b",
    }
}

/// The name of a register of 16 bits.
fn word_name(number: u8) -> &'static str
    ensures { result.now ≡ word_name number }
{
    match number {
        0 => "ax",
        1 => "cx",
        2 => "dx",
        3 => "bx",
        4 => "sp",
        5 => "bp",
        6 => "si",
        7 => "di",
        8 => "r8w",
        9 => "r9w",
        10 => "r10w",
        11 => "r11w",
        12 => "r12w",
        13 => "r13w",
        14 => "r14w",
        _ => "r15w",
    }
}

/// The name of a register of 32 bits.
fn dword_name(number: u8) -> &'static str
    ensures { result.now ≡ dword_name number }
{
    match number {
        0 => "eax",
        1 => "ecx",
        2 => "edx",
        3 => "ebx",
        4 => "esp",
        5 => "ebp",
        6 => "esi",
        7 => "edi",
        8 => "r8d",
        9 => "r9d",
        10 => "r10d",
        11 => "r11d",
        12 => "r12d",
        13 => "r13d",
        14 => "r14d",
        _ => "r15d",
    }
}

/// The name of a register of 64 bits.
fn qword_name(number: u8) -> &'static str
    ensures { result.now ≡ qword_name number }
{
    match number {
        0 => "rax",
        1 => "rcx",
        2 => "rdx",
        3 => "rbx",
        4 => "rsp",
        5 => "rbp",
        6 => "rsi",
        7 => "rdi",
        8 => "r8",
        9 => "r9",
        10 => "r10",
        11 => "r11",
        12 => "r12",
        13 => "r13",
        14 => "r14",
        _ => "r15",
    }
}

/// The name of AH, CH, DH or BH, from 0 on.
pub fn high_name(number: u8) -> &'static str
    ensures { result.now ≡ high_name number }
{
    match number {
        0 => "ah",
        1 => "ch",
        2 => "dh",
        _ => "bh",
    }
}

/// The name of a register of a width.
pub fn width_name(width: Width, number: u8) -> &'static str
    ensures { result.now ≡ width_name width number }
{
    match width {
        Width::B => byte_name(number),
        Width::W => word_name(number),
        Width::D => dword_name(number),
        Width::Q => qword_name(number),
    }
}
