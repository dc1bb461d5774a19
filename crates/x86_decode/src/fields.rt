ghost use Rattle.std.specs.Prelude.{◌≡◌, ◌<◌, ◌≤◌, ◌+◌};
ghost use Rattle.x86_grammar.specs.Fields.{modrm_mod, names_register, rex_w, rex_r, rex_x, rex_b, eight_if, extended};

use x86_grammar::Rex;

/// ModR/M's mod field.
pub(crate) fn modrm_mod(modrm: u8) -> u8
    ensures { result ≡ modrm_mod modrm }
{
    modrm / 64
}

/// Whether ModR/M's operand is a register.
pub(crate) fn names_register(modrm: u8) -> bool
    ensures { result ≡ names_register modrm }
{
    modrm_mod(modrm) == 3
}

/// REX.W, which is 0 without REX.
pub(crate) fn rex_w(rex: Option<Rex>) -> bool
    ensures { result ≡ rex_w rex }
{
    match rex {
        None => false,
        Some(r) => r.w,
    }
}

/// REX.R, which is 0 without REX.
pub(crate) fn rex_r(rex: Option<Rex>) -> bool
    ensures { result ≡ rex_r rex }
{
    match rex {
        None => false,
        Some(r) => r.r,
    }
}

/// REX.X, which is 0 without REX.
pub(crate) fn rex_x(rex: Option<Rex>) -> bool
    ensures { result ≡ rex_x rex }
{
    match rex {
        None => false,
        Some(r) => r.x,
    }
}

/// REX.B, which is 0 without REX.
pub(crate) fn rex_b(rex: Option<Rex>) -> bool
    ensures { result ≡ rex_b rex }
{
    match rex {
        None => false,
        Some(r) => r.b,
    }
}

fn eight_if(bit: bool) -> u8
    ensures value { result ≡ eight_if bit }
    ensures small { result ≤ 8 }
{
    if bit { 8 } else { 0 }
}

/// A register's number: a bit of REX above the three bits of a field.
pub(crate) fn extended(bit: bool, field: u8) -> u8
    requires { field < 8 }
    ensures { result ≡ extended bit field }
{
    field + eight_if(bit)
}
