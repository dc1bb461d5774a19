ghost use Rattle.std.specs.Prelude.{◌≡◌, find};
ghost use Rattle.std.specs.List.{list_any};
ghost use Rattle.x86_grammar.specs.Rows.{add_prefix, rex_of, takes, takes_size, meets, same_map, any_row, fits, fits_slash, fits_side, has_modrm, row_for};

use crate::fields::{names_register, rex_b, rex_w};
use crate::index::rows_at;
use x86_grammar::{Class, Head, Map, Need, Prefixes, Rex, Row, Side, Slash};

/// The prefixes with one more, where the byte is one that isn't among them.
#[tactic(auto, unfolding(x86_grammar::specs::Rows::add_prefix))]
pub(crate) fn add_prefix(byte: u8, prefixes: Prefixes) -> Option<Prefixes>
    ensures { result ≡ add_prefix byte prefixes }
{
    if byte == 0x66 {
        return if prefixes.size {
            None
        } else {
            Some(Prefixes {
                size: true,
                ..prefixes
            })
        };
    }
    if byte == 0xF0 {
        return if prefixes.lock {
            None
        } else {
            Some(Prefixes {
                lock: true,
                ..prefixes
            })
        };
    }
    if byte == 0xF3 {
        return if prefixes.rep {
            None
        } else {
            Some(Prefixes {
                rep: true,
                ..prefixes
            })
        };
    }
    None
}

/// The bits of a REX byte.
#[tactic(auto, unfolding(x86_grammar::specs::Rows::rex_of))]
pub(crate) fn rex_of(byte: u8) -> Rex
    ensures { result ≡ rex_of byte }
{
    Rex {
        w: byte / 8 % 2 == 1,
        r: byte / 4 % 2 == 1,
        x: byte / 2 % 2 == 1,
        b: byte % 2 == 1,
    }
}

/// Whether both are the same map.
fn same_map(a: Map, b: Map) -> bool
    ensures { result ≡ same_map a b }
{
    match (a, b) {
        (Map::One, Map::One) => true,
        (Map::Two, Map::Two) => true,
        _ => false,
    }
}

/// Whether 66 may stand.
pub fn takes_size(class: Class) -> bool
    ensures { result ≡ takes_size class }
{
    match class {
        Class::V | Class::W | Class::N => true,
        Class::B | Class::Q | Class::L => false,
    }
}

/// Whether a row has what else it needs.
fn meets(need: Need, rex: Option<Rex>, offset: u8) -> bool
    ensures { result ≡ meets need rex offset }
{
    match need {
        Need::None => true,
        Need::Wide => rex_w(rex),
        Need::NoB => !rex_b(rex),
        Need::NotAcc => rex_b(rex) || offset > 0,
    }
}

/// Whether a row has the opcode, and the prefixes and the REX byte may stand before it.
#[tactic(auto, unfolding(x86_grammar::specs::Rows::takes))]
fn takes(row: &Row, head: &Head) -> bool
    ensures { result ≡ takes row.now head.now }
{
    if !same_map(row.map, head.map) || head.byte < row.byte || head.byte - row.byte >= row.span {
        return false;
    }
    if head.prefixes.size && !takes_size(row.class) {
        return false;
    }
    if head.prefixes.lock && !row.lock {
        return false;
    }
    if head.prefixes.rep != row.rep {
        return false;
    }
    meets(row.need, head.rex, head.byte - row.byte)
}

/// Whether a ModRM byte stands behind the opcode.
fn has_modrm(slash: Slash) -> bool
    ensures { result ≡ has_modrm slash }
{
    match slash {
        Slash::None => false,
        Slash::Any | Slash::Digit(_) | Slash::Byte(_) => true,
    }
}

/// Whether a row may have the ModRM byte for what its reg field says.
fn fits_slash(slash: Slash, modrm: u8) -> bool
    ensures { result ≡ fits_slash slash modrm }
{
    match slash {
        Slash::None => false,
        Slash::Any => true,
        Slash::Digit(d) => modrm / 8 % 8 == d,
        Slash::Byte(b) => modrm == b,
    }
}

/// Whether a row may have the ModRM byte for where its operand is.
fn fits_side(side: Side, modrm: u8) -> bool
    ensures { result ≡ fits_side side modrm }
{
    match side {
        Side::Any => true,
        Side::Mem => !names_register(modrm),
        Side::Reg => names_register(modrm),
    }
}

/// Whether a row has the opcode, with no ModRM byte or with this one.
#[tactic(auto, unfolding(x86_grammar::specs::Rows::fits))]
pub fn fits(row: &Row, head: &Head, modrm: &[u8]) -> bool
    ensures { result ≡ fits row.now head.now modrm.now }
{
    match modrm {
        [] => !has_modrm(row.slash) && takes(row, head),
        [byte] => {
            fits_slash(row.slash, *byte)
                && fits_side(row.side, *byte)
                && takes(row, head)
                && (!head.prefixes.lock || !names_register(*byte))
        }
        _ => false,
    }
}

/// Whether one of the rows has the opcode.
fn any_of(rows: &[Row], head: &Head) -> bool
    ensures { result ≡ list_any (λ r. takes r head.now) rows.now }
{
    rows.iter().any(|row| takes(row, head))
}

/// The first of the rows that has the opcode and the ModRM byte.
fn first_of(rows: &[Row], head: &Head, modrm: &[u8]) -> Option<Row>
    ensures { result ≡ find (λ r. fits r head.now modrm.now) rows.now }
{
    rows.iter().copied().find(|row| fits(row, head, modrm))
}

/// Whether some row of the table has the opcode.
pub(crate) fn any_row(head: &Head) -> bool
    ensures { result ≡ any_row head.now }
{
    any_of(rows_at(head), head)
}

/// The row of the table that has the opcode and the ModRM byte, none or one.
pub(crate) fn row_for(head: &Head, modrm: &[u8]) -> Option<Row>
    ensures { result ≡ row_for head.now modrm.now }
{
    first_of(rows_at(head), head, modrm)
}
