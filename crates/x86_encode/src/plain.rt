ghost use Rattle.std.specs.Prelude.{◌≡◌, ◌+◌, ◌≤◌, ◌<◌, ◌++◌, ◌||◌, if◌then◌else◌, [], ◌∷◌, length};
ghost use Rattle.arrayvec.specs.ArrayVec.{array_vec_len};
ghost use Rattle.x86_encode.specs.Inside.Plain.{e_place, modrm_of, needs_wide, is_quad, is_word, takes_wide, must_have_rex, is_wide, is_sized, condition_of, rex_for, head_of, plain, number_bytes, one_if, prefix_bytes, weight, rex_bytes, opcode_bytes, head_bytes, written};
ghost use Rattle.x86_encode.specs.Inside.Seen.{seen, one_or_none, disp_bytes, parts_of};

use crate::operands::{bit_of, condition_of, e_loc, g_loc, low_of, number_of, o_loc, wants_rex};
use crate::place::{Size, Written, place_of};
use arrayvec::ArrayVec;
use vm_law::{Insn, Loc, Width};
use x86_decode::meaning::rm_width;
use x86_decode::operands::imm_len;
use x86_decode::rows::takes_size;
use x86_grammar::{Class, Head, Map, Need, Prefixes, Rex, Row, Slash};

/// The bytes of a spelling.
pub(crate) type Text = ArrayVec<u8, 24>;

/// The parts of a spelling.
#[derive(Drop)]
pub(crate) struct Spelling {
    pub head: Head,
    pub modrm: ArrayVec<u8, 1>,
    pub sib: ArrayVec<u8, 1>,
    pub disp: ArrayVec<u8, 4>,
    pub imm: ArrayVec<u8, 8>,
}

#[tactic(auto, unfolding(crate::specs::Inside::Plain::e_place))]
fn e_place(long: bool, l: Loc) -> Written
    ensures { seen result ≡ e_place long l }
{
    match l {
        Loc::Reg(n) => Written {
            mode: 192 + n % 8,
            sib: None,
            disp: 0,
            size: Size::None,
            x: false,
            b: n >= 8,
        },
        Loc::High(n) => Written {
            mode: 196 + n % 4,
            sib: None,
            disp: 0,
            size: Size::None,
            x: false,
            b: false,
        },
        Loc::Mem(m) => place_of(long, m),
    }
}

fn needs_wide(need: Need) -> bool
    ensures { result ≡ needs_wide need }
{
    matches!(need, Need::Wide)
}

fn is_quad(w: Width) -> bool
    ensures { result ≡ is_quad w }
{
    matches!(w, Width::Q)
}

fn is_word(w: Width) -> bool
    ensures { result ≡ is_word w }
{
    matches!(w, Width::W)
}

fn takes_wide(class: Class) -> bool
    ensures { result ≡ takes_wide class }
{
    matches!(class, Class::V | Class::L)
}

/// Whether an operand is a register that stands only with a REX byte.
#[tactic(auto, unfolding(crate::specs::Inside::Plain::must_have_rex))]
fn must_have_rex(ew: Width, w: Width, e: Loc, g: Loc, o: Loc) -> bool
    ensures { result ≡ must_have_rex ew w e g o }
{
    wants_rex(ew, e) || wants_rex(w, g) || wants_rex(w, o)
}

/// Whether REX.W stands.
#[tactic(auto, unfolding(crate::specs::Inside::Plain::is_wide))]
fn is_wide(need: Need, class: Class, w: Width) -> bool
    ensures { result ≡ is_wide need class w }
{
    needs_wide(need) || takes_wide(class) && is_quad(w)
}

/// Whether 66 stands.
#[tactic(auto, unfolding(crate::specs::Inside::Plain::is_sized))]
fn is_sized(class: Class, w: Width) -> bool
    ensures { result ≡ is_sized class w }
{
    takes_size(class) && is_word(w)
}

fn either(a: bool, b: bool) -> bool
    ensures { result ≡ (a || b) }
{
    a || b
}

/// A REX byte with these bits, where there is one among them or it must stand.
fn rex_for(must: bool, w: bool, r: bool, x: bool, b: bool) -> Option<Rex>
    ensures { result ≡ rex_for must w r x b }
{
    if must || w || r || x || b {
        Some(Rex { w, r, x, b })
    } else {
        None
    }
}

/// The prefixes, the REX byte and the opcode.
#[tactic(auto, unfolding(crate::specs::Inside::Plain::head_of))]
fn head_of(row: &Row, insn: &Insn, e: Loc, g: Loc, o: Loc, place: &Written) -> Head
    ensures { result ≡ head_of row.now insn.now.width insn.now.lock (condition_of insn.now.op) e g o (seen place.now) }
{
    let w = insn.width;
    let must = must_have_rex(rm_width(row.kind, w), w, e, g, o);
    let wide = is_wide(row.need, row.class, w);
    let b = either(place.b, bit_of(o));
    let prefixes = Prefixes {
        size: is_sized(row.class, w),
        lock: insn.lock,
        rep: row.rep,
    };
    let offset = condition_of(insn.op).wrapping_add(low_of(o));
    Head {
        prefixes,
        rex: rex_for(must, wide, bit_of(g), place.x, b),
        map: row.map,
        byte: row.byte.wrapping_add(offset),
    }
}

/// The ModRM byte, where there is one.
#[tactic(auto, unfolding(crate::specs::Inside::Plain::modrm_of))]
fn modrm_of(slash: Slash, mode: u8, g: u8) -> ArrayVec<u8, 1>
    requires { g < 8 }
    ensures { result.items ≡ modrm_of slash mode g }
{
    let mut out = ArrayVec::new();
    match slash {
        Slash::None => {}
        Slash::Any => out.push(mode.wrapping_add(g * 8)),
        Slash::Digit(d) => out.push(mode.wrapping_add(d.wrapping_mul(8))),
        Slash::Byte(b) => out.push(b),
    }
    out
}

fn sib_of(sib: Option<u8>) -> ArrayVec<u8, 1>
    ensures { result.items ≡ one_or_none sib }
{
    let mut out = ArrayVec::new();
    if let Some(sib) = sib {
        out.push(sib);
    }
    out
}

fn disp_of(size: Size, disp: i32) -> ArrayVec<u8, 4>
    ensures { result.items ≡ disp_bytes size disp }
{
    let mut out = ArrayVec::new();
    match size {
        Size::None => {}
        Size::Byte => out.push(disp.to_le_bytes()[0]),
        Size::Long => put_slice(&mut out, &disp.to_le_bytes()),
    }
    out
}

/// The low bytes of a number.
#[tactic(auto, unfolding(crate::specs::Inside::Plain::number_bytes))]
fn number_bytes(count: usize, number: i64) -> ArrayVec<u8, 8>
    requires { count ≤ 8 }
    ensures { result.items ≡ number_bytes count number }
{
    let mut out = ArrayVec::new();
    let bytes = number.to_le_bytes();
    put_slice(&mut out, &bytes[..count]);
    out
}

/// The parts of the plain spelling by a row, with a long displacement where it is asked.
#[tactic(auto, using(crate::proofs::Numbers::imm_small), unfolding(crate::specs::Inside::Plain::plain))]
pub(crate) fn plain(long: bool, row: &Row, insn: &Insn) -> Spelling
    ensures { parts_of result ≡ plain long row.now insn.now }
{
    let e = e_loc(row.form, insn.op);
    let g = g_loc(row.form, insn.op);
    let o = o_loc(row.form, insn.op);
    let place = e_place(long, e);
    Spelling {
        head: head_of(row, insn, e, g, o, &place),
        modrm: modrm_of(row.slash, place.mode, low_of(g)),
        sib: sib_of(place.sib),
        disp: disp_of(place.size, place.disp),
        imm: number_bytes(imm_len(row.imm, insn.width), number_of(insn.op)),
    }
}

fn weight(bit: bool, n: u8) -> u8
    ensures value { result ≡ weight bit n }
    ensures small { result ≤ n }
{
    if bit { n } else { 0 }
}

fn put_slice<const N: usize>(out: &mut ArrayVec<u8, N>, bytes: &[u8])
    requires { array_vec_len out.old + length bytes.now ≤ N }
    ensures items { out.new.items ≡ out.old.items ++ bytes.now }
    ensures len { array_vec_len out.new ≡ array_vec_len out.old + length bytes.now }
{
    for b in bytes {
        out.push(*b);
    }
}

fn put_if(out: &mut Text, when: bool, byte: u8)
    requires { array_vec_len out.old < 24 }
    ensures items { out.new.items ≡ out.old.items ++ one_if when byte }
    ensures len { array_vec_len out.new ≤ array_vec_len out.old + 1 }
{
    if when {
        out.push(byte);
    }
}

#[tactic(auto, unfolding(crate::specs::Inside::Plain::prefix_bytes))]
fn put_prefixes(out: &mut Text, size: bool, lock: bool, rep: bool)
    requires { array_vec_len out.old ≤ 20 }
    ensures items { out.new.items ≡ out.old.items ++ prefix_bytes size lock rep }
    ensures len { array_vec_len out.new ≤ array_vec_len out.old + 3 }
{
    put_if(out, size, 0x66);
    put_if(out, lock, 0xF0);
    put_if(out, rep, 0xF3);
}

#[tactic(auto, unfolding(crate::specs::Inside::Plain::rex_bytes))]
fn put_rex(out: &mut Text, rex: Option<Rex>)
    requires { array_vec_len out.old ≤ 20 }
    ensures items { out.new.items ≡ out.old.items ++ rex_bytes rex }
    ensures len { array_vec_len out.new ≤ array_vec_len out.old + 1 }
{
    if let Some(rex) = rex {
        let low = weight(rex.x, 2) + weight(rex.b, 1);
        out.push(64 + weight(rex.w, 8) + weight(rex.r, 4) + low);
    }
}

#[tactic(auto, unfolding(crate::specs::Inside::Plain::opcode_bytes))]
fn put_opcode(out: &mut Text, map: Map, byte: u8)
    requires { array_vec_len out.old ≤ 20 }
    ensures items { out.new.items ≡ out.old.items ++ opcode_bytes map byte }
    ensures len { array_vec_len out.new ≤ array_vec_len out.old + 2 }
{
    match map {
        Map::One => out.push(byte),
        Map::Two => {
            out.push(0x0F);
            out.push(byte);
        }
    }
}

#[tactic(auto, unfolding(crate::specs::Inside::Plain::head_bytes))]
fn put_head(out: &mut Text, head: &Head)
    requires { array_vec_len out.old ≡ 0 }
    ensures items { out.new.items ≡ out.old.items ++ head_bytes head.now }
    ensures len { array_vec_len out.new ≤ 6 }
{
    put_prefixes(
        out,
        head.prefixes.size,
        head.prefixes.lock,
        head.prefixes.rep,
    );
    put_rex(out, head.rex);
    put_opcode(out, head.map, head.byte);
}

/// The bytes of a spelling with these parts.
#[tactic(auto, unfolding(crate::specs::Inside::Plain::written))]
pub(crate) fn write(spelling: &Spelling) -> Text
    ensures { result.items ≡ written (parts_of spelling.now) }
{
    let mut out = Text::new();
    put_head(&mut out, &spelling.head);
    put_slice(&mut out, spelling.modrm.as_slice());
    put_slice(&mut out, spelling.sib.as_slice());
    put_slice(&mut out, spelling.disp.as_slice());
    put_slice(&mut out, spelling.imm.as_slice());
    out
}
