ghost use Rattle.std.specs.Prelude.{◌≡◌, ◌↔◌, if◌then◌else◌, IsTrue, true, MatchOption, IfSome, length, ◌≤◌};
ghost use Rattle.std.specs.Option.{option_map};
ghost use Rattle.x86_grammar.specs.Meaning.{meaning};
ghost use Rattle.x86_encode.specs.Canonical.{HasLabelled, IsCanonicalWith};
ghost use Rattle.x86_encode.specs.Order.{lex_le, before};
ghost use Rattle.x86_encode.specs.Inside.Plain.{Parts, written};
ghost use Rattle.x86_encode.specs.Inside.Seen.{parts_of};
ghost use Rattle.x86_encode.specs.Inside.Selecting.{Fitting, HoldsLabels, Fits, IsLeast, NoneFits, plain_by, better_of};

use crate::labels::Labels;
use crate::plain::{Spelling, Text, plain, write};
use crate::same::same_insn;
use vm_law::Insn;
use x86_decode::meaning::meaning;
use x86_decode::operands::{disp_len, imm_len, sib_len, width_of};
use x86_decode::rows::fits;
use x86_grammar::{Head, ROWS, Row};

fn lex_le(a: &[u8], b: &[u8]) -> bool
    ensures { result ≡ lex_le a.now b.now }
{
    let [x, a @ ..] = a else {
        return true;
    };
    let [y, b @ ..] = b else {
        return false;
    };
    *x < *y || *x == *y && lex_le(a, b)
}

fn before(a: &[u8], b: &[u8]) -> bool
    ensures { result ≡ before a.now b.now }
{
    a.len() < b.len() || a.len() == b.len() && lex_le(a, b)
}

/// Whether the parts mean the instruction by the row.
fn means(
    row: &Row,
    head: &Head,
    modrm: &[u8],
    sib: &[u8],
    disp: &[u8],
    imm: &[u8],
    insn: &Insn,
) -> bool
    ensures { IsTrue result ↔ (meaning row.now head.now modrm.now sib.now disp.now imm.now ≡ Some insn.now) }
{
    match meaning(row, head, modrm, sib, disp, imm) {
        None => false,
        Some(meant) => same_insn(&meant, insn),
    }
}

/// Whether the parts are those of a spelling of the instruction by the row.
fn parts_fit(
    row: &Row,
    head: &Head,
    modrm: &[u8],
    sib: &[u8],
    disp: &[u8],
    imm: &[u8],
    insn: &Insn,
) -> bool
    ensures { IsTrue result ↔ Fitting row.now (record { head = head.now; modrm = modrm.now; sib = sib.now; disp = disp.now; imm = imm.now }) insn.now }
{
    fits(row, head, modrm)
        && sib.len() == sib_len(modrm)
        && disp.len() == disp_len(modrm, sib)
        && imm.len() == imm_len(row.imm, width_of(row.class, head.prefixes, head.rex))
        && means(row, head, modrm, sib, disp, imm, insn)
}

fn is_fitting(row: &Row, s: &Spelling, insn: &Insn) -> bool
    ensures { IsTrue result ↔ Fitting row.now (parts_of s.now) insn.now }
{
    let (modrm, sib) = (s.modrm.as_slice(), s.sib.as_slice());
    parts_fit(
        row,
        &s.head,
        modrm,
        sib,
        s.disp.as_slice(),
        s.imm.as_slice(),
        insn,
    )
}

/// Whether each field that holds a label has 32 bits.
fn holds_labels(labels: Labels, s: &Spelling) -> bool
    ensures { IsTrue result ↔ HoldsLabels labels (parts_of s.now) }
{
    (!labels.displacement || s.disp.len() == 4) && (!labels.immediate || s.imm.len() == 4)
}

/// The plain spelling by a row, where the row can spell the instruction.
fn by_row(labels: Labels, row: &Row, insn: &Insn) -> Option<Text>
    ensures { MatchOption result (Fits labels insn.now row.now → ⊥)
        (λ t. (t.items ≡ written (plain_by labels row.now insn.now)) × Fits labels insn.now row.now) }
{
    let spelling = plain(labels.displacement, row, insn);
    if is_fitting(row, &spelling, insn) && holds_labels(labels, &spelling) {
        Some(write(&spelling))
    } else {
        None
    }
}

/// The one of two that is before the other.
fn lesser(a: Text, b: Text) -> Text
    ensures { result.items ≡ (if before a.items b.items then a.items else b.items) }
{
    if before(a.as_slice(), b.as_slice()) {
        a
    } else {
        b
    }
}

fn better(best: Option<Text>, next: Option<Text>) -> Option<Text>
    ensures { option_map (λ t. t.items) result ≡ better_of (option_map (λ t. t.items) best) (option_map (λ t. t.items) next) }
{
    match (best, next) {
        (Some(a), Some(b)) => Some(lesser(a, b)),
        (Some(a), None) => Some(a),
        (None, next) => next,
    }
}

/// The least of the plain spellings over these rows.
fn least_of(labels: Labels, rows: &[Row], insn: &Insn) -> Option<Text>
    ensures { MatchOption result (NoneFits labels insn.now rows.now) (λ t. IsLeast labels insn.now rows.now t.items) }
{
    let mut best: Option<Text> = None;
    for row in rows {
        best = better(best, by_row(labels, row, insn));
    }
    best
}

/// The least of the plain spellings over the table, which is the canonical spelling, where there is one.
pub(crate) fn least(labels: Labels, insn: &Insn) -> Option<Text>
    ensures canonical { MatchOption result (HasLabelled labels insn.now → ⊥) (λ t. IsCanonicalWith labels insn.now t.items) }
    ensures brief { IfSome result (λ t. length t.items ≤ 15) }
{
    least_of(labels, &ROWS, insn)
}
