ghost use Rattle.std.specs.Prelude.{◌≡◌};
ghost use Rattle.x86_grammar.specs.Rows.{no_prefix};
ghost use Rattle.x86_decode.specs.Reading.{Gives, chunk, scan, rex_at, opcode_at, head_at, known, row_at, tail_at, insn_at};

use crate::fault::DecodeFault;
use crate::meaning::meaning;
use crate::operands::{disp_len, imm_len, sib_len, width_of};
use crate::rows::{add_prefix, any_row, rex_of, row_for};
use vm_law::Insn;
use x86_grammar::{Head, Map, Prefixes, Rex, Row};

/// The prefixes at the front, each at most once, and the bytes behind them.
fn scan(bytes: &[u8]) -> (Prefixes, &[u8])
    ensures { scan no_prefix bytes.now ≡ (result.0, result.1.now) }
{
    let mut prefixes = Prefixes {
        size: false,
        lock: false,
        rep: false,
    };
    let mut rest = bytes;
    while let [first, tail @ ..] = rest {
        let Some(more) = add_prefix(*first, prefixes) else {
            return (prefixes, rest);
        };
        prefixes = more;
        rest = tail;
    }
    (prefixes, rest)
}

/// The REX byte at the front, if there is one, and the bytes behind it.
fn rex_at(bytes: &[u8]) -> (Option<Rex>, &[u8])
    ensures { rex_at bytes.now ≡ (result.0, result.1.now) }
{
    match bytes {
        [first, tail @ ..] if 64 <= *first && *first < 80 => (Some(rex_of(*first)), tail),
        _ => (None, bytes),
    }
}

/// The opcode, where some row has it.
fn known(head: Head, bytes: &[u8]) -> Result<(Head, &[u8]), DecodeFault>
    ensures { Gives (λ x. (x.0, x.1.now)) result (known head bytes.now) }
{
    if any_row(&head) {
        Ok((head, bytes))
    } else {
        Err(DecodeFault::Unknown)
    }
}

/// The opcode at the front, and the bytes behind it.
#[tactic(auto, unfolding(crate::specs::Reading::opcode_at))]
fn opcode_at(
    prefixes: Prefixes,
    rex: Option<Rex>,
    bytes: &[u8],
) -> Result<(Head, &[u8]), DecodeFault>
    ensures { Gives (λ x. (x.0, x.1.now)) result (opcode_at prefixes rex bytes.now) }
{
    match bytes {
        [] | [0x0F] => Err(DecodeFault::Short),
        [0x0F, byte, rest @ ..] => {
            let head = Head {
                prefixes,
                rex,
                map: Map::Two,
                byte: *byte,
            };
            known(head, rest)
        }
        [byte, rest @ ..] => {
            let head = Head {
                prefixes,
                rex,
                map: Map::One,
                byte: *byte,
            };
            known(head, rest)
        }
    }
}

/// Prefixes, REX byte and opcode, and the bytes behind them.
#[tactic(auto, unfolding(crate::specs::Reading::head_at))]
fn head_at(bytes: &[u8]) -> Result<(Head, &[u8]), DecodeFault>
    ensures { Gives (λ x. (x.0, x.1.now)) result (head_at bytes.now) }
{
    let (prefixes, rest) = scan(bytes);
    if prefixes.rep && (prefixes.size || prefixes.lock) {
        return Err(DecodeFault::Unknown);
    }
    let (rex, rest) = rex_at(rest);
    opcode_at(prefixes, rex, rest)
}

/// So many bytes, and those behind them.
fn chunk(bytes: &[u8], count: usize) -> Result<(&[u8], &[u8]), DecodeFault>
    ensures { Gives (λ x. (x.0.now, x.1.now)) result (chunk count bytes.now) }
{
    if bytes.len() < count {
        return Err(DecodeFault::Short);
    }
    Ok((&bytes[..count], &bytes[count..]))
}

/// The row of an opcode, with its ModRM byte where it has one, and the bytes behind it.
#[tactic(auto, unfolding(crate::specs::Reading::row_at))]
fn row_at<'a>(head: &Head, bytes: &'a [u8]) -> Result<((Row, &'a [u8]), &'a [u8]), DecodeFault>
    ensures { Gives (λ x. ((x.0.0, x.0.1.now), x.1.now)) result (row_at head.now bytes.now) }
{
    if let Some(row) = row_for(head, &bytes[..0]) {
        return Ok(((row, &bytes[..0]), bytes));
    }
    if bytes.is_empty() {
        return Err(DecodeFault::Short);
    }
    match row_for(head, &bytes[..1]) {
        None => Err(DecodeFault::Unknown),
        Some(row) => Ok(((row, &bytes[..1]), &bytes[1..])),
    }
}

/// The instruction, from the bytes behind its ModRM byte, and those behind it.
#[tactic(auto, unfolding(crate::specs::Reading::tail_at))]
fn tail_at<'a>(
    head: &Head,
    row: &Row,
    modrm: &[u8],
    bytes: &'a [u8],
) -> Result<(Insn, &'a [u8]), DecodeFault>
    ensures { Gives (λ x. (x.0, x.1.now)) result (tail_at head.now row.now modrm.now bytes.now) }
{
    let (sib, rest) = chunk(bytes, sib_len(modrm))?;
    let (disp, rest) = chunk(rest, disp_len(modrm, sib))?;
    let width = width_of(row.class, head.prefixes, head.rex);
    let (imm, rest) = chunk(rest, imm_len(row.imm, width))?;
    match meaning(row, head, modrm, sib, disp, imm) {
        None => Err(DecodeFault::Unknown),
        Some(insn) => Ok((insn, rest)),
    }
}

/// An instruction, and the bytes behind it.
#[tactic(auto, unfolding(crate::specs::Reading::insn_at))]
pub(crate) fn insn_at(bytes: &[u8]) -> Result<(Insn, &[u8]), DecodeFault>
    ensures { Gives (λ x. (x.0, x.1.now)) result (insn_at bytes.now) }
{
    let (head, rest) = head_at(bytes)?;
    let ((row, modrm), rest) = row_at(&head, rest)?;
    tail_at(&head, &row, modrm, rest)
}
