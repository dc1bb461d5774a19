//! The bytes of an instruction.
ghost use Rattle.vm_asm.specs.Assembly.{Adds};
ghost use Rattle.asm_insn.specs.Spelling.{Speller, IsSpeller};

use crate::fault::{AsmKind, Refusal};
use vm_law::Insn;
use x86_encode::{Labels, encode_labelled, labelled};

/// Adds the canonical spelling of an instruction with labels; `Range` where it has none.
pub fn put_spelling(out: &mut Vec<u8>, labels: Labels, insn: &Insn) -> Result<(), Refusal>
    ensures { (spell : Speller) → IsSpeller spell → Adds out.old.items out.new.items result (spell labels insn.now) }
{
    if !labelled(insn, labels) {
        return Err(Refusal::Kind(AsmKind::Range));
    }
    let mut bytes = [0u8; 15];
    let count = encode_labelled(insn, labels, &mut bytes);
    out.extend_from_slice(&bytes[..usize::from(count)])?;
    Ok(())
}
