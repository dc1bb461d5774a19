//! The bytes of an instruction.
ghost use Rattle.std.specs.Prelude.{◌≡◌, length, option_map};
ghost use Rattle.asm_insn.specs.Spelling.{Speller, IsSpeller};

use vm_law::Insn;
use x86_encode::{Labels, encode_labelled, labelled};

/// How many bytes the canonical spelling of an instruction with labels has, where it has one.
pub fn spelled_len(labels: Labels, insn: &Insn) -> Option<u8>
    ensures { (spell : Speller) → IsSpeller spell → result ≡ option_map length (spell labels insn.now) }
{
    if !labelled(insn, labels) {
        return None;
    }
    let mut bytes = [0u8; 15];
    Some(encode_labelled(insn, labels, &mut bytes))
}
