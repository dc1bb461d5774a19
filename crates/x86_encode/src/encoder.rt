ghost use Rattle.std.specs.Prelude.{◌≡◌, ◌↔◌, ◌≤◌, ◌++◌, ℕ, IsTrue, List, length, take, drop, Ok};
ghost use Rattle.vm_law.specs.declared.insn.Insn.{Insn};
ghost use Rattle.x86_decode.specs.Reading.{decoded};
ghost use Rattle.x86_encode.specs.Canonical.{HasSpelling, IsCanonical, HasLabelled, IsCanonicalWith};

use crate::labels::Labels;
use crate::least::least;
use vm_law::Insn;

const NO_LABELS: Labels = Labels {
    displacement: false,
    immediate: false,
};

/// Whether an instruction has a spelling with 32 bits in each field that holds a label.
pub fn labelled(insn: &Insn, labels: Labels) -> bool
    ensures { IsTrue result ↔ HasLabelled labels insn.now }
{
    least(labels, insn).is_some()
}

/// Whether an instruction has a spelling.
pub fn spelled(insn: &Insn) -> bool
    ensures { IsTrue result ↔ HasSpelling insn.now }
{
    labelled(insn, NO_LABELS)
}

fn copy_front(into: &mut [u8; 15], bytes: &[u8])
    requires { length bytes.now ≤ 15 }
    ensures front { take (length bytes.now) into.new ≡ bytes.now }
    ensures rest { drop (length bytes.now) into.new ≡ drop (length bytes.now) into.old }
{
    into[..bytes.len()].copy_from_slice(bytes);
}

/// Writes the canonical spelling of an instruction with labels, and answers its length, 1 to 15.
///
/// It is the least, by length and then byte by byte, of the spellings with 32 bits in each field that
/// holds a label. The bytes behind it stay as they were.
pub fn encode_labelled(insn: &Insn, labels: Labels, into: &mut [u8; 15]) -> u8
    // There is one: `labelled` tells.
    requires { HasLabelled labels insn.now }
    ensures canonical { IsCanonicalWith labels insn.now (take result into.new) }
    ensures brief { result ≤ 15 }
    ensures rest { drop result into.new ≡ drop result into.old }
{
    let Some(text) = least(labels, insn) else {
        return 0;
    };
    copy_front(into, text.as_slice());
    text.len() as u8
}

/// Writes the canonical spelling of an instruction, and answers its length, 1 to 15.
///
/// It is the least of its spellings, by length and then byte by byte. The bytes behind it stay as they were.
pub fn encode(insn: &Insn, into: &mut [u8; 15]) -> u8
    // There is one: `spelled` tells.
    requires { HasSpelling insn.now }
    ensures canonical { IsCanonical insn.now (take result into.new) }
    ensures brief { result ≤ 15 }
    ensures rest { drop result into.new ≡ drop result into.old }
{
    encode_labelled(insn, NO_LABELS, into)
}

/// The law of reading back: the canonical spelling of an instruction, with any bytes behind it, decodes as
/// the instruction and the spelling's length.
pub fn encoded_decodes()
    ensures { (insn : Insn) (b more : List ℕ) → IsCanonical insn b → decoded (b ++ more) ≡ Ok (insn, length b) }
{}
