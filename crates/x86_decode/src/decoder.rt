ghost use Rattle.std.specs.Prelude.{◌≡◌, ℕ, ◌≤◌, ◌+◌, ◌↔◌, List, ◌++◌, [], length, take, IfOk};
ghost use Rattle.x86_decode.specs.Reading.{sized, insn_at, decoded};
ghost use Rattle.x86_decode.specs.Law.{FoundLaw, ShortLaw, UnknownLaw};
ghost use Rattle.x86_grammar.specs.Grammar.{Spelled, IsPartial, IsUnknown};
ghost use Rattle.vm_law.specs.declared.insn.Insn.{Insn};

use crate::fault::DecodeFault;
use crate::reading::insn_at;
use vm_law::Insn;

fn decode_at(bytes: &[u8]) -> Result<(Insn, u8), DecodeFault>
    ensures { result ≡ sized bytes.now (insn_at bytes.now) }
{
    let (insn, rest) = insn_at(bytes)?;
    Ok((insn, (bytes.len() - rest.len()) as u8))
}

/// The instruction that the bytes begin with, and how many of them spell it, 1 to 15.
///
/// `Short` comes exactly where more bytes would make a spelling of the bytes, and `Unknown` exactly where
/// neither a front of the bytes nor the bytes with more behind them are a spelling.
/// Source: Intel SDM volume 2, sections 2.1 to 2.2 and appendix A.
pub fn decode(bytes: &[u8]) -> Result<(Insn, u8), DecodeFault>
    // What is answered is spelled so.
    ensures found { IfOk result (λ x. (x.1 ≤ length bytes.now) × Spelled (take x.1 bytes.now) x.0) }
    // What is spelled so is answered.
    ensures only { (insn : Insn) (n : ℕ) → n ≤ length bytes.now → Spelled (take n bytes.now) insn → result ≡ Ok (insn, n) }
    // More bytes would make a spelling.
    ensures short { (result ≡ Err DecodeFault.Short) ↔ IsPartial bytes.now }
    // Nothing would.
    ensures unknown { (result ≡ Err DecodeFault.Unknown) ↔ IsUnknown bytes.now }
    // The answer as a value, of which `decoding_is_the_grammar` says the meaning.
    ensures computed { result ≡ decoded bytes.now }
{
    decode_at(bytes)
}

/// The law of decoding: of any list of bytes the value that `decode` answers is an instruction exactly where
/// a front of the bytes spells it, `Short` exactly where more bytes would make a spelling, and `Unknown`
/// exactly where nothing would. So a machine may be defined by that value.
pub fn decoding_is_the_grammar()
    ensures found { FoundLaw }
    ensures short { ShortLaw }
    ensures unknown { UnknownLaw }
{}

/// The law of the grammar: a spelling is of one instruction and no beginning of another spelling, and it has
/// at most 15 bytes.
pub fn one_spelling()
    ensures one { (bs more : List ℕ) (a b : Insn) → Spelled bs a → Spelled (bs ++ more) b → (more ≡ []) × (a ≡ b) }
    ensures brief { (bs : List ℕ) (a : Insn) → Spelled bs a → length bs ≤ 15 }
{}
