//! A mnemonic with its operands: the instruction that they name, and how it is spelled.
ghost use Rattle.std.specs.Prelude.{◌≡◌, length};
ghost use Rattle.asm_insn.specs.Spelling.{Speller, IsSpeller};

use crate::fitting::{all_fit, labels_of};
use crate::naming::{field_of, named_of};
use crate::resolving::{arguments_with, is_jump, sampled};
use crate::spelling::spelled_len;
use asm_words::{Mnemonic, Operands};
use vm_law::Insn;
use x86_encode::Labels;

/// A mnemonic with its operands.
#[derive(Clone, Copy)]
pub struct Instruction {
    pub lock: bool,
    pub mnemonic: Mnemonic,
    pub operands: Operands,
}

impl Instruction {
    ghost use Rattle.asm_insn.specs.Instruction.{sample_of, labels_in, insn_with, fit_into, spelled_with, numbers_fit, instruction_size, has_operands};
    ghost use Rattle.asm_insn.specs.Spelling.{Speller, IsSpeller};
    ghost use Rattle.std.specs.Prelude.{◌≡◌, option_map, length, []};

    /// Which of its fields hold a label.
    pub fn labels(&self) -> Labels
        ensures { result ≡ labels_in self.now }
    {
        labels_of(&self.operands)
    }

    /// The instruction with the number 1 for each of its own, where its operands name one.
    fn sample(&self) -> Option<Insn>
        ensures { result ≡ sample_of self.now }
    {
        named_of(self.lock, self.mnemonic, sampled(&self.operands))
    }

    /// The instruction where labels have these places and the next instruction stands at `next`.
    pub fn insn(&self, places: &[Option<u32>], next: u64) -> Option<Insn>
        ensures { result ≡ insn_with self.now places.now next }
    {
        let jump = is_jump(self.mnemonic);
        named_of(
            self.lock,
            self.mnemonic,
            arguments_with(&self.operands, places, next, jump),
        )
    }

    /// Whether each number is one that its field holds.
    fn fields_hold(&self) -> bool
        ensures { result ≡ fit_into (sample_of self.now) self.now.operands }
    {
        match self.sample() {
            Some(insn) => all_fit(field_of(&insn), &self.operands),
            None => false,
        }
    }

    /// How many bytes it takes, by 0 in each field that holds a label, where it has a spelling with its numbers.
    fn spelled_len(&self) -> Option<u8>
        ensures { (spell : Speller) → IsSpeller spell → result ≡ option_map length (spelled_with spell self.now [] 0) }
    {
        let insn = self.insn(&[], 0)?;
        spelled_len(self.labels(), &insn)
    }

    /// Whether each number is one that a field in its place can hold, and there is a spelling with them.
    #[tactic(auto, unfolding(crate::specs::Instruction::numbers_fit))]
    pub fn fits(&self) -> bool
        ensures { (spell : Speller) → IsSpeller spell → result ≡ numbers_fit spell self.now }
    {
        self.fields_hold() && self.spelled_len().is_some()
    }

    /// How many bytes it takes, by 0 in each field that holds a label.
    #[tactic(auto, unfolding(crate::specs::Instruction::instruction_size))]
    pub fn size(&self) -> u8
        ensures { (spell : Speller) → IsSpeller spell → result ≡ instruction_size spell self.now }
    {
        self.spelled_len().unwrap_or(0)
    }

    /// Whether its mnemonic has such operands, whatever their numbers are.
    #[tactic(auto, unfolding(crate::specs::Instruction::has_operands))]
    pub fn is_spelled(&self) -> bool
        ensures { (spell : Speller) → IsSpeller spell → result ≡ has_operands spell self.now }
    {
        match self.sample() {
            Some(insn) => spelled_len(self.labels(), &insn).is_some(),
            None => false,
        }
    }
}
