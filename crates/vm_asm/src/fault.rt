//! Why a text is no assembly.
ghost use Rattle.std.specs.Prelude.{◌≡◌};

use std::alloc::{AllocError, AllocFailed};
use thiserror::Error;
use vm_law::OutOfMemory;

/// What is wrong with a line. The kinds are tried in this order.
#[derive(Clone, Copy, Debug, PartialEq, Eq, Error)]
pub enum AsmKind {
    /// It isn't UTF-8.
    #[error("text")]
    Text,
    /// An unknown directive or mnemonic.
    #[error("word")]
    Word,
    /// Operands that the directive doesn't take, or that no spelling of the mnemonic has for any numbers.
    #[error("operand")]
    Operand,
    /// A word before `:` that isn't of a label's form, or a label that is defined nowhere.
    #[error("label")]
    Label,
    /// A number that no field in its place can hold, or an `.org` to a place that is passed. At line 1 an empty code part
    /// besides, and at the line of `.entry` an entry that isn't in the code part.
    #[error("range")]
    Range,
    /// A label, an `.entry` or a `.data` that stood before.
    #[error("twice")]
    Twice,
    /// The payload gets longer than 16 MiB.
    #[error("large")]
    Large,
}

/// Why no image was assembled.
#[derive(Clone, Copy, Debug, PartialEq, Eq, Error)]
pub enum AsmError {
    /// The first faulty line, counted from 1, and the first kind of fault that it has.
    #[error("at {line}: {kind}")]
    Fault { line: u32, kind: AsmKind },
    /// Memory was refused.
    #[error("out of memory")]
    Memory,
}

impl From<AllocError> for AsmError {
    ghost use Rattle.vm_asm.specs.declared.fault.AsmError.TheVariants.{Memory};

    ghost from_gives = { λ _ e. e ≡ Memory };

    fn from(_error: AllocError) -> AsmError {
        AsmError::Memory
    }
}

impl<T: Drop> From<AllocFailed<T>> for AsmError {
    ghost use Rattle.vm_asm.specs.declared.fault.AsmError.TheVariants.{Memory};

    ghost from_gives = { λ _ e. e ≡ Memory };

    fn from(_error: AllocFailed<T>) -> AsmError {
        AsmError::Memory
    }
}

impl From<OutOfMemory> for AsmError {
    ghost use Rattle.vm_asm.specs.declared.fault.AsmError.TheVariants.{Memory};

    ghost from_gives = { λ _ e. e ≡ Memory };

    fn from(_error: OutOfMemory) -> AsmError {
        AsmError::Memory
    }
}

/// Why a line wasn't read.
#[derive(Clone, Copy)]
pub enum Refusal {
    Kind(AsmKind),
    Memory,
}

impl From<AllocError> for Refusal {
    ghost use Rattle.vm_asm.specs.declared.fault.Refusal.TheVariants.{Memory};

    ghost from_gives = { λ _ e. e ≡ Memory };

    fn from(_error: AllocError) -> Refusal {
        Refusal::Memory
    }
}

impl<T: Drop> From<AllocFailed<T>> for Refusal {
    ghost use Rattle.vm_asm.specs.declared.fault.Refusal.TheVariants.{Memory};

    ghost from_gives = { λ _ e. e ≡ Memory };

    fn from(_error: AllocFailed<T>) -> Refusal {
        Refusal::Memory
    }
}

impl From<OutOfMemory> for Refusal {
    ghost use Rattle.vm_asm.specs.declared.fault.Refusal.TheVariants.{Memory};

    ghost from_gives = { λ _ e. e ≡ Memory };

    fn from(_error: OutOfMemory) -> Refusal {
        Refusal::Memory
    }
}
