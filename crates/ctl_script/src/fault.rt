//! Why a text is no script.
ghost use Rattle.std.specs.Prelude.{◌≡◌};
ghost use Rattle.ctl_script.specs.declared.fault.ScriptKind.{ScriptKind};
ghost use Rattle.ctl_script.specs.declared.fault.ScriptError.{ScriptError};

use std::alloc::{AllocError, AllocFailed};
use thiserror::Error;
use vm_law::OutOfMemory;

/// What is wrong with a line. The kinds are tried in this order.
#[derive(Clone, Copy, Debug, PartialEq, Eq, Error)]
pub enum ScriptKind {
    /// It isn't UTF-8.
    #[error("text")]
    Text,
    /// It doesn't have the number of words and the fixed words of an order, the names of registers among them.
    #[error("word")]
    Word,
    /// A number or the bytes of `input` don't have their form.
    #[error("number")]
    Number,
    /// `pause` or `wait` while paused; `resume`, `checkpoint`, `set` or `get` while not paused; a base of more than 65,535
    /// bytes, one that is no earlier checkpoint of its own, or another than an earlier order's; `send` to a closed stream.
    #[error("order")]
    Order,
    /// A vCPU outside the plan.
    #[error("cpu")]
    Cpu,
    /// A disk outside the plan.
    #[error("disk")]
    Disk,
    /// The 10,001st order, or more than 65,536 bytes of input in all.
    #[error("many")]
    Many,
}

/// Why no script was read.
#[derive(Clone, Copy, Debug, PartialEq, Eq, Error)]
pub enum ScriptError {
    /// The first faulty line, counted from 1, and the first kind of fault that it has.
    #[error("at {line}: {kind}")]
    Fault { line: u32, kind: ScriptKind },
    /// Memory was refused.
    #[error("out of memory")]
    Memory,
}

/// Why no order was read from a line.
#[derive(Clone, Copy, Debug, PartialEq, Eq)]
pub enum Refusal {
    Kind(ScriptKind),
    Memory,
}

impl From<AllocError> for Refusal {
    ghost use Rattle.ctl_script.specs.declared.fault.Refusal.TheVariants.{Memory};

    ghost from_gives = { λ _ e. e ≡ Memory };

    fn from(_error: AllocError) -> Refusal {
        Refusal::Memory
    }
}

impl<T: Drop> From<AllocFailed<T>> for Refusal {
    ghost use Rattle.ctl_script.specs.declared.fault.Refusal.TheVariants.{Memory};

    ghost from_gives = { λ _ e. e ≡ Memory };

    fn from(_error: AllocFailed<T>) -> Refusal {
        Refusal::Memory
    }
}

impl From<OutOfMemory> for Refusal {
    ghost use Rattle.ctl_script.specs.declared.fault.Refusal.TheVariants.{Memory};

    ghost from_gives = { λ _ e. e ≡ Memory };

    fn from(_error: OutOfMemory) -> Refusal {
        Refusal::Memory
    }
}
