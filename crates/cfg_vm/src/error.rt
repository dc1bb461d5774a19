ghost use Rattle.cfg_vm.specs.Outcome.{Answers, named};

use std::alloc::Global;
use thiserror::Error;
use vm_law::{OutOfMemory, Text};

/// What is wrong with a variable.
#[derive(Clone, Copy, Debug, PartialEq, Eq, Error)]
pub enum PlanKind {
    /// It isn't a number.
    #[error("number")]
    Number,
    /// It is a number that isn't allowed.
    #[error("range")]
    Range,
    /// It is a file name that is empty, or missing and needed.
    #[error("path")]
    Path,
    /// It is none of the words of a boolean.
    #[error("boolean")]
    Boolean,
    /// It is the device of a ninth disk.
    #[error("many")]
    Many,
}

/// Why a configuration plans no virtual machine.
#[derive(Debug, Drop, Error)]
pub enum PlanError {
    /// The first variable that is refused, and what is wrong with it.
    #[error("{}: {kind}", variable.as_str())]
    Fault { variable: Text, kind: PlanKind },
    /// An allocation was refused.
    #[error("out of memory")]
    Memory,
}

impl From<OutOfMemory> for PlanError {
    ghost use Rattle.std.specs.Prelude.{◌≡◌};
    ghost use Rattle.cfg_vm.specs.declared.error.PlanError.TheVariants.{Memory};

    ghost from_gives = { λ _ e. e ≡ Memory };

    fn from(_error: OutOfMemory) -> PlanError {
        PlanError::Memory
    }
}

/// Names the variable that a value is refused for.
pub(crate) fn named<T: Drop>(
    alloc: Global,
    variable: &str,
    value: Result<T, PlanKind>,
) -> Result<T, PlanError>
    ensures { Answers result (named variable.now value) }
{
    match value {
        Ok(value) => Ok(value),
        Err(kind) => match Text::from_text(alloc, variable) {
            Ok(variable) => Err(PlanError::Fault { variable, kind }),
            Err(_) => Err(PlanError::Memory),
        },
    }
}
