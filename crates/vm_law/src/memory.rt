ghost use Rattle.vm_law.specs.declared.memory.OutOfMemory.{OutOfMemory};

use std::alloc::{AllocError, AllocFailed};
use thiserror::Error;

/// An allocation was refused. What was asked for isn't there, and everything else is as before.
#[derive(Clone, Copy, Debug, PartialEq, Eq, Error)]
#[error("out of memory")]
pub struct OutOfMemory;

impl From<AllocError> for OutOfMemory {
    fn from(_error: AllocError) -> OutOfMemory {
        OutOfMemory
    }
}

impl<T: Drop> From<AllocFailed<T>> for OutOfMemory {
    fn from(_error: AllocFailed<T>) -> OutOfMemory {
        OutOfMemory
    }
}
