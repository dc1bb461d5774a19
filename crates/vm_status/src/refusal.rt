//! Why a command did not do its work.
ghost use Rattle.std.specs.Prelude.{◌≡◌};
ghost use Rattle.vm_status.specs.Lines.{status_of};

use crate::kind::Kind;
use crate::role::Role;
use std::alloc::AllocError;
use vm_law::{OutOfMemory, Text};

/// Why a command did not do its work.
#[derive(Debug, Drop)]
pub enum Refusal {
    /// The words are no command.
    Usage,
    /// A file isn't what it is read as.
    Bad {
        role: Role,
        /// The file's name, or the word of the command line that isn't built.
        name: Text,
        /// Where the first fault is: a line from 1 in a text, a byte from 0, or an entry of a journal from 0.
        place: u64,
        kind: Kind,
    },
    /// The configuration in a file plans no machine.
    BadPlan {
        name: Text,
        /// The first variable that is refused.
        variable: Text,
        kind: Kind,
    },
    /// The host failed at a file.
    HostFault {
        name: Text,
    },
    /// There is no such file.
    Missing {
        name: Text,
    },
    /// The console failed.
    Console,
    /// Memory was refused.
    Memory,
}

impl Refusal {
    /// The exit status.
    pub fn status(&self) -> u8
        ensures { result ≡ status_of self.now }
    {
        match self {
            Refusal::Usage => 2,
            Refusal::Bad { .. } => 3,
            Refusal::BadPlan { .. } => 3,
            Refusal::HostFault { .. } => 6,
            Refusal::Missing { .. } => 7,
            Refusal::Console => 9,
            Refusal::Memory => 71,
        }
    }
}

impl From<OutOfMemory> for Refusal {
    ghost use Rattle.vm_status.specs.declared.refusal.Refusal.TheVariants.{Memory};

    ghost from_gives = { λ _ e. e ≡ Memory };

    fn from(_error: OutOfMemory) -> Refusal {
        Refusal::Memory
    }
}

impl From<AllocError> for Refusal {
    ghost use Rattle.vm_status.specs.declared.refusal.Refusal.TheVariants.{Memory};

    ghost from_gives = { λ _ e. e ≡ Memory };

    fn from(_error: AllocError) -> Refusal {
        Refusal::Memory
    }
}
