//! How a run begins, is copied, and makes room.
ghost use Rattle.std.specs.Prelude.{◌≡◌, ◌≤◌, IfOk, OnOk};
ghost use Rattle.vm_state.specs.Sound.{IsSoundState};
ghost use Rattle.vm_state.specs.Start.{IsSound, boot as first};

use crate::run::Run;
use std::alloc::Global;
use vm_law::OutOfMemory;
use vm_state::{Start, boot};

/// For no more entries than this is room made at once.
const MOST_ENTRIES: usize = 1 << 28;

impl Run {
    /// The run at its start, which is to be sound. It copies what it needs of the start, and makes the room that the orders of
    /// the script will take.
    pub fn begin(alloc: Global, start: &Start) -> Result<Run, OutOfMemory>
        requires { IsSound start.now }
        ensures { IfOk result (λ run. run.state ≡ first start.now) }
    {
        let run = boot(alloc, start)?;
        Ok(Run { run })
    }

    /// A run in the same state. It has room for no entry.
    pub fn copy(&self, alloc: Global) -> Result<Run, OutOfMemory>
        ensures { IfOk result (λ run. run.state ≡ self.now.state) }
    {
        let run = self.run.copy(alloc)?;
        Ok(Run { run })
    }

    /// What holds of every run, in whatever order its entries came.
    pub fn is_sound(&self)
        ensures { IsSoundState self.now.state }
    {
        let _run = &self.run;
    }

    /// Makes room for `count` entries: for the console bytes that they can add and the pages of memory that they can make
    /// stand. The run stays as it is, also where memory is out.
    pub fn reserve(&mut self, alloc: Global, count: usize) -> Result<(), OutOfMemory>
        ensures state { self.new.state ≡ self.old.state }
        ensures ok { OnOk result (count ≤ self.new.room) }
        ensures kept { self.old.room ≤ self.new.room }
    {
        if count > MOST_ENTRIES {
            return Err(OutOfMemory);
        }
        self.run.reserve(alloc, count as u32)
    }
}
