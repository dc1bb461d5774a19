ghost use Rattle.std.specs.Prelude.{◌≡◌, ◌<◌, true, length, slice_get, Some, IsTrue, IfOk};
ghost use Rattle.std.specs.List.{All};
ghost use Rattle.blk_queue.specs.declared.progress.Unfinished.{Unfinished as Entry};
ghost use Rattle.blk_queue.specs.Progress as spec;
ghost use Rattle.blk_queue.specs.Queue as queue;
ghost use Rattle.blk_queue.specs.Steps as steps;

use crate::list;
use crate::progress::{Progress, Unfinished};
use crate::queue::BlkQueue;
use std::alloc::Global;
use vm_law::{OutOfMemory, Request};

impl BlkQueue {
    /// The `k`-th unfinished request by ascending id, from 0: its id, how far it is, and itself.
    pub fn nth(&self, k: u8) -> (u32, Progress, &Request)
        requires { k < length self.now.requests }
        ensures { slice_get self.now.requests k ≡ Some (record { id = result.0; request = result.2.now; progress = result.1 }) }
    {
        let entry = &self.list[k as usize];
        (entry.id, entry.progress, &entry.request)
    }

    /// Adds a request that a saved queue had, blocked or pending.
    ///
    /// Its id is above every id there and below the next one, fewer than 64 requests are there, it is one that `accept`
    /// takes, and where it is blocked one is there that ends at its start.
    #[tactic(auto, unfolding(crate::specs::Steps::restored))]
    pub fn restore(&mut self, id: u32, blocked: bool, request: Request)
        requires few { length self.old.requests < 64 }
        requires above { All (λ (x : Entry). x.id < id) self.old.requests }
        requires below { id < self.old.next }
        requires request { spec.IsRequest request }
        requires behind { IsTrue blocked → IsTrue (queue.stands_behind self.old.requests request) }
        ensures { self.new ≡ steps.restored self.old id blocked request }
    {
        let progress = Progress::waiting(blocked);
        let entry = Unfinished {
            id,
            request,
            progress,
        };
        list::add(&mut self.list, &mut self.starts, entry);
    }

    /// An equal queue.
    pub fn copy(&self, alloc: Global) -> Result<BlkQueue, OutOfMemory>
        ensures { IfOk result (λ q. q ≡ self.now) }
    {
        Ok(BlkQueue {
            next: self.next,
            list: list::copied(alloc, self.list.as_slice())?,
            starts: self.starts.copy(alloc)?,
        })
    }
}
