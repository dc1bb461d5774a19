ghost use Rattle.std.specs.Prelude.{◌≡◌, ℕ, ◌<◌, ◌≤◌, ◌↔◌, true, false, if◌then◌else◌, length, option_map, IsTrue, IsNone, IfOk, IfSome, MatchOption};
ghost use Rattle.std.specs.List.{list_any};
ghost use Rattle.blk_queue.specs.Progress as spec;
ghost use Rattle.blk_queue.specs.Queue as queue;
ghost use Rattle.blk_queue.specs.Steps as steps;
ghost use Rattle.blk_queue.specs.Sound.{IsSound};

use crate::list;
use crate::progress::{Cancelled, Finished, Progress, Unfinished};
use crate::starts::Starts;
use std::alloc::Global;
use std::marker::Model;
use vm_law::{OutOfMemory, Request};

/// The unfinished requests of a block device. Contracts see the next id and the list of requests by ascending id.
#[derive(Drop)]
pub struct BlkQueue {
    pub(crate) next: u32,
    pub(crate) list: Vec<Unfinished>,
    pub(crate) starts: Starts,
}

impl Model for BlkQueue {
    ghost use Rattle.std.specs.Prelude.{◌≤◌};
    ghost use Rattle.std.specs.Vec.{vec_capacity};
    ghost use Rattle.blk_queue.specs.Queue.{Queue, queue_code};
    ghost use Rattle.blk_queue.specs.Sound.{IsSound};
    ghost use Rattle.blk_queue.specs.Starts.{Indexes};

    ghost Value = { Queue };

    ghost coded = { queue_code };

    ghost view = { λ q. record { next = q.next; requests = q.list.items } };

    ghost invariant = { λ q. (64 ≤ vec_capacity q.list) × IsSound (record { next = q.next; requests = q.list.items }) × Indexes q.list.items q.starts };
}

impl BlkQueue {
    /// An empty queue whose first request gets id 0.
    pub fn new(alloc: Global) -> Result<BlkQueue, OutOfMemory>
        ensures { IfOk result (λ q. q ≡ steps.empty 0) }
    {
        BlkQueue::with_next(alloc, 0)
    }

    /// An empty queue whose next request gets this id.
    pub fn with_next(alloc: Global, next: u32) -> Result<BlkQueue, OutOfMemory>
        ensures { IfOk result (λ q. q ≡ steps.empty next) }
    {
        Ok(BlkQueue {
            next,
            list: list::new(alloc)?,
            starts: Starts::new(alloc)?,
        })
    }

    /// What holds of every queue: at most 64 requests, by ascending id below the next one, each one that a queue takes,
    /// and each blocked one behind an earlier one that ends at its start.
    pub fn is_sound(&self)
        ensures { IsSound self.now }
    {
        let _ = &self.list;
    }

    /// The id that the next request gets.
    pub fn next(&self) -> u32
        ensures { result ≡ self.now.next }
    {
        self.next
    }

    /// How many requests are unfinished, at most 64.
    pub fn count(&self) -> u8
        ensures { result ≡ length self.now.requests }
    {
        self.list.len() as u8
    }

    /// Takes in a request under the next id, which it answers. It is blocked where it starts at the end of an unfinished
    /// one, else pending. Source: FreeBSD usr.sbin/bhyve/block_if.c, `blockif_enqueue`.
    ///
    /// Fewer than 64 requests are unfinished, the next id is below `u32::MAX`, the request has at most 8,192 sectors and
    /// segments for them; a flush has a count of 1.
    #[tactic(auto, unfolding(crate::specs::Steps::joined))]
    pub fn accept(&mut self, request: Request) -> u32
        requires few { length self.old.requests < 64 }
        requires next { self.old.next < u32.MAX }
        requires request { spec.IsRequest request }
        ensures id { result ≡ self.old.next }
        ensures joined { self.new ≡ steps.joined self.old request }
    {
        let id = self.next;
        let progress = list::joining(&self.starts, &request);
        let entry = Unfinished {
            id,
            request,
            progress,
        };
        list::add(&mut self.list, &mut self.starts, entry);
        self.next += 1;
        id
    }

    /// Gives the first request that is pending to a worker, and answers its id; nothing of it is moved yet. `None` exactly
    /// where none is pending, and then nothing changes. Source: FreeBSD usr.sbin/bhyve/block_if.c, `blockif_dequeue`.
    #[tactic(auto, unfolding(crate::specs::Steps::begun))]
    pub fn begin(&mut self, worker: u16) -> Option<u32>
        ensures none { IsNone result ↔ (list_any spec.is_pending self.old.requests ≡ false) }
        ensures first { result ≡ option_map (λ x. x.id) (steps.first_pending self.old) }
        ensures begun { self.new ≡ steps.begun self.old worker }
    {
        let at = list::first_pending(self.list.as_slice())?;
        let entry = &mut self.list[at];
        entry.progress = Progress::Busy {
            worker,
            moved: 0,
            failed: false,
            dropped: false,
        };
        Some(entry.id)
    }

    /// Whether a worker has the request of this id, a read of which sectors are left, and it isn't dropped.
    pub fn can_move(&self, id: u32) -> bool
        ensures { result ≡ steps.can_move self.now id }
    {
        self.list
            .iter()
            .any(|entry| entry.id == id && entry.can_move())
    }

    /// Whether a worker has the request of this id, a write or a flush of which units are left, and none failed.
    pub fn can_put(&self, id: u32) -> bool
        ensures { result ≡ steps.can_put self.now id }
    {
        self.list
            .iter()
            .any(|entry| entry.id == id && entry.can_put())
    }

    /// Whether a worker has the request of this id, and all its units are moved, or one failed, or it is dropped.
    pub fn can_finish(&self, id: u32) -> bool
        ensures { result ≡ steps.can_finish self.now id }
    {
        self.list
            .iter()
            .any(|entry| entry.id == id && entry.is_over())
    }

    /// One sector more of a read was moved.
    ///
    /// `can_move` holds.
    pub fn moved(&mut self, id: u32)
        requires { IsTrue (steps.can_move self.old id) }
        ensures { self.new ≡ steps.with_progress self.old id (spec.one_more true) }
    {
        self.advance(id, true);
    }

    /// One sector more of a write was put on the disk, or the flush was done; or, where `ok` is false, that failed.
    ///
    /// `can_put` holds.
    pub fn put(&mut self, id: u32, ok: bool)
        requires { IsTrue (steps.can_put self.old id) }
        ensures { self.new ≡ steps.with_progress self.old id (spec.one_more ok) }
    {
        self.advance(id, ok);
    }

    fn advance(&mut self, id: u32, ok: bool)
        requires { IsTrue (queue.some_request self.old id (λ x. spec.has_more x.request.count x.progress)) }
        ensures { self.new ≡ steps.with_progress self.old id (spec.one_more ok) }
    {
        let at = list::place(self.list.as_slice(), id);
        let entry = &mut self.list[at];
        entry.progress = entry.progress.one_more(ok);
    }

    /// Takes a request off the list that its worker is done with, and answers what is told of it. Those that were blocked
    /// and start where it ends are pending from then on. Source: FreeBSD usr.sbin/bhyve/block_if.c, `blockif_complete`.
    ///
    /// `can_finish` holds.
    pub fn finish(&mut self, id: u32) -> Finished
        requires { IsTrue (steps.can_finish self.old id) }
        ensures status { IfSome (queue.request_of self.old id) (λ x. result.status ≡ (if spec.has_failed x then 1 else 0)) }
        ensures head { IfSome (queue.request_of self.old id) (λ x. result.head ≡ x.request.head) }
        ensures status_at { IfSome (queue.request_of self.old id) (λ x. result.status_at ≡ x.request.status_at) }
        ensures len { IfSome (queue.request_of self.old id) (λ x. result.len ≡ spec.used_length x) }
        ensures silent { IfSome (queue.request_of self.old id) (λ x. result.silent ≡ spec.is_dropped x) }
        ensures told { option_map spec.told (queue.request_of self.old id) ≡ Some result }
        ensures left { self.new ≡ steps.left self.old id }
    {
        self.leave(id).told()
    }

    /// Takes a request off the list where no worker has it. Those that were blocked and start where it ends are pending
    /// from then on. Source: FreeBSD usr.sbin/bhyve/block_if.c, `blockif_cancel`.
    ///
    /// `Busy` exactly where a worker has it, `Unknown` exactly where no unfinished request has this id; in both cases
    /// nothing changes.
    #[tactic(auto, unfolding(crate::specs::Steps::cancelled))]
    pub fn cancel(&mut self, id: u32) -> Cancelled
        ensures done { (result ≡ Cancelled.Done) ↔ IsTrue (queue.some_request self.old id spec.is_waiting) }
        ensures busy { (result ≡ Cancelled.Busy) ↔ IsTrue (queue.some_request self.old id spec.is_busy) }
        ensures unknown { (result ≡ Cancelled.Unknown) ↔ (queue.has_request self.old id ≡ false) }
        ensures after { self.new ≡ steps.cancelled self.old id }
    {
        match self.progress_of(id) {
            None => Cancelled::Unknown,
            Some(Progress::Busy { .. }) => Cancelled::Busy,
            Some(_) => {
                self.leave(id);
                Cancelled::Done
            }
        }
    }

    fn progress_of(&self, id: u32) -> Option<Progress>
        ensures { MatchOption result (queue.IsAbsent self.now id) (queue.IsThere self.now id) }
    {
        let at = list::position(self.list.as_slice(), id)?;
        Some(self.list[at].progress)
    }

    fn leave(&mut self, id: u32) -> Unfinished
        requires { queue.has_request self.old id ≡ true }
        ensures found { queue.request_of self.old id ≡ Some result }
        ensures fits { result.request.count ≤ 8192 }
        ensures left { self.new ≡ steps.left self.old id }
    {
        let at = list::place(self.list.as_slice(), id);
        list::take_off(&mut self.list, &mut self.starts, at)
    }

    /// The device was reset: those that no worker has leave, and the others are dropped, so that nothing is told of them.
    pub fn reset(&mut self)
        ensures { self.new ≡ steps.emptied self.old }
    {
        list::empty(&mut self.list, &mut self.starts);
    }
}
