ghost use Rattle.std.specs.Prelude.{◌≡◌, ◌<◌, if◌then◌else◌};
ghost use Rattle.blk_queue.specs.Progress as spec;
ghost use Rattle.blk_queue.specs.Starts as starts;

use arrayvec::ArrayVec;
use vm_law::{Kind, Request, Segment};

/// How far an unfinished request is. Source: FreeBSD usr.sbin/bhyve/block_if.c, `enum blockstat`.
#[derive(Clone, Copy, PartialEq, Eq)]
pub enum Progress {
    /// It waits for a worker.
    Pending,
    /// It waits until a request that ends at its start has left.
    Blocked,
    /// A worker has it.
    Busy {
        /// The worker's number.
        worker: u16,
        /// How many of its sectors are moved; of a flush, how many of its one unit.
        moved: u32,
        /// Whether a sector or the flush failed.
        failed: bool,
        /// Whether the device was reset meanwhile.
        dropped: bool,
    },
}

impl Progress {
    /// It has no worker, and waits for another request where it is blocked.
    pub(crate) fn waiting(blocked: bool) -> Progress
        ensures { result ≡ (if blocked then Progress.Blocked else Progress.Pending) }
    {
        if blocked {
            Progress::Blocked
        } else {
            Progress::Pending
        }
    }

    /// One unit more was moved, or failed.
    pub(crate) fn one_more(self, ok: bool) -> Progress
        requires { spec.moved_of self < u32.MAX }
        ensures { result ≡ spec.one_more ok self }
    {
        match self {
            Progress::Busy {
                worker,
                moved,
                failed,
                dropped,
            } => Progress::Busy {
                worker,
                moved: moved + 1,
                failed: failed || !ok,
                dropped,
            },
            waiting => waiting,
        }
    }

    /// It waits for no other request any more.
    pub(crate) fn unblocked(self) -> Progress
        ensures { result ≡ starts.unblocked self }
    {
        match self {
            Progress::Blocked => Progress::Pending,
            other => other,
        }
    }

    /// The device was reset.
    pub(crate) fn dropped(self) -> Progress
        ensures { result ≡ spec.dropped self }
    {
        match self {
            Progress::Busy {
                worker,
                moved,
                failed,
                ..
            } => Progress::Busy {
                worker,
                moved,
                failed,
                dropped: true,
            },
            waiting => waiting,
        }
    }

    pub(crate) fn is_pending(self) -> bool
        ensures { result ≡ spec.pends self }
    {
        matches!(self, Progress::Pending)
    }

    pub(crate) fn is_busy(self) -> bool
        ensures { result ≡ spec.works self }
    {
        matches!(self, Progress::Busy { .. })
    }

    /// Units are left, of so many.
    fn has_more(self, count: u32) -> bool
        ensures { result ≡ spec.has_more count self }
    {
        match self {
            Progress::Busy { moved, .. } => moved < count,
            _ => false,
        }
    }

    /// Nothing is left to do, where it has so many units.
    fn is_over(self, count: u32) -> bool
        ensures { result ≡ spec.is_over count self }
    {
        match self {
            Progress::Busy {
                moved,
                failed,
                dropped,
                ..
            } => moved == count || failed || dropped,
            _ => false,
        }
    }

    fn has_failed(self) -> bool
        ensures { result ≡ spec.failed_of self }
    {
        match self {
            Progress::Busy { failed, .. } => failed,
            _ => false,
        }
    }

    fn is_dropped(self) -> bool
        ensures { result ≡ spec.dropped_of self }
    {
        match self {
            Progress::Busy { dropped, .. } => dropped,
            _ => false,
        }
    }
}

/// An unfinished request, its id, and how far it is.
#[derive(Drop)]
pub struct Unfinished {
    pub id: u32,
    pub request: Request,
    pub progress: Progress,
}

/// What is told of a request that has left.
#[derive(Clone, Copy, PartialEq, Eq)]
pub struct Finished {
    /// 1 where it failed, else 0. Source: OASIS virtio 1.2, section 5.2.6, VIRTIO_BLK_S_OK and VIRTIO_BLK_S_IOERR.
    pub status: u8,
    /// The index of its chain's first descriptor.
    pub head: u16,
    /// The address of its status byte.
    pub status_at: u64,
    /// The bytes that the device wrote: the status byte, and the data of a read that did not fail.
    pub len: u32,
    /// Whether the driver is told nothing, since its device was reset.
    pub silent: bool,
}

/// The answer to a cancel. Source: FreeBSD usr.sbin/bhyve/block_if.c, `blockif_cancel`.
#[derive(Clone, Copy, Debug, PartialEq, Eq)]
pub enum Cancelled {
    /// It waited, and is off the list.
    Done,
    /// No unfinished request has this id.
    Unknown,
    /// A worker has it, and nothing changed.
    Busy,
}

impl Unfinished {
    ghost use Rattle.std.specs.Prelude.{◌≡◌, ◌≤◌};
    ghost use Rattle.blk_queue.specs.Progress as spec;
    ghost use Rattle.blk_queue.specs.Starts as starts;

    /// It is no flush, which has no start.
    pub(crate) fn has_start(&self) -> bool
        ensures { result ≡ starts.has_start self.now }
    {
        self.request.kind != Kind::Flush
    }

    /// What is told of it when it leaves.
    pub(crate) fn told(&self) -> Finished
        requires { self.now.request.count ≤ 8192 }
        ensures { result ≡ spec.told self.now }
    {
        let failed = self.progress.has_failed();
        let reads = self.request.kind == Kind::Read;
        Finished {
            status: if failed { 1 } else { 0 },
            head: self.request.head,
            status_at: self.request.status_at,
            len: if reads && !failed {
                1 + 512 * self.request.count
            } else {
                1
            },
            silent: self.progress.is_dropped(),
        }
    }

    pub(crate) fn can_move(&self) -> bool
        ensures { result ≡ spec.moves self.now }
    {
        self.request.kind == Kind::Read
            && self.progress.has_more(self.request.count)
            && !self.progress.is_dropped()
    }

    pub(crate) fn can_put(&self) -> bool
        ensures { result ≡ spec.puts self.now }
    {
        self.request.kind != Kind::Read
            && self.progress.has_more(self.request.count)
            && !self.progress.has_failed()
    }

    pub(crate) fn is_over(&self) -> bool
        ensures { result ≡ spec.ends self.now }
    {
        self.progress.is_over(self.request.count)
    }

    /// An equal one.
    pub(crate) fn copy(&self) -> Unfinished
        ensures { result ≡ self.now }
    {
        Unfinished {
            id: self.id,
            request: duplicate(&self.request),
            progress: self.progress,
        }
    }
}

/// An equal request.
fn duplicate(request: &Request) -> Request
    ensures { result ≡ request.now }
{
    let mut segments: ArrayVec<Segment, 126> = ArrayVec::new();
    let _fits = segments
        .try_extend_from_slice(request.segments.as_slice())
        .is_ok();
    Request {
        kind: request.kind,
        head: request.head,
        status_at: request.status_at,
        start: request.start,
        count: request.count,
        segments,
    }
}
