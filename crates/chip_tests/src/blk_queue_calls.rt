ghost use Rattle.std.specs.Prelude.{◌≡◌, ◌≤◌};
ghost use Rattle.vm_law.specs.declared.block.Kind.{Kind as KindOf};
ghost use Rattle.vm_law.specs.declared.block.Kind.TheVariants.{Read as ReadKind};
ghost use Rattle.blk_queue.specs.Progress.{IsRequest};

use crate::plain_queue as plain;
use arrayvec::ArrayVec;
use blk_queue::{
    BlkQueue, Cancelled, Finished, Progress, Unfinished, an_id_names_one, first_is_free,
};
use std::alloc::Global;
use std::process::Abort;
use std::test::Fail;
use vm_law::{Kind, OutOfMemory, Request, Segment};

/// A read of so many sectors from a start on, with one segment.
fn read(start: u64, count: u32) -> Request
    requires { count ≤ 8192 }
    ensures request { IsRequest result }
    ensures start { result.start ≡ start }
    ensures count { result.count ≡ count }
    ensures kind { result.kind ≡ Kind.Read }
{
    let mut segments: ArrayVec<Segment, 126> = ArrayVec::new();
    segments.push(Segment {
        addr: 0x20_0000,
        len: 512 * count,
    });
    Request {
        kind: Kind::Read,
        head: 3,
        status_at: 0x1000,
        start,
        count,
        segments,
    }
}

fn flush() -> Request
    ensures { IsRequest result }
{
    Request {
        kind: Kind::Flush,
        head: 5,
        status_at: 0x1800,
        start: 0,
        count: 1,
        segments: ArrayVec::new(),
    }
}

/// The id of a request that joins, where there is room.
fn accepted(queue: &mut BlkQueue, request: Request) -> Option<u32>
    requires { IsRequest request }
{
    if queue.count() >= 64 || queue.next() == u32::MAX {
        return None;
    }
    Some(queue.accept(request))
}

fn progress(queue: &BlkQueue, k: u8) -> Option<Progress> {
    if k >= queue.count() {
        return None;
    }
    Some(queue.nth(k).1)
}

fn finished(queue: &mut BlkQueue, id: u32) -> Option<Finished> {
    if !queue.can_finish(id) {
        return None;
    }
    Some(queue.finish(id))
}

/// Whether so many sectors of a request can be moved.
fn move_some(queue: &mut BlkQueue, id: u32, count: u8) -> bool {
    for _sector in 0..count {
        if !queue.can_move(id) {
            return false;
        }
        queue.moved(id);
    }
    true
}

/// Whether a sector of a request can be put, or fail.
fn put_one(queue: &mut BlkQueue, id: u32, ok: bool) -> bool {
    if !queue.can_put(id) {
        return false;
    }
    queue.put(id, ok);
    true
}

/// A call, and what it gives.
#[derive(Drop)]
enum Step {
    /// A read from a sector on joins, of so many sectors: its id.
    Read(u64, u32, u32),
    /// A flush joins: its id.
    Flush(u32),
    /// A worker takes a request.
    Begin(u16, Option<u32>),
    /// How far the request at a place is.
    Is(u8, Progress),
    CanMove(u32, bool),
    /// So many sectors of a request are moved.
    Move(u32, u8),
    Put(u32, bool),
    Finish(u32, Finished),
    /// A request ends, of which nothing is told.
    Silent(u32),
    Cancel(u32, Cancelled),
    Reset,
    /// How many requests there are, and the next id.
    Has(u8, u32),
}

fn holds(queue: &mut BlkQueue, step: &Step) -> bool {
    match step {
        Step::Read(start, count, id) => {
            *count <= 8192 && accepted(queue, read(*start, *count)) == Some(*id)
        }
        Step::Flush(id) => accepted(queue, flush()) == Some(*id),
        Step::Begin(worker, id) => queue.begin(*worker) == *id,
        Step::Is(k, want) => progress(queue, *k) == Some(*want),
        Step::CanMove(id, want) => queue.can_move(*id) == *want,
        Step::Move(id, count) => move_some(queue, *id, *count),
        Step::Put(id, ok) => put_one(queue, *id, *ok),
        Step::Finish(id, want) => finished(queue, *id) == Some(*want),
        Step::Silent(id) => match finished(queue, *id) {
            Some(told) => told.silent,
            None => false,
        },
        Step::Cancel(id, want) => queue.cancel(*id) == *want,
        Step::Reset => {
            queue.reset();
            true
        }
        Step::Has(count, next) => queue.count() == *count && queue.next() == *next,
    }
}

fn run(rt: &impl Abort, queue: &mut BlkQueue, steps: &[Step]) {
    for (k, step) in steps.iter().enumerate() {
        assert!(rt; holds(queue, step), "step {k}");
    }
}

const BEGUN: Progress = Progress::Busy {
    worker: 7,
    moved: 0,
    failed: false,
    dropped: false,
};

/// Requests of the sectors from 0 to 7, from 8 to 15 and from 4 to 11: the second waits for the first.
const WAITS: [Step; 12] = [
    Step::Read(0, 8, 0),
    Step::Read(8, 8, 1),
    Step::Read(4, 8, 2),
    Step::Is(1, Progress::Blocked),
    Step::Begin(7, Some(0)),
    Step::Begin(7, Some(2)),
    Step::Begin(7, None),
    Step::Is(0, BEGUN),
    Step::Move(0, 8),
    Step::Finish(
        0,
        Finished {
            status: 0,
            head: 3,
            status_at: 0x1000,
            len: 4097,
            silent: false,
        },
    ),
    Step::Is(0, Progress::Pending),
    Step::Begin(7, Some(1)),
];

#[test]
fn waits_for_the_one_before(rt: HostRuntime) -> Result<(), Fail> {
    run(&rt, &mut BlkQueue::new(rt.alloc())?, &WAITS);
    Ok(())
}

/// A blocked, a busy, a finished and an unknown request are cancelled.
const CANCELS: [Step; 13] = [
    Step::Flush(0),
    Step::Read(0, 8, 1),
    Step::Read(8, 8, 2),
    Step::Begin(7, Some(0)),
    Step::Begin(8, Some(1)),
    Step::Put(0, false),
    Step::Finish(
        0,
        Finished {
            status: 1,
            head: 5,
            status_at: 0x1800,
            len: 1,
            silent: false,
        },
    ),
    Step::Cancel(2, Cancelled::Done),
    Step::Cancel(1, Cancelled::Busy),
    Step::Cancel(0, Cancelled::Unknown),
    Step::Cancel(9, Cancelled::Unknown),
    Step::Cancel(2, Cancelled::Unknown),
    Step::Has(1, 3),
];

#[test]
fn cancels_what_waits(rt: HostRuntime) -> Result<(), Fail> {
    run(&rt, &mut BlkQueue::new(rt.alloc())?, &CANCELS);
    Ok(())
}

/// A reset leaves the busy request alone, of which nothing is told when it ends.
const RESETS: [Step; 8] = [
    Step::Read(0, 8, 4),
    Step::Read(8, 8, 5),
    Step::Begin(7, Some(4)),
    Step::Reset,
    Step::Has(1, 6),
    Step::CanMove(4, false),
    Step::Silent(4),
    Step::Has(0, 6),
];

#[test]
fn a_reset_drops_the_busy(rt: HostRuntime) -> Result<(), Fail> {
    run(&rt, &mut BlkQueue::with_next(rt.alloc(), 4)?, &RESETS);
    Ok(())
}

/// Two requests of a saved queue.
#[tactic(auto, unfolding(blk_queue::specs::Steps::restored))]
fn restored(alloc: Global) -> Result<BlkQueue, OutOfMemory> {
    first_is_free();
    an_id_names_one();
    let mut queue = BlkQueue::with_next(alloc, 9)?;
    queue.restore(2, false, read(0, 8));
    queue.restore(5, true, read(8, 8));
    Ok(queue)
}

const ONE_LEAVES: [Step; 2] = [
    Step::Cancel(2, Cancelled::Done),
    Step::Is(0, Progress::Pending),
];

const BOTH_STAND: [Step; 2] = [Step::Has(2, 9), Step::Is(1, Progress::Blocked)];

/// Requests of a saved queue stand again where they stood, in a copy too.
#[test]
fn restored_and_copied(rt: HostRuntime) -> Result<(), Fail> {
    let mut queue = restored(rt.alloc())?;
    let mut copy = queue.copy(rt.alloc())?;
    copy.is_sound();
    run(&rt, &mut queue, &ONE_LEAVES);
    run(&rt, &mut copy, &BOTH_STAND);
    Ok(())
}

/// Whether both queues have as many requests, each as far as the other.
fn agrees(queue: &BlkQueue, list: &[Unfinished]) -> bool {
    if queue.count() as usize != list.len() {
        return false;
    }
    for (k, entry) in list.iter().enumerate() {
        if k >= 64 || k >= queue.count() as usize || queue.nth(k as u8).1 != entry.progress {
            return false;
        }
    }
    true
}

/// Takes a request off the plain queue.
fn leave(list: &mut Vec<Unfinished>, id: u32) {
    let place = list.iter().position(|entry| entry.id == id);
    if let Some(at) = place {
        if at < list.len() {
            plain::leave(list, at);
        }
    }
}

/// Where requests start, and how many sectors they have: neighbours, overlaps, an empty one, the largest.
const ROWS: [(u64, u32); 8] = [
    (0, 8),
    (8, 8),
    (4, 8),
    (16, 4),
    (12, 4),
    (8, 0),
    (8, 8192),
    (8200, 1),
];

/// The queue and the plain one agree after each step: requests join, and then some leave.
#[test]
fn agrees_with_the_plain_queue(rt: HostRuntime) -> Result<(), Fail> {
    let mut queue = BlkQueue::new(rt.alloc())?;
    let mut list = Vec::new(rt.alloc());
    for (start, count) in ROWS {
        assert!(rt; count <= 8192);
        let id = accepted(&mut queue, read(start, count)).ok_or("no room")?;
        plain::join(&mut list, id, read(start, count))?;
        assert!(rt; agrees(&queue, list.as_slice()));
    }
    for id in [0, 5, 2, 1, 6] {
        assert!(rt; queue.cancel(id) == Cancelled::Done);
        leave(&mut list, id);
        assert!(rt; agrees(&queue, list.as_slice()));
    }
    Ok(())
}
