//! A drive's list of unfinished requests: which has an id, which a worker has, and which waits first.
ghost use Rattle.std.specs.Prelude.{◌≡◌, ◌<◌, ◌&&◌, ◌==◌, not, length, slice_get, option_map, IsTrue};
ghost use Rattle.std.specs.List.{list_any};
ghost use Rattle.blk_queue.specs.declared.progress.Unfinished.{Unfinished as Entry};
ghost use Rattle.blk_queue.specs.Progress as far;
ghost use Rattle.blk_queue.specs.Queue as steps;
ghost use Rattle.vm_state.specs.Requests as words;
ghost use Rattle.blk_queue.specs.Steps.{first_pending as first_of};
ghost use Rattle.vm_disks.specs.Queueing.{has_id};
ghost use Rattle.vm_disks.specs.Requests as spec;

use blk_queue::{BlkQueue, Progress};
use vm_state::{Drive, Machine};

/// Whether there is a request that the pass has.
fn has_worker(progress: Option<Progress>, by: u16) -> bool
    ensures { result ≡ spec.is_so (words.has_worker by) progress }
{
    match progress {
        Some(Progress::Busy { worker, .. }) => worker == by,
        _ => false,
    }
}

/// Whether some worker has it.
fn is_busy(progress: Progress) -> bool
    ensures { result ≡ far.works progress }
{
    matches!(progress, Progress::Busy { .. })
}

/// Whether it waits for a worker, and for nothing else.
fn is_pending(progress: Progress) -> bool
    ensures { result ≡ far.pends progress }
{
    matches!(progress, Progress::Pending)
}

/// Whether there is a request that was dropped: its device was reset since a worker took it.
fn is_gone(progress: Option<Progress>) -> bool
    ensures { result ≡ spec.is_so far.dropped_of progress }
{
    match progress {
        Some(Progress::Busy { dropped, .. }) => dropped,
        _ => false,
    }
}

/// The place of the request of this id.
pub(crate) fn place_of(queue: &BlkQueue, id: u32) -> Option<u8>
    ensures { spec.IsFirst (λ (x : Entry). x.id == id) queue.now.requests result }
{
    for k in 0..queue.count() {
        let (other, _, _) = queue.nth(k);
        if other == id {
            return Some(k);
        }
    }
    None
}

/// The place of the request of this id, which is there.
pub(crate) fn place(queue: &BlkQueue, id: u32) -> u8
    requires { IsTrue (steps.has_request queue.now id) }
    ensures within { result < length queue.now.requests }
    ensures there { steps.request_of queue.now id ≡ slice_get queue.now.requests result }
{
    place_of(queue, id).unwrap()
}

/// The place of the first request that the pass has.
fn place_busy(queue: &BlkQueue, by: u16) -> Option<u8>
    ensures { spec.IsFirst (words.is_busy_by by) queue.now.requests result }
{
    for k in 0..queue.count() {
        let (_, progress, _) = queue.nth(k);
        if has_worker(Some(progress), by) {
            return Some(k);
        }
    }
    None
}

/// The place of the first request that is pending.
fn place_pending(queue: &BlkQueue) -> Option<u8>
    ensures { spec.IsFirst far.is_pending queue.now.requests result }
{
    for k in 0..queue.count() {
        let (_, progress, _) = queue.nth(k);
        if is_pending(progress) {
            return Some(k);
        }
    }
    None
}

/// The place of the first request that is busy.
fn place_any_busy(queue: &BlkQueue) -> Option<u8>
    ensures { spec.IsFirst far.is_busy queue.now.requests result }
{
    for k in 0..queue.count() {
        let (_, progress, _) = queue.nth(k);
        if is_busy(progress) {
            return Some(k);
        }
    }
    None
}

/// Whether the pass has a request.
pub(crate) fn has_request(queue: &BlkQueue, by: u16) -> bool
    ensures { result ≡ list_any (words.is_busy_by by) queue.now.requests }
{
    place_busy(queue, by).is_some()
}

/// The id of the request that the pass has, where it has one.
pub fn busy_of(queue: &BlkQueue, by: u16) -> Option<u32>
    ensures { result ≡ spec.busy_of queue.now by }
{
    let k = place_busy(queue, by)?;
    Some(queue.nth(k).0)
}

/// The id of the first request that is pending, where one is.
pub fn first_pending(queue: &BlkQueue) -> Option<u32>
    ensures { result ≡ spec.first_pending queue.now }
{
    let k = place_pending(queue)?;
    Some(queue.nth(k).0)
}

/// Whether there is an id, this one.
fn is_id(first: Option<u32>, id: u32) -> bool
    ensures { result ≡ spec.is_id id first }
{
    match first {
        None => false,
        Some(first) => first == id,
    }
}

/// Whether the request of this id is the first that is pending.
pub(crate) fn is_first(queue: &BlkQueue, id: u32) -> bool
    ensures { result ≡ has_id id (first_of queue.now) }
{
    is_id(first_pending(queue), id)
}

/// Whether some request of the drive is busy.
fn has_busy(drive: &Drive) -> bool
    ensures { result ≡ list_any far.is_busy drive.now.queue.requests }
{
    place_any_busy(&drive.queue).is_some()
}

/// Whether no drive has a request that is busy.
pub fn none_busy(machine: &Machine) -> bool
    ensures { result ≡ words.none_busy machine.now.state }
{
    machine
        .drives
        .as_slice()
        .iter()
        .all(|drive| !has_busy(drive))
}

/// Whether some drive has an unfinished request.
pub fn any_request(machine: &Machine) -> bool
    ensures { result ≡ words.any_request machine.now.state }
{
    machine
        .drives
        .as_slice()
        .iter()
        .any(|drive| drive.queue.count() > 0)
}

/// How far the request of this id is, where one is unfinished.
pub fn progress_of(queue: &BlkQueue, id: u32) -> Option<Progress>
    ensures { result ≡ option_map (λ (x : Entry). x.progress) (steps.request_of queue.now id) }
{
    let k = place_of(queue, id)?;
    Some(queue.nth(k).1)
}

/// Whether the pass has the request of this id.
fn is_busy_by(queue: &BlkQueue, id: u32, by: u16) -> bool
    ensures { result ≡ steps.some_request queue.now id (words.is_busy_by by) }
{
    queue.is_sound();
    has_worker(progress_of(queue, id), by)
}

/// Whether the request of this id was dropped.
fn is_dropped(queue: &BlkQueue, id: u32) -> bool
    ensures { result ≡ steps.some_request queue.now id far.is_dropped }
{
    queue.is_sound();
    is_gone(progress_of(queue, id))
}

/// Whether the pass may move the next sector of the request of this id.
pub(crate) fn is_moving(queue: &BlkQueue, id: u32, by: u16) -> bool
    ensures { result ≡ steps.some_request queue.now id (λ (x : Entry). words.is_busy_by by x && far.moves x) }
{
    queue.is_sound();
    is_busy_by(queue, id, by) && queue.can_move(id)
}

/// Whether the pass may go on with the request of this id, a write or a flush, which isn't dropped.
pub(crate) fn is_putting(queue: &BlkQueue, id: u32, by: u16) -> bool
    ensures { result ≡ steps.some_request queue.now id (λ (x : Entry). words.is_busy_by by x && far.puts x && not (far.is_dropped x)) }
{
    queue.is_sound();
    can_put(queue, id, by) && !is_dropped(queue, id)
}

/// Whether the pass has the request of this id, a write or a flush of which units are left, and none failed.
fn can_put(queue: &BlkQueue, id: u32, by: u16) -> bool
    ensures { result ≡ steps.some_request queue.now id (λ (x : Entry). words.is_busy_by by x && far.puts x) }
{
    queue.is_sound();
    is_busy_by(queue, id, by) && queue.can_put(id)
}

/// Whether the pass has the request of this id, and nothing of it is left to do.
pub(crate) fn is_ending(queue: &BlkQueue, id: u32, by: u16) -> bool
    ensures { result ≡ steps.some_request queue.now id (λ (x : Entry). words.is_busy_by by x && far.ends x) }
{
    queue.is_sound();
    is_busy_by(queue, id, by) && queue.can_finish(id)
}
