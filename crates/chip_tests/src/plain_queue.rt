//! The plain queue of block requests: a list that is scanned. Tests compare the indexed queue with it.
ghost use Rattle.std.specs.Prelude.{◌≡◌, ◌<◌, ◌+◌, [], ◌∷◌, ◌++◌, map, remove, length, slice_index_or, if◌then◌else◌, OnOk};
ghost use Rattle.blk_queue.specs.declared.progress.Unfinished.{Unfinished as Entry};
ghost use Rattle.blk_queue.specs.Progress as spec;
ghost use Rattle.blk_queue.specs.Queue.{stands_behind};
ghost use Rattle.blk_queue.specs.Steps as steps;

use blk_queue::{Progress, Unfinished};
use std::alloc::AllocError;
use vm_law::{Kind, Request};

/// Whether a request starts where another ends. A flush has neither start nor end.
fn is_behind(request: &Request, other: &Request) -> bool
    ensures { result ≡ spec.is_behind request.now other.now }
{
    request.kind != Kind::Flush
        && other.kind != Kind::Flush
        && request.start.checked_sub(other.start) == Some(other.count as u64)
}

/// Whether a request stands behind one of these.
fn stands_behind(list: &[Unfinished], request: &Request) -> bool
    ensures { result ≡ stands_behind list.now request.now }
{
    list.iter().any(|other| is_behind(request, &other.request))
}

/// A request joins: it is blocked where it stands behind another.
pub(crate) fn join(list: &mut Vec<Unfinished>, id: u32, request: Request) -> Result<(), AllocError>
    ensures { OnOk result (list.new.items ≡ list.old.items ++ record { id = id; request = request; progress = if stands_behind list.old.items request then Progress.Blocked else Progress.Pending } ∷ []) }
{
    let progress = if stands_behind(list.as_slice(), &request) {
        Progress::Blocked
    } else {
        Progress::Pending
    };
    list.push(Unfinished {
        id,
        request,
        progress,
    })?;
    Ok(())
}

/// A request leaves: those that stand behind it are blocked no more.
pub(crate) fn leave(list: &mut Vec<Unfinished>, at: usize)
    requires { at < length list.old.items }
    ensures { (d : Entry) → list.new.items ≡ map (steps.freed (slice_index_or list.old.items at d ∷ [])) (remove list.old.items at) }
{
    let leaving = list.remove(at);
    free(list.as_mut_slice(), &leaving);
}

fn free(list: &mut [Unfinished], leaving: &Unfinished)
    ensures { list.new ≡ map (steps.freed (leaving.now ∷ [])) list.old }
{
    for entry in list.iter_mut() {
        free_one(entry, leaving);
    }
}

#[tactic(auto, unfolding(blk_queue::specs::Steps::freed))]
fn free_one(entry: &mut Unfinished, leaving: &Unfinished)
    ensures { entry.new ≡ steps.freed (leaving.now ∷ []) entry.old }
{
    if entry.progress == Progress::Blocked && is_behind(&entry.request, &leaving.request) {
        entry.progress = Progress::Pending;
    }
}
