//! Steps on the list of unfinished requests.
ghost use Rattle.std.specs.Prelude.{◌≡◌, ◌<◌, ◌≤◌, ◌==◌, ◌&&◌, true, false, not, List, ◌++◌, filter, remove, [], ◌∷◌, map, length, slice_index_or, IfOk, MatchOption, if◌then◌else◌};
ghost use Rattle.std.specs.List.{All, list_any, find};
ghost use Rattle.std.specs.Vec.{vec_len, vec_capacity};
ghost use Rattle.blk_queue.specs.declared.progress.Unfinished.{Unfinished as Entry};
ghost use Rattle.blk_queue.specs.declared.starts.Mark.{Mark as Marked};
ghost use Rattle.blk_queue.specs.Progress as spec;
ghost use Rattle.blk_queue.specs.Steps as steps;
ghost use Rattle.blk_queue.specs.Starts as index;

use crate::progress::{Progress, Unfinished};
use crate::starts::{Mark, Starts};
use std::alloc::Global;
use vm_law::{Kind, OutOfMemory, Request};

/// How many requests can be unfinished.
const PLACES: usize = 64;

/// An empty list with its places.
pub(crate) fn new(alloc: Global) -> Result<Vec<Unfinished>, OutOfMemory>
    ensures items { IfOk result (λ v. v.items ≡ []) }
    ensures capacity { IfOk result (λ v. 64 ≤ vec_capacity v) }
{
    Ok(Vec::with_capacity(alloc, PLACES)?)
}

/// An equal list with its places.
pub(crate) fn copied(alloc: Global, list: &[Unfinished]) -> Result<Vec<Unfinished>, OutOfMemory>
    requires { length list.now ≤ 64 }
    ensures items { IfOk result (λ v. v.items ≡ list.now) }
    ensures capacity { IfOk result (λ v. 64 ≤ vec_capacity v) }
{
    let mut copy = new(alloc)?;
    for entry in list {
        copy.push_reserved(entry.copy());
    }
    Ok(copy)
}

/// How far a request is that joins those of an index.
pub(crate) fn joining(starts: &Starts, request: &Request) -> Progress
    requires { All (λ (m : Marked). m.count ≤ 8192) starts.now }
    ensures { result ≡ (if not (spec.is_flush request.now) && list_any (index.ends_at request.now.start) starts.now then Progress.Blocked else Progress.Pending) }
{
    Progress::waiting(request.kind != Kind::Flush && starts.some_ends_at(request.start))
}

/// The place of the request with this id.
pub(crate) fn position(list: &[Unfinished], id: u32) -> Option<usize>
    ensures { MatchOption result (list_any (λ (x : Entry). x.id == id) list.now ≡ false) (λ i. (i < length list.now) × ((d : Entry) → (slice_index_or list.now i d).id ≡ id)) }
{
    for (i, entry) in list.iter().enumerate() {
        if entry.id == id {
            return Some(i);
        }
    }
    None
}

/// Puts a request last.
pub(crate) fn add(list: &mut Vec<Unfinished>, starts: &mut Starts, entry: Unfinished)
    requires few { length list.old.items < 64 }
    requires room { 64 ≤ vec_capacity list.old }
    requires indexed { index.Indexes list.old.items starts.old }
    ensures items { list.new.items ≡ list.old.items ++ entry ∷ [] }
    ensures capacity { vec_capacity list.new ≡ vec_capacity list.old }
    ensures indexed { index.Indexes list.new.items starts.new }
{
    mark(starts, &entry);
    list.push_reserved(entry);
}

/// The place of the request with this id, which is there.
pub(crate) fn place(list: &[Unfinished], id: u32) -> usize
    requires { list_any (λ (x : Entry). x.id == id) list.now ≡ true }
    ensures within { result < length list.now }
    ensures named { (d : Entry) → (slice_index_or list.now result d).id ≡ id }
{
    position(list, id).unwrap()
}

/// The place of the first that is pending.
#[tactic(auto, using(crate::proofs::Finding::finding))]
pub(crate) fn first_pending(list: &[Unfinished]) -> Option<usize>
    ensures { MatchOption result (find spec.is_pending list.now ≡ None) (λ i. (i < length list.now) × ((d : Entry) → find spec.is_pending list.now ≡ Some (slice_index_or list.now i d))) }
{
    for (i, entry) in list.iter().enumerate() {
        if entry.progress.is_pending() {
            return Some(i);
        }
    }
    None
}

/// Takes a request off, and makes those pending that wait for it.
pub(crate) fn take_off(list: &mut Vec<Unfinished>, starts: &mut Starts, at: usize) -> Unfinished
    requires place { at < length list.old.items }
    requires ids { index.AreAscending list.old.items }
    requires indexed { index.Indexes list.old.items starts.old }
    ensures value { (d : Entry) → result ≡ slice_index_or list.old.items at d }
    ensures rest { list.new.items ≡ map (steps.freed (result ∷ [])) (remove list.old.items at) }
    ensures capacity { vec_capacity list.new ≡ vec_capacity list.old }
    ensures indexed { index.Indexes list.new.items starts.new }
{
    let entry = list.remove(at);
    starts.remove(entry.id);
    free(list, starts, &entry);
    entry
}

/// Takes off those that no worker has, and drops the others.
pub(crate) fn empty(list: &mut Vec<Unfinished>, starts: &mut Starts)
    requires { length list.old.items ≤ 64 }
    ensures rest { list.new.items ≡ map steps.mark_dropped (filter spec.is_busy list.old.items) }
    ensures capacity { vec_capacity list.new ≡ vec_capacity list.old }
    ensures indexed { index.Indexes list.new.items starts.new }
{
    keep_busy(list);
    mark_dropped(list.as_mut_slice());
    refill(list.as_slice(), starts);
}

/// Makes the index anew.
fn refill(list: &[Unfinished], starts: &mut Starts)
    requires { length list.now ≤ 64 }
    ensures { index.Indexes list.now starts.new }
{
    starts.clear();
    for entry in list {
        mark(starts, entry);
    }
}

/// Takes one more request into the index.
fn mark(starts: &mut Starts, entry: &Unfinished)
    requires { length starts.old < 64 }
    ensures { (xs : List Entry) → index.Indexes xs starts.old → index.Indexes (xs ++ entry.now ∷ []) starts.new }
{
    if entry.has_start() {
        starts.insert(Mark {
            start: entry.request.start,
            count: entry.request.count,
            id: entry.id,
        });
    }
}

/// Takes off those that no worker has.
fn keep_busy(list: &mut Vec<Unfinished>)
    ensures kept { list.new.items ≡ filter spec.is_busy list.old.items }
    ensures fewer { length list.new.items ≤ length list.old.items }
    ensures capacity { vec_capacity list.new ≡ vec_capacity list.old }
{
    list.retain(|entry| entry.progress.is_busy());
}

/// Drops each.
fn mark_dropped(list: &mut [Unfinished])
    ensures { list.new ≡ map steps.mark_dropped list.old }
{
    for entry in list.iter_mut() {
        entry.progress = entry.progress.dropped();
    }
}

/// Makes those pending that were blocked and start where this one ends.
fn free(list: &mut Vec<Unfinished>, starts: &Starts, leaving: &Unfinished)
    requires ids { index.AreAscending list.old.items }
    requires indexed { index.Indexes list.old.items starts.now }
    ensures freed { list.new.items ≡ map (steps.freed (leaving.now ∷ [])) list.old.items }
    ensures capacity { vec_capacity list.new ≡ vec_capacity list.old }
{
    free_by(list.as_mut_slice(), starts, leaving);
}

/// Makes those pending that were blocked and start where this one ends. The index finds them.
fn free_by(list: &mut [Unfinished], starts: &Starts, leaving: &Unfinished)
    requires ids { index.AreAscending list.old }
    requires indexed { index.Indexes list.old starts.now }
    ensures { list.new ≡ map (steps.freed (leaving.now ∷ [])) list.old }
{
    if leaving.has_start() {
        let end = leaving.request.start as u128 + leaving.request.count as u128;
        wake(list, starts.starting_at(end));
    }
}

/// Makes those of these marks pending that were blocked.
fn wake(list: &mut [Unfinished], marks: &[Mark])
    requires { index.AreAscending list.old }
    ensures { list.new ≡ map (index.woken marks.now) list.old }
{
    for mark in marks {
        wake_one(list, mark.id);
    }
}

/// Makes the one of this id pending if it was blocked.
fn wake_one(list: &mut [Unfinished], id: u32)
    requires { index.AreAscending list.old }
    ensures { list.new ≡ map (steps.change_one id index.unblocked) list.old }
{
    match position(list, id) {
        Some(at) => {
            let entry = &mut list[at];
            entry.progress = entry.progress.unblocked();
        }
        None => {}
    }
}
