//! Starting actors in threads.
ghost use Rattle.std.specs.Prelude.{◌≡◌, ◌+◌, ◌<◌, ◌≤◌, ◌++◌, ◌∷◌, [], All, length, vec_len, vec_capacity, IfOk, IfErr};

use crate::actor::{SamePass, Seated, work};
use crate::stays::{Stays, once_each, stays_now};
use std::alloc::Global;
use std::sync::Wait;
use std::thread::{PromisedHandle, Scope};
use vm_board::{Board, Went};
use vm_host::{Gate, Image};
use vm_turn::Turnstile;

pub(crate) type Handle<'t, I, A> = PromisedHandle<(A, Went), SamePass<'t, I>>;

/// An actor with no thread of its own, and what its turns came to last.
#[derive(Drop)]
pub(crate) struct Here<A> {
    pub(crate) actor: A,
    pub(crate) went: Went,
}

/// Starts a thread for the actor, or keeps it here after one stay: where its word says 1 already, or no thread can be made.
fn start<'s, E: 's, R, I, G, A>(
    scope: &Scope<'s, E>,
    rt: &'s R,
    alloc: Global,
    turnstile: &'s Turnstile<Board<I>>,
    gate: &'s G,
    stays: &'s Stays,
    actor: A,
) -> Result<Handle<'s, I, A>, Here<A>>
where
    R: Wait + Sync,
    I: Image + Drop + Send,
    G: Gate + Sync,
    A: Seated<I> + Send + 's,
    requires { (A.pass_of actor).turnstile ≡ turnstile.now }
    ensures there { IfOk result (λ h. (h.promise.turnstile.now ≡ turnstile.now) × (h.promise.number ≡ (A.pass_of actor).view.number)) }
    ensures here { IfErr result (λ e. ((A.pass_of e.actor).turnstile ≡ turnstile.now) × ((A.pass_of e.actor).view.number ≡ (A.pass_of actor).view.number)) }
{
    if stays_now(stays) == 1 {
        let (actor, went) = work(rt, alloc, turnstile, gate, stays, actor);
        return Err(Here { actor, went });
    }
    let promise = SamePass {
        turnstile,
        number: actor.number(),
    };
    match scope.spawn_with(
        promise,
        move || work(rt, alloc, turnstile, gate, stays, actor),
    ) {
        Ok(handle) => Ok(handle),
        Err(refused) => {
            once_each(stays);
            let (actor, went) = (refused.value)();
            Err(Here { actor, went })
        }
    }
}

/// A push where there is room.
fn push_within<T: Drop>(list: &mut Vec<T>, item: T)
    requires { vec_len list.old < vec_capacity list.old }
    ensures items { list.new.items ≡ list.old.items ++ item ∷ [] }
    ensures len { vec_len list.new ≡ vec_len list.old + 1 }
    ensures room { vec_capacity list.old ≤ vec_capacity list.new }
{
    let pushed = list.push(item).is_ok();
    prove!(pushed);
}

/// Puts what was started into its list.
fn keep<'t, I: Image + Drop, A: Seated<I>>(
    turnstile: &Turnstile<Board<I>>,
    started: Result<Handle<'t, I, A>, Here<A>>,
    there: &mut Vec<Handle<'t, I, A>>,
    here: &mut Vec<Here<A>>,
)
    requires handle { IfOk started (λ h. h.promise.turnstile.now ≡ turnstile.now) }
    requires kept { IfErr started (λ e. (A.pass_of e.actor).turnstile ≡ turnstile.now) }
    requires room { (vec_len there.old < vec_capacity there.old) × (vec_len here.old < vec_capacity here.old) }
    requires there { All (λ h. h.promise.turnstile.now ≡ turnstile.now) there.old.items }
    requires here { All (λ e. (A.pass_of e.actor).turnstile ≡ turnstile.now) here.old.items }
    ensures count { vec_len there.new + vec_len here.new ≡ vec_len there.old + vec_len here.old + 1 }
    ensures most { (vec_len there.new ≤ vec_len there.old + 1) × (vec_len here.new ≤ vec_len here.old + 1) }
    ensures room { (vec_capacity there.old ≤ vec_capacity there.new) × (vec_capacity here.old ≤ vec_capacity here.new) }
    ensures there { All (λ h. h.promise.turnstile.now ≡ turnstile.now) there.new.items }
    ensures here { All (λ e. (A.pass_of e.actor).turnstile ≡ turnstile.now) here.new.items }
{
    match started {
        Ok(handle) => push_within(there, handle),
        Err(kept) => push_within(here, kept),
    }
}

/// Starts a thread for each actor, or keeps it here. Each has a word of its own.
pub(crate) fn start_all<'s, E: 's, R, I, G, A>(
    scope: &Scope<'s, E>,
    rt: &'s R,
    alloc: Global,
    turnstile: &'s Turnstile<Board<I>>,
    gate: &'s G,
    words: &'s [Stays],
    actors: Vec<A>,
    there: &mut Vec<Handle<'s, I, A>>,
    here: &mut Vec<Here<A>>,
)
where
    R: Wait + Sync,
    I: Image + Drop + Send,
    G: Gate + Sync,
    A: Seated<I> + Send + 's,
    requires mine { All (λ a. (A.pass_of a).turnstile ≡ turnstile.now) actors.items }
    requires words { vec_len actors ≤ length words.now }
    requires room { (vec_len there.old + vec_len actors ≤ vec_capacity there.old) × (vec_len here.old + vec_len actors ≤ vec_capacity here.old) }
    requires there { All (λ h. h.promise.turnstile.now ≡ turnstile.now) there.old.items }
    requires here { All (λ e. (A.pass_of e.actor).turnstile ≡ turnstile.now) here.old.items }
    ensures count { vec_len there.new + vec_len here.new ≡ vec_len there.old + vec_len here.old + vec_len actors }
    ensures there { All (λ h. h.promise.turnstile.now ≡ turnstile.now) there.new.items }
    ensures here { All (λ e. (A.pass_of e.actor).turnstile ≡ turnstile.now) here.new.items }
{
    let mut k = 0;
    for actor in actors {
        let stays = &words[k];
        k += 1;
        let started = start(scope, rt, alloc, turnstile, gate, stays, actor);
        keep(turnstile, started, there, here);
    }
}
