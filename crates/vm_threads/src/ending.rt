//! Ending actors, in a thread of their own or here, and joining their passes.
ghost use Rattle.std.specs.Prelude.{◌≡◌, ◌≢◌, ◌+◌, ◌<◌, All, vec_len};
ghost use Rattle.vm_threads.specs.Chair.{HasJoined};

use crate::actor::Seated;
use crate::chair::Chair;
use crate::chair_turns::join_one;
use crate::starting::{Handle, Here};
use std::alloc::Global;
use std::sync::Wait;
use std::thread::Threads;
use vm_board::{Board, Went};
use vm_host::{Gate, Image};
use vm_turn::Turnstile;

/// One turn of each actor that has no thread and hasn't left.
pub(crate) fn go_each<R, I, G, A>(
    rt: &R,
    alloc: Global,
    turnstile: &Turnstile<Board<I>>,
    gate: &G,
    here: &mut Vec<Here<A>>,
)
where
    R: Wait,
    I: Image + Drop,
    G: Gate,
    A: Seated<I>,
    requires here { All (λ e. (A.pass_of e.actor).turnstile ≡ turnstile.now) here.old.items }
    ensures here { All (λ e. (A.pass_of e.actor).turnstile ≡ turnstile.now) here.new.items }
    ensures count { vec_len here.new ≡ vec_len here.old }
{
    for k in 0..here.len() {
        let kept = &mut here[k];
        if kept.went == Went::Again {
            kept.went = kept.actor.go(rt, alloc, turnstile, gate, 1);
        }
    }
}

/// Goes on with an actor here, a turn at a time, until it has left or memory was wanted.
fn finish<R, I, G, A>(
    rt: &R,
    alloc: Global,
    turnstile: &Turnstile<Board<I>>,
    gate: &G,
    kept: Here<A>,
) -> (A, Went)
where
    R: Wait,
    I: Image + Drop,
    G: Gate,
    A: Seated<I>,
    requires { (A.pass_of kept.actor).turnstile ≡ turnstile.now }
    ensures mine { (A.pass_of result.0).turnstile ≡ turnstile.now }
    ensures ended { result.1 ≢ Went.Again }
{
    let Here { actor, went } = kept;
    let mut actor = actor;
    let mut went = went;
    for _ in rt.forever() {
        if went != Went::Again {
            return (actor, went);
        }
        went = actor.go(rt, alloc, turnstile, gate, 1);
    }
    unreachable!()
}

/// Joins the pass of an actor that has left, or that wanted memory.
fn join_ended<I: Image + Drop, A: Seated<I>>(
    chair: Chair<I>,
    turnstile: &Turnstile<Board<I>>,
    actor: A,
    went: Went,
) -> Chair<I>
    requires mine { chair.pass.turnstile ≡ turnstile.now }
    requires actor { (A.pass_of actor).turnstile ≡ turnstile.now }
    requires ended { went ≢ Went.Again }
    ensures { HasJoined chair 1 result }
{
    join_one(chair, turnstile, actor.leave())
}

/// Ends each actor that has no thread, and joins its pass. The answer also tells whether one wanted memory.
pub(crate) fn finish_all<R, I, G, A>(
    rt: &R,
    alloc: Global,
    turnstile: &Turnstile<Board<I>>,
    gate: &G,
    chair: Chair<I>,
    here: Vec<Here<A>>,
) -> (Chair<I>, bool)
where
    R: Wait,
    I: Image + Drop,
    G: Gate,
    A: Seated<I>,
    requires mine { chair.pass.turnstile ≡ turnstile.now }
    requires here { All (λ e. (A.pass_of e.actor).turnstile ≡ turnstile.now) here.items }
    ensures { HasJoined chair (vec_len here) result.0 }
{
    let mut chair = chair;
    let mut starved = false;
    for kept in here {
        let (actor, went) = finish(rt, alloc, turnstile, gate, kept);
        starved |= went == Went::Starved;
        chair = join_ended(chair, turnstile, actor, went);
    }
    (chair, starved)
}

/// Joins each thread, ends its actor where that hasn't left, and joins its pass. The answer also tells whether one wanted memory.
pub(crate) fn join_all<'s, R, I, G, A>(
    rt: &R,
    alloc: Global,
    turnstile: &Turnstile<Board<I>>,
    gate: &G,
    chair: Chair<I>,
    there: Vec<Handle<'s, I, A>>,
) -> (Chair<I>, bool)
where
    R: Threads + Wait,
    I: Image + Drop,
    G: Gate,
    A: Seated<I>,
    requires mine { chair.pass.turnstile ≡ turnstile.now }
    requires there { All (λ h. h.promise.turnstile.now ≡ turnstile.now) there.items }
    ensures { HasJoined chair (vec_len there.entry) result.0 }
{
    let mut chair = chair;
    let mut starved = false;
    for handle in there {
        let (actor, went) = handle.join(rt);
        let (actor, went) = finish(rt, alloc, turnstile, gate, Here { actor, went });
        starved |= went == Went::Starved;
        chair = join_ended(chair, turnstile, actor, went);
    }
    (chair, starved)
}
