//! One scope for all actors.
ghost use Rattle.std.specs.Prelude.{◌≡◌, ◌≢◌, ◌+◌, ◌≤◌, false, All, length, vec_len, IfOk, OnErr};
ghost use Rattle.vm_threads.specs.Chair.{HasClosed, HasTurned};
ghost use Rattle.vm_threads.specs.Crew.{IsCrew, IsPlayed};

use crate::actor::Seated;
use crate::chair::Chair;
use crate::chair_turns::stay;
use crate::ending::{finish_all, go_each, join_all};
use crate::seats::{SeatedRunner, SeatedWorker};
use crate::starting::{Here, start_all};
use crate::starts::Starts;
use crate::stays::{Stays, first_stays};
use std::alloc::Global;
use std::sync::Wait;
use std::thread;
use std::thread::{Scope, Threads};
use vm_board::{Board, Went};
use vm_host::{Gate, Image, Sink};
use vm_law::OutOfMemory;
use vm_turn::Turnstile;

/// The turns of control, until it leaves or memory is wanted, and between them those of the actors that have no thread.
fn turns<R, I, G, S, A, B>(
    rt: &R,
    alloc: Global,
    turnstile: &Turnstile<Board<I>>,
    gate: &G,
    console: &mut S,
    chair: &mut Chair<I>,
    runners: &mut Vec<Here<A>>,
    workers: &mut Vec<Here<B>>,
) -> Went
where
    R: Wait,
    I: Image + Drop,
    G: Gate,
    S: Sink,
    A: Seated<I>,
    B: Seated<I>,
    requires mine { chair.old.pass.turnstile ≡ turnstile.now }
    requires runners { All (λ e. (A.pass_of e.actor).turnstile ≡ turnstile.now) runners.old.items }
    requires workers { All (λ e. (B.pass_of e.actor).turnstile ≡ turnstile.now) workers.old.items }
    ensures turned { HasTurned chair.old chair.new (S.seen console.old) (S.seen console.new) }
    ensures closed { result ≢ Went.Starved → HasClosed chair.new }
    ensures runners { All (λ e. (A.pass_of e.actor).turnstile ≡ turnstile.now) runners.new.items }
    ensures workers { All (λ e. (B.pass_of e.actor).turnstile ≡ turnstile.now) workers.new.items }
    ensures lengths { (vec_len runners.new ≡ vec_len runners.old) × (vec_len workers.new ≡ vec_len workers.old) }
{
    for _ in rt.forever() {
        let did = stay(chair, rt, alloc, turnstile, console);
        if let Some(went) = did.end() {
            return went;
        }
        go_each(rt, alloc, turnstile, gate, runners);
        go_each(rt, alloc, turnstile, gate, workers);
    }
    unreachable!()
}

/// Whether control or another wanted memory.
fn is_starved(control: Went, other: bool) -> bool
    ensures { result ≡ false → control ≢ Went.Starved }
{
    control == Went::Starved || other
}

/// What pass 0 does in the scope: starts the actors, takes its turns, and joins all passes. The answer also tells whether
/// anybody wanted memory. On `OutOfMemory` nothing was started.
fn crew<'s, E: 's, R, I, G, S>(
    scope: &Scope<'s, E>,
    rt: &'s R,
    alloc: Global,
    turnstile: &'s Turnstile<Board<I>>,
    gate: &'s G,
    console: &mut S,
    chair: Chair<I>,
    runners: Vec<SeatedRunner<I>>,
    workers: Vec<SeatedWorker<I>>,
    runner_stays: &'s [Stays],
    worker_stays: &'s [Stays],
) -> Result<(Chair<I>, bool), OutOfMemory>
where
    R: Threads + Wait + Sync,
    I: Image + Drop + Send + 's,
    G: Gate + Sync,
    S: Sink,
    requires { IsCrew turnstile.now chair runners.items workers.items (length runner_stays.now) (length worker_stays.now) }
    ensures played { IfOk result (λ r. IsPlayed chair (vec_len runners + vec_len workers) r.0 r.1 (S.seen console.old) (S.seen console.new)) }
    ensures idle { OnErr result (console.new ≡ console.old) }
{
    let mut runner_threads = Vec::with_capacity(alloc, runners.len())?;
    let mut worker_threads = Vec::with_capacity(alloc, workers.len())?;
    let mut runners_here = Vec::with_capacity(alloc, runners.len())?;
    let mut workers_here = Vec::with_capacity(alloc, workers.len())?;
    start_all(
        scope,
        rt,
        alloc,
        turnstile,
        gate,
        runner_stays,
        runners,
        &mut runner_threads,
        &mut runners_here,
    );
    start_all(
        scope,
        rt,
        alloc,
        turnstile,
        gate,
        worker_stays,
        workers,
        &mut worker_threads,
        &mut workers_here,
    );
    let mut chair = chair;
    let went = turns(
        rt,
        alloc,
        turnstile,
        gate,
        console,
        &mut chair,
        &mut runners_here,
        &mut workers_here,
    );
    let (chair, a) = finish_all(rt, alloc, turnstile, gate, chair, runners_here);
    let (chair, b) = finish_all(rt, alloc, turnstile, gate, chair, workers_here);
    let (chair, c) = join_all(rt, alloc, turnstile, gate, chair, runner_threads);
    let (chair, d) = join_all(rt, alloc, turnstile, gate, chair, worker_threads);
    Ok((chair, is_starved(went, a | b | c | d)))
}

/// One scope for all actors.
fn in_scope<R, I, G, S>(
    rt: &R,
    alloc: Global,
    turnstile: &Turnstile<Board<I>>,
    gate: &G,
    console: &mut S,
    chair: Chair<I>,
    runners: Vec<SeatedRunner<I>>,
    workers: Vec<SeatedWorker<I>>,
    runner_stays: &[Stays],
    worker_stays: &[Stays],
) -> Result<(Chair<I>, bool), OutOfMemory>
where
    R: Threads + Wait + Sync,
    I: Image + Drop + Send,
    G: Gate + Sync,
    S: Sink,
    requires { IsCrew turnstile.now chair runners.items workers.items (length runner_stays.now) (length worker_stays.now) }
    ensures played { IfOk result (λ r. IsPlayed chair (vec_len runners + vec_len workers) r.0 r.1 (S.seen console.old) (S.seen console.new)) }
    ensures idle { OnErr result (console.new ≡ console.old) }
{
    let (done, _console) = thread::scope(
        thread::scope_env(),
        rt,
        move |scope| -> (Result<(Chair<I>, bool), OutOfMemory>, &mut S)
            requires { IsCrew turnstile.now chair runners.items workers.items (length runner_stays.now) (length worker_stays.now) }
            ensures same { result.1.ghost_name ≡ console.entry.ghost_name }
            ensures played { IfOk result.0 (λ r. IsPlayed chair (vec_len runners + vec_len workers) r.0 r.1 (S.seen console.entry.now) (S.seen result.1.now)) }
            ensures idle { OnErr result.0 (result.1.now ≡ console.entry.now) }
        {
            let done = crew(
                scope,
                rt,
                alloc,
                turnstile,
                gate,
                &mut *console,
                chair,
                runners,
                workers,
                runner_stays,
                worker_stays,
            );
            (done, console)
        },
    );
    done
}

/// A word for each of so many actors.
fn words(alloc: Global, count: usize, starts: Starts) -> Result<Vec<Stays>, OutOfMemory>
    ensures { IfOk result (λ all. vec_len all ≡ count) }
{
    let mut all = Vec::new(alloc);
    for k in 0..count {
        all.push(first_stays(starts.has(k)))?;
    }
    Ok(all)
}

/// Plays all actors, each in a thread of its own or here. The answer also tells whether anybody wanted memory. On `OutOfMemory`
/// nothing was started.
pub(crate) fn run_crew<R, I, G, S>(
    rt: &R,
    alloc: Global,
    turnstile: &Turnstile<Board<I>>,
    gate: &G,
    console: &mut S,
    chair: Chair<I>,
    runners: Vec<SeatedRunner<I>>,
    workers: Vec<SeatedWorker<I>>,
    starts: Starts,
) -> Result<(Chair<I>, bool), OutOfMemory>
where
    R: Threads + Wait + Sync,
    I: Image + Drop + Send,
    G: Gate + Sync,
    S: Sink,
    requires chair { chair.pass.turnstile ≡ turnstile.now }
    requires runners { All (λ s. s.pass.turnstile ≡ turnstile.now) runners.items }
    requires workers { All (λ s. s.pass.turnstile ≡ turnstile.now) workers.items }
    ensures played { IfOk result (λ r. IsPlayed chair (vec_len runners + vec_len workers) r.0 r.1 (S.seen console.old) (S.seen console.new)) }
    ensures idle { OnErr result (console.new ≡ console.old) }
{
    let runner_words = words(alloc, runners.len(), starts)?;
    let worker_words = words(alloc, workers.len(), starts)?;
    in_scope(
        rt,
        alloc,
        turnstile,
        gate,
        console,
        chair,
        runners,
        workers,
        &runner_words,
        &worker_words,
    )
}
