//! What a thread works with: an actor with its pass, whatever its kind.
ghost use Rattle.std.specs.Prelude.{◌≡◌, ◌≢◌, ◌<◌, false};
ghost use Rattle.vm_turn.specs.Known.{Known};
ghost use Rattle.vm_state.specs.declared.start.Start.{Start};

use crate::seats::{SeatedRunner, SeatedWorker};
use crate::stays::{Stays, stays_now};
use std::alloc::Global;
use std::sync::Wait;
use std::thread::Promise;
use vm_board::{Board, Went};
use vm_host::{Gate, Image};
use vm_turn::{Pass, Turnstile};

/// An actor with its pass. That it fits the history which the pass has seen is kept by its type.
pub(crate) trait Seated<I: Image + Drop>: Drop {
    ghost pass_of: { Self → Known Start };

    /// The pass's number.
    fn number(&self) -> u16
        ensures { result ≡ (pass_of self.now).view.number };

    /// So many turns at the turnstile.
    fn go<R: Wait, G: Gate>(
        &mut self,
        rt: &R,
        alloc: Global,
        turnstile: &Turnstile<Board<I>>,
        gate: &G,
        stays: u32,
    ) -> Went
        requires mine { (pass_of self.old).turnstile ≡ turnstile.now }
        requires some { 0 < stays }
        ensures same { (pass_of self.new).turnstile ≡ (pass_of self.old).turnstile }
        ensures number { (pass_of self.new).view.number ≡ (pass_of self.old).view.number };

    /// The pass, once the actor has ended.
    fn leave(self) -> Pass<Board<I>>
        ensures same { result ≡ pass_of self }
        ensures other { result.view.number ≢ 0 }
        ensures free { result.view.holds ≡ false };
}

impl<I: Image + Drop> Seated<I> for SeatedRunner<I> {
    ghost pass_of = { λ s. s.pass };

    fn number(&self) -> u16 {
        self.pass.number()
    }

    fn go<R: Wait, G: Gate>(
        &mut self,
        rt: &R,
        alloc: Global,
        turnstile: &Turnstile<Board<I>>,
        gate: &G,
        stays: u32,
    ) -> Went {
        self.runner
            .go(rt, alloc, turnstile, &mut self.pass, gate, stays)
    }

    fn leave(self) -> Pass<Board<I>> {
        let SeatedRunner { runner: _, pass } = self;
        pass
    }
}

impl<I: Image + Drop> Seated<I> for SeatedWorker<I> {
    ghost pass_of = { λ s. s.pass };

    fn number(&self) -> u16 {
        self.pass.number()
    }

    fn go<R: Wait, G: Gate>(
        &mut self,
        rt: &R,
        alloc: Global,
        turnstile: &Turnstile<Board<I>>,
        gate: &G,
        stays: u32,
    ) -> Went {
        self.worker
            .go(rt, alloc, turnstile, &mut self.pass, gate, stays)
    }

    fn leave(self) -> Pass<Board<I>> {
        let SeatedWorker { worker: _, pass } = self;
        pass
    }
}

/// Goes as often as the word says, again until the actor has left or memory was wanted, or once where the word says 1.
pub(crate) fn work<A: Seated<I>, R: Wait, I: Image + Drop, G: Gate>(
    rt: &R,
    alloc: Global,
    turnstile: &Turnstile<Board<I>>,
    gate: &G,
    stays: &Stays,
    actor: A,
) -> (A, Went)
    requires { (A.pass_of actor).turnstile ≡ turnstile.now }
    ensures same { (A.pass_of result.0).turnstile ≡ turnstile.now }
    ensures number { (A.pass_of result.0).view.number ≡ (A.pass_of actor).view.number }
{
    let mut actor = actor;
    let mut went = Went::Again;
    for _ in rt.forever() {
        let now = stays_now(stays);
        went = actor.go(rt, alloc, turnstile, gate, now);
        if now == 1 || went != Went::Again {
            break;
        }
    }
    (actor, went)
}

/// That what comes back is of this turnstile, and has this number.
#[derive(Clone, Copy)]
pub(crate) struct SamePass<'t, I: Image + Drop> {
    pub(crate) turnstile: &'t Turnstile<Board<I>>,
    pub(crate) number: u16,
}

impl<'t, I: Image + Drop, A: Seated<I>> Promise<(A, Went)> for SamePass<'t, I> {
    ghost kept_by = { λ p r. ((A.pass_of r.0).turnstile ≡ p.turnstile.now) × ((A.pass_of r.0).view.number ≡ p.number) };
}
