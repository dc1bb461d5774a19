//! A worker at the turnstile.
ghost use Rattle.std.specs.Prelude.{◌≡◌, ◌<◌, true, Some};
ghost use Rattle.vm_state.specs.declared.start.Start as start_type;
ghost use Rattle.vm_table.specs.History.{last_state};
ghost use Rattle.vm_board.specs.Going.{HasAddedOrNone, IsSamePass, place};
ghost use Rattle.vm_blkwork.specs.Going.{WorkerGoes, WorkerSits, WorkerStays, leaves};

use crate::worker::Worker;
use std::alloc::Global;
use std::sync::Wait;
use vm_board::{Board, Did, Went};
use vm_host::{Gate, Image};
use vm_turn::{Pass, Turnstile};

impl<I: Image + Drop> Worker<I> {
    /// A stay: it takes the board, takes its turn, gives the board back, and does its work outside.
    fn stay<R: Wait, G: Gate>(
        &mut self,
        rt: &R,
        alloc: Global,
        turnstile: &Turnstile<Board<I>>,
        pass: &mut Pass<Board<I>>,
        gate: &G,
    ) -> Did
        requires own { pass.old.turnstile ≡ turnstile.now }
        requires sits { WorkerSits I.seen pass.old.view self.old }
        ensures own { pass.new.turnstile ≡ pass.old.turnstile }
        ensures same { IsSamePass pass.old.view pass.new.view }
        ensures sits { WorkerSits I.seen pass.new.view self.new }
        ensures numbers { (self.new.disk ≡ self.old.disk) × (self.new.by ≡ self.old.by) }
        ensures stays { (start : start_type.Start) → pass.old.view.root ≡ Some start → WorkerStays I.seen start pass.old.view self.old pass.new.view self.new result }
    {
        let mut held = turnstile.take(rt, pass);
        held.value.is_sound();
        let did = self.turn(alloc, &mut held.value);
        held.value.is_sound();
        turnstile.give(pass, held);
        self.outside(gate);
        did
    }

    /// Stays of so many turns, each of which takes the board, takes the turn, gives the board back, and does the work outside.
    ///
    /// `stays` is above 0, the pass is of this turnstile, has the worker's number and holds nothing, and the worker fits the
    /// history that the pass has seen; all this is so afterwards. `Again` comes exactly where so many turns were taken, after
    /// none of which the worker leaves: then the pass added entries, or its list has no lawful entry after the history that the
    /// pass has seen. `Left` comes where that history leaves nothing to do for the worker, and `Starved` where memory was wanted,
    /// now or before; either ends the stays.
    pub fn go<R: Wait, G: Gate>(
        &mut self,
        rt: &R,
        alloc: Global,
        turnstile: &Turnstile<Board<I>>,
        pass: &mut Pass<Board<I>>,
        gate: &G,
        stays: u32,
    ) -> Went
        requires own { pass.old.turnstile ≡ turnstile.now }
        requires sits { WorkerSits I.seen pass.old.view self.old }
        requires some { 0 < stays }
        ensures own { pass.new.turnstile ≡ pass.old.turnstile }
        ensures same { IsSamePass pass.old.view pass.new.view }
        ensures sits { WorkerSits I.seen pass.new.view self.new }
        ensures numbers { (self.new.disk ≡ self.old.disk) × (self.new.by ≡ self.old.by) }
        ensures goes { (start : start_type.Start) → pass.old.view.root ≡ Some start → WorkerGoes I.seen start pass.old.view self.old pass.new.view self.new stays result }
        ensures again { (start : start_type.Start) → pass.old.view.root ≡ Some start → result ≡ Went.Again → HasAddedOrNone start self.old.by (place pass.old.view self.old) (place pass.new.view self.new) }
        ensures left { (start : start_type.Start) → pass.old.view.root ≡ Some start → result ≡ Went.Left → leaves (last_state start pass.new.view.seen) self.new ≡ true }
    {
        for _ in 0..stays {
            let did = self.stay(rt, alloc, turnstile, pass, gate);
            if let Some(went) = did.end() {
                return went;
            }
        }
        Went::Again
    }
}
