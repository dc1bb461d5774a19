//! Rounds, up to Close.
ghost use Rattle.std.specs.Prelude.{◌≡◌, ◌≢◌, ◌≤◌, true, false, List, Bool, Some, None, Ok, Err, OnOk, OnErr, is_some};
ghost use Rattle.vm_host.specs.Counts.{Rose};
ghost use Rattle.vm_host.specs.Leaves.{Takes, TakesSome};
ghost use Rattle.vm_state.specs.declared.run_state.Why.TheVariants as why;
ghost use Rattle.vm_table.specs.Rounds.{IsSolo};
ghost use Rattle.vm_orders.specs.Ending.{entry_limit};
ghost use Rattle.vm_solo.specs.Ending.{IsCutShort};
ghost use Rattle.vm_solo.specs.Played.{HasPlayed, WentOn};
ghost use Rattle.vm_solo.specs.Playing as plays;
ghost use Rattle.vm_solo.specs.Rounds.{IsNew, PlaysRound};

use crate::crew::Crew;
use std::alloc::Global;
use vm_control::OutFault;
use vm_host::{Gate, Host, Image, Sink};
use vm_law::OutOfMemory;

/// From so many entries on control ends a run.
const ENTRY_LIMIT: u64 = 40_000_000;

impl<I: Image + Drop> Crew<I> {
    /// A round: each actor, in the order of the passes' numbers, takes its turn and then does its work outside. Control's work
    /// outside is left from its first failure on.
    ///
    /// On `OutOfMemory` the round stops where memory was wanted, and the board notes that.
    pub fn round<H: Host, S: Sink, G: Gate>(
        &mut self,
        alloc: Global,
        host: &mut H,
        console: &mut S,
        gate: &G,
    ) -> Result<(), OutOfMemory>
        ensures continues { plays.Continues self.old.board self.new.board }
        ensures plays { OnOk result (PlaysRound self.old self.new) }
        ensures fed { OnOk result (self.new.board.starved ≡ self.old.board.starved) }
        ensures starved { OnErr result (self.new.board.starved ≡ true) }
        ensures writes { plays.Writes self.old.control self.new.control (S.seen console.old) (S.seen console.new) }
        ensures whole { OnOk result (self.new.board.state.closed ≡ true → self.new.fault ≡ None → self.new.control.wrote ≡ self.new.board.state.console) }
        ensures host { host.new ≡ host.old }
        ensures keeps { plays.KeepsFirst self.old.fault self.new.fault }
        ensures cause { plays.Causes self.old.fault self.new.fault (S.seen console.old).faults (S.seen console.new).faults }
    {
        self.is_sound();
        self.play_control(alloc, host, console)?;
        for cpu in 0..self.runners.len() {
            self.play_runner(alloc, gate, cpu)?;
        }
        for k in 0..self.workers.len() {
            self.play_worker(alloc, gate, k)?;
        }
        Ok(())
    }

    /// Whether the run isn't ended.
    fn is_going(&self) -> bool
        ensures { result ≡ plays.is_going self.now.board.state }
    {
        self.board.run().ended().is_none()
    }

    /// Rounds until the run is ended, or so many entries stand that control ends it.
    fn play_to_limit<H: Host, S: Sink, G: Gate>(
        &mut self,
        alloc: Global,
        host: &mut H,
        console: &mut S,
        gate: &G,
    ) -> Result<(), OutOfMemory>
        requires played { HasPlayed self.old }
        ensures went { WentOn self.old self.new (S.seen console.old) (S.seen console.new) }
        ensures host { host.new ≡ host.old }
        ensures played { OnOk result (HasPlayed self.new) }
        ensures late { OnOk result (plays.is_going self.new.board.state ≡ true → entry_limit ≤ self.new.board.state.entries) }
        ensures starved { OnErr result (self.new.board.starved ≡ true) }
    {
        'rounds: while self.is_going() && self.board.run().entries() < ENTRY_LIMIT {
            self.is_sound();
            self.round(alloc, host, console, gate)?;
        }
        Ok(())
    }

    /// Rounds until the run is ended.
    fn play_to_end<H: Host, S: Sink, G: Gate>(
        &mut self,
        alloc: Global,
        host: &mut H,
        console: &mut S,
        gate: &G,
    ) -> Result<(), OutOfMemory>
        requires played { HasPlayed self.old }
        requires late { plays.is_going self.old.board.state ≡ true → entry_limit ≤ self.old.board.state.entries }
        ensures went { WentOn self.old self.new (S.seen console.old) (S.seen console.new) }
        ensures host { host.new ≡ host.old }
        ensures played { OnOk result (HasPlayed self.new) }
        ensures ended { OnOk result (is_some self.new.board.state.ended ≡ true) }
        ensures starved { OnErr result (self.new.board.starved ≡ true) }
    {
        'rounds: while self.is_going() {
            self.is_sound();
            self.round(alloc, host, console, gate)?;
        }
        Ok(())
    }

    /// Rounds until the run, which has ended, is closed.
    fn play_to_close<H: Host, S: Sink, G: Gate>(
        &mut self,
        alloc: Global,
        host: &mut H,
        console: &mut S,
        gate: &G,
    ) -> Result<(), OutOfMemory>
        requires played { HasPlayed self.old }
        requires ended { is_some self.old.board.state.ended ≡ true }
        ensures went { WentOn self.old self.new (S.seen console.old) (S.seen console.new) }
        ensures host { host.new ≡ host.old }
        ensures played { OnOk result (HasPlayed self.new) }
        ensures closed { OnOk result (self.new.board.state.closed ≡ true) }
        ensures starved { OnErr result (self.new.board.starved ≡ true) }
    {
        'rounds: while !self.board.run().closed() {
            self.is_sound();
            self.round(alloc, host, console, gate)?;
        }
        Ok(())
    }

    /// Rounds until the run is closed.
    fn play_all<H: Host, S: Sink, G: Gate>(
        &mut self,
        alloc: Global,
        host: &mut H,
        console: &mut S,
        gate: &G,
    ) -> Result<(), OutOfMemory>
        requires played { HasPlayed self.old }
        ensures went { WentOn self.old self.new (S.seen console.old) (S.seen console.new) }
        ensures host { host.new ≡ host.old }
        ensures played { OnOk result (HasPlayed self.new) }
        ensures closed { OnOk result (self.new.board.state.closed ≡ true) }
        ensures starved { OnErr result (self.new.board.starved ≡ true) }
    {
        self.play_to_limit(alloc, host, console, gate)?;
        self.play_to_end(alloc, host, console, gate)?;
        self.play_to_close(alloc, host, console, gate)
    }

    /// Plays a new crew's rounds until its run is closed.
    ///
    /// Where control's work outside fails, control ends the run at its next turn if it isn't ended, and the answer is that
    /// failure once the run is closed. `Memory` comes exactly where memory was wanted; the rounds stop there.
    pub fn play<H: Host, S: Sink, G: Gate>(
        &mut self,
        alloc: Global,
        host: &mut H,
        console: &mut S,
        gate: &G,
    ) -> Result<(), OutFault>
        requires new { IsNew self.old }
        ensures start { self.new.board.start ≡ self.old.board.start }
        ensures host { host.new ≡ host.old }
        ensures closed { result ≢ Err OutFault.Memory → self.new.board.state.closed ≡ true }
        ensures starved { result ≡ Err OutFault.Memory → self.new.board.starved ≡ true }
        ensures fed { result ≢ Err OutFault.Memory → self.new.board.starved ≡ false }
        ensures solo { result ≡ Ok tt → (calls : List Bool) × IsSolo self.old.board.start calls self.new.board.journal }
        ensures no_fault { result ≡ Ok tt → self.new.board.state.ended ≢ Some why.Outside }
        ensures part { TakesSome self.new.board.state.console (S.seen console.old) (S.seen console.new) }
        ensures all { result ≡ Ok tt → Takes self.new.board.state.console (S.seen console.old) (S.seen console.new) }
        ensures quiet { result ≡ Ok tt → (S.seen console.new).faults ≡ (S.seen console.old).faults }
        ensures cause { result ≡ Err OutFault.Sink → Rose (S.seen console.old).faults (S.seen console.new).faults }
        ensures later { (S.seen console.old).faults ≤ (S.seen console.new).faults }
        ensures cut { result ≡ Err OutFault.Sink → IsCutShort self.old.board.start self.new.board.journal self.new.board.state.ended }
        ensures only { result ≢ Err OutFault.Failed }
    {
        let played = self.play_all(alloc, host, console, gate);
        self.is_sound();
        match played {
            Err(OutOfMemory) => Err(OutFault::Memory),
            Ok(()) => match self.fault() {
                Some(fault) => Err(fault),
                None => Ok(()),
            },
        }
    }
}
