//! The turn and the work outside of each actor.
ghost use Rattle.std.specs.Prelude.{◌≡◌, ◌≢◌, ◌<◌, ◌+◌, ◌≤◌, length, true, false, None, OnOk, OnErr, is_some, ◌++◌};
ghost use Rattle.vm_host.specs.Counts.{Rose};
ghost use Rattle.vm_state.specs.Machine.{cpu_count};
ghost use Rattle.vm_state.specs.State.{State};
ghost use Rattle.vm_control.specs.Fits.{ControlFits};
ghost use Rattle.vm_solo.specs.Playing as plays;

use crate::crew::Crew;
use std::alloc::Global;
use vm_board::Did;
use vm_control::{Control, OutFault};
use vm_host::{Gate, Host, Image, Sink};
use vm_law::OutOfMemory;

/// An error where a turn wanted memory.
fn had_memory(did: Did) -> Result<(), OutOfMemory>
    ensures ok { OnOk result (did ≢ Did.Starved) }
    ensures wanted { OnErr result (did ≡ Did.Starved) }
{
    match did {
        Did::Starved => Err(OutOfMemory),
        Did::Added | Did::Nothing | Did::Left => Ok(()),
    }
}

/// Control's work outside, where it hasn't failed yet. Answers its first failure.
fn work_outside<H: Host, S: Sink>(
    control: &mut Control,
    fault: Option<OutFault>,
    alloc: Global,
    host: &mut H,
    console: &mut S,
) -> Option<OutFault>
    requires { control.old.failed ≡ is_some fault }
    ensures failed { control.new.failed ≡ is_some result }
    ensures fits { (s : State) → ControlFits s control.old → ControlFits s control.new }
    ensures writes { plays.Writes control.old control.new (S.seen console.old) (S.seen console.new) }
    ensures whole { result ≡ None → control.new.wrote ≡ control.old.wrote ++ control.old.held }
    ensures host { host.new ≡ host.old }
    ensures keeps { plays.KeepsFirst fault result }
    ensures cause { plays.Causes fault result (S.seen console.old).faults (S.seen console.new).faults }
{
    if fault.is_some() {
        return fault;
    }
    match control.outside(alloc, host, console) {
        Ok(()) => None,
        Err(fault) => Some(fault),
    }
}

impl<I: Image + Drop> Crew<I> {
    /// Control's turn, and its work outside, which is left from its first failure on.
    pub(crate) fn play_control<H: Host, S: Sink>(
        &mut self,
        alloc: Global,
        host: &mut H,
        console: &mut S,
    ) -> Result<(), OutOfMemory>
        ensures continues { plays.Continues self.old.board self.new.board }
        ensures plays { OnOk result (plays.PlaysControl self.old self.new) }
        ensures fed { OnOk result (self.new.board.starved ≡ self.old.board.starved) }
        ensures starved { OnErr result (self.new.board.starved ≡ true) }
        ensures writes { plays.Writes self.old.control self.new.control (S.seen console.old) (S.seen console.new) }
        ensures whole { OnOk result (self.new.fault ≡ None → self.new.control.wrote ≡ self.new.board.state.console) }
        ensures others { (self.new.runners ≡ self.old.runners) × (self.new.workers ≡ self.old.workers) }
        ensures host { host.new ≡ host.old }
        ensures keeps { plays.KeepsFirst self.old.fault self.new.fault }
        ensures cause { plays.Causes self.old.fault self.new.fault (S.seen console.old).faults (S.seen console.new).faults }
    {
        let did = self.control.turn(alloc, &mut self.board);
        self.board.is_sound();
        had_memory(did)?;
        self.fault = work_outside(&mut self.control, self.fault, alloc, host, console);
        Ok(())
    }

    /// The turn of a vCPU's runner, and its work outside.
    pub(crate) fn play_runner<G: Gate>(
        &mut self,
        alloc: Global,
        gate: &G,
        cpu: usize,
    ) -> Result<(), OutOfMemory>
        requires there { cpu < length self.old.runners }
        ensures continues { plays.Continues self.old.board self.new.board }
        ensures plays { OnOk result (plays.PlaysPass (1 + cpu) self.old self.new) }
        ensures shut { OnOk result (self.new.board.state.closed ≡ true → self.new.board.state ≡ self.old.board.state) }
        ensures fed { OnOk result (self.new.board.starved ≡ self.old.board.starved) }
        ensures starved { OnErr result (self.new.board.starved ≡ true) }
        ensures control { (self.new.control ≡ self.old.control) × (self.new.fault ≡ self.old.fault) }
        ensures runners { length self.new.runners ≡ length self.old.runners }
        ensures workers { self.new.workers ≡ self.old.workers }
    {
        let runner = &mut self.runners[cpu];
        let did = runner.turn(alloc, &mut self.board);
        self.board.is_sound();
        had_memory(did)?;
        runner.outside(gate);
        Ok(())
    }

    /// The turn of a worker, and its work outside.
    pub(crate) fn play_worker<G: Gate>(
        &mut self,
        alloc: Global,
        gate: &G,
        k: usize,
    ) -> Result<(), OutOfMemory>
        requires there { k < length self.old.workers }
        ensures continues { plays.Continues self.old.board self.new.board }
        ensures plays { OnOk result (plays.PlaysPass (1 + length self.old.runners + k) self.old self.new) }
        ensures shut { OnOk result (self.new.board.state.closed ≡ true → self.new.board.state ≡ self.old.board.state) }
        ensures fed { OnOk result (self.new.board.starved ≡ self.old.board.starved) }
        ensures starved { OnErr result (self.new.board.starved ≡ true) }
        ensures control { (self.new.control ≡ self.old.control) × (self.new.fault ≡ self.old.fault) }
        ensures runners { self.new.runners ≡ self.old.runners }
        ensures workers { length self.new.workers ≡ length self.old.workers }
    {
        let worker = &mut self.workers[k];
        let did = worker.turn(alloc, &mut self.board);
        self.board.is_sound();
        had_memory(did)?;
        worker.outside(gate);
        Ok(())
    }
}
