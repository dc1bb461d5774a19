//! Control.
ghost use Rattle.std.specs.Prelude.{◌≡◌, ◌≢◌, ◌≤◌, ◌<◌, ◌++◌, true, false, [], length, IfOk, OnOk, OnErr, Ok};
ghost use Rattle.vm_host.specs.Counts.{Counted};
ghost use Rattle.vm_state.specs.State.{State};
ghost use Rattle.vm_board.specs.Turn.{GoesOn, TakesTurn, some_entry};
ghost use Rattle.vm_control.specs.Fits.{ControlFits};
ghost use Rattle.vm_control.specs.Outside.{IsSink, WritesHeld};
ghost use Rattle.vm_control.specs.Turn.{turn_of};
ghost use Rattle.vm_control.specs.View.{new_control};

use crate::failures;
use crate::writing::write_out;
use std::alloc::Global;
use std::marker::Model;
use thiserror::Error;
use vm_board::{Board, Did};
use vm_event::Events;
use vm_host::{Host, Image, Sink};
use vm_law::{EndCause, Entry, OutOfMemory};
use vm_state::Start;
use vm_table::Run;

/// Why the work outside failed.
#[derive(Clone, Copy, Debug, PartialEq, Eq, Error)]
pub enum OutFault {
    /// The host failed. Its count of faults rose.
    #[error("the file system failed")]
    Failed,
    /// The console failed. Its count of faults rose.
    #[error("the console failed")]
    Sink,
    /// Memory was refused.
    #[error("out of memory")]
    Memory,
}

/// Control. It keeps what it took over of the run's console, of which it wrote a first part.
#[derive(Drop)]
pub struct Control {
    events: Events,
    console: Vec<u8>,
    written: usize,
}

impl Model for Control {
    ghost use Rattle.std.specs.Prelude.{◌≡◌, ◌≤◌, true, length, take, drop};
    ghost use Rattle.vm_event.specs.Events.{is_enabled, is_there};
    ghost use Rattle.vm_control.specs.View.{ControlView, control_code};

    ghost Value = { ControlView };

    ghost coded = { control_code };

    ghost view = { λ c. record {
      wrote = take c.written c.console.items;
      held = drop c.written c.console.items;
      failed = is_enabled c.events 0;
    } };

    ghost invariant = { λ c. (c.written ≤ length c.console.items) × (is_there c.events 0 ≡ true) };
}

impl Control {
    /// Control of a run at its start: it wrote nothing and holds nothing, and nothing failed.
    pub fn new(alloc: Global, _start: &Start) -> Result<Control, OutOfMemory>
        ensures { IfOk result (λ c. c ≡ new_control) }
    {
        Ok(Control {
            events: failures::none_yet(),
            console: Vec::new(alloc),
            written: 0,
        })
    }

    /// Takes over what the console has received since. Where memory is refused nothing changes.
    fn take_over(&mut self, run: &Run) -> Result<(), OutOfMemory>
        requires { ControlFits run.now.state self.old }
        ensures whole { OnOk result (self.new.wrote ++ self.new.held ≡ run.now.state.console) }
        ensures wrote { self.new.wrote ≡ self.old.wrote }
        ensures failed { self.new.failed ≡ self.old.failed }
        ensures refused { OnErr result (self.new ≡ self.old) }
    {
        let from = self.console.len();
        let console = run.console();
        if from < console.len() {
            self.console.extend_from_slice(&console[from..])?;
        }
        Ok(())
    }

    /// Adds the end of the run where the work outside failed and that is lawful, or else the first lawful entry of control's
    /// list, and says whether there is one.
    fn choose<I: Image + Drop>(&self, board: &mut Board<I>) -> bool
        requires room { 1 ≤ board.old.room }
        ensures goes_on { GoesOn board.old board.new (turn_of board.old.state self.now.failed) }
        ensures some { result ≡ some_entry (turn_of board.old.state self.now.failed) }
        ensures images { board.new.images ≡ board.old.images }
        ensures console { board.new.state.console ≡ board.old.state.console }
    {
        let end = Entry::End {
            why: EndCause::Outside,
        };
        if failures::any(&self.events) && board.run().may(0, &end) {
            board.add(0, end);
            return true;
        }
        board.add_first(0)
    }

    /// Whether nothing failed and no entry of control's list is lawful: then a turn adds nothing.
    #[inline(always)]
    fn rests(&self, run: &Run) -> bool
        ensures { result ≡ true → turn_of run.now.state self.now.failed ≡ [] }
    {
        !failures::any(&self.events) && run.control_rests()
    }

    /// Whether a turn has nothing to do: nothing failed, no entry of control's list is lawful, the console has received nothing
    /// since, the run isn't closed, and no memory was wanted.
    #[inline(always)]
    fn has_nothing<I: Image + Drop>(&self, board: &Board<I>) -> bool
        requires fits { ControlFits board.now.state self.now }
        ensures rests { result ≡ true → turn_of board.now.state self.now.failed ≡ [] }
        ensures whole { result ≡ true → self.now.wrote ++ self.now.held ≡ board.now.state.console }
        ensures open { result ≡ true → board.now.state.closed ≡ false }
        ensures fed { result ≡ true → board.now.starved ≡ false }
    {
        if board.starved()
            || board.run().closed()
            || self.console.len() < board.run().console().len()
        {
            return false;
        }
        self.rests(board.run())
    }

    /// Takes a turn.
    ///
    /// Where the work outside failed and the run isn't ended, it ends it by that cause; else it adds the first entry of its
    /// list that is lawful: Turn, Yield, Claim, Feed, Tick, End, Wish, Meet, Done, Close. It takes over what the console has
    /// received since. `Left` comes exactly where the run is closed then; else `Nothing` exactly where there is no such entry.
    /// At `Starved` memory was wanted, now or before, and board and control stay as they were, but that the board notes it.
    #[inline(always)]
    pub fn turn<I: Image + Drop>(&mut self, alloc: Global, board: &mut Board<I>) -> Did
        requires fits { ControlFits board.old.state self.old }
        ensures turn { TakesTurn board.old board.new board.new.state.closed (turn_of board.old.state self.old.failed) result }
        ensures images { board.new.images ≡ board.old.images }
        ensures starved { result ≡ Did.Starved → self.new ≡ self.old }
        ensures fits { ControlFits board.new.state self.new }
        ensures whole { result ≢ Did.Starved → self.new.wrote ++ self.new.held ≡ board.new.state.console }
        ensures wrote { self.new.wrote ≡ self.old.wrote }
        ensures failed { self.new.failed ≡ self.old.failed }
    {
        if self.has_nothing(board) {
            return Did::Nothing;
        }
        self.turn_fully(alloc, board)
    }

    /// The same whatever there is to do.
    #[inline(never)]
    fn turn_fully<I: Image + Drop>(&mut self, alloc: Global, board: &mut Board<I>) -> Did
        requires fits { ControlFits board.old.state self.old }
        ensures turn { TakesTurn board.old board.new board.new.state.closed (turn_of board.old.state self.old.failed) result }
        ensures images { board.new.images ≡ board.old.images }
        ensures starved { result ≡ Did.Starved → self.new ≡ self.old }
        ensures fits { ControlFits board.new.state self.new }
        ensures whole { result ≢ Did.Starved → self.new.wrote ++ self.new.held ≡ board.new.state.console }
        ensures wrote { self.new.wrote ≡ self.old.wrote }
        ensures failed { self.new.failed ≡ self.old.failed }
    {
        let rests = self.rests(board.run());
        if board.starved()
            || !rests && board.reserve(alloc, 1).is_err()
            || self.take_over(board.run()).is_err()
        {
            board.starve();
            return Did::Starved;
        }
        let added = !rests && self.choose(board);
        Did::of(board.run().closed(), added)
    }

    /// Writes the bytes that are held to a console, until it has taken all of them or fails, at one of them. A failure is
    /// remembered.
    pub fn write<S: Sink>(&mut self, console: &mut S) -> Result<(), OutFault>
        ensures writes { WritesHeld self.old self.new (S.seen console.old) (S.seen console.new) }
        ensures all { OnOk result (self.new.held ≡ []) }
        ensures some { OnErr result (0 < length self.new.held) }
        ensures same { OnOk result (self.new.failed ≡ self.old.failed) }
        ensures failed { OnErr result (self.new.failed ≡ true) }
        ensures cause { Counted (S.seen console.old).faults (S.seen console.new).faults result }
        ensures only { IsSink result }
        ensures fits { (s : State) → ControlFits s self.old → ControlFits s self.new }
    {
        let (count, result) = write_out(console, &self.console[self.written..]);
        self.written += count;
        match result {
            Ok(()) => Ok(()),
            Err(_) => {
                failures::note(&mut self.events);
                Err(OutFault::Sink)
            }
        }
    }

    /// The work outside: it writes the bytes that are held to the console. The host isn't called.
    pub fn outside<H: Host, S: Sink>(
        &mut self,
        _alloc: Global,
        _host: &mut H,
        console: &mut S,
    ) -> Result<(), OutFault>
        ensures host { _host.new ≡ _host.old }
        ensures writes { WritesHeld self.old self.new (S.seen console.old) (S.seen console.new) }
        ensures all { OnOk result (self.new.held ≡ []) }
        ensures some { OnErr result (0 < length self.new.held) }
        ensures same { OnOk result (self.new.failed ≡ self.old.failed) }
        ensures failed { OnErr result (self.new.failed ≡ true) }
        ensures cause { Counted (S.seen console.old).faults (S.seen console.new).faults result }
        ensures only { IsSink result }
        ensures fits { (s : State) → ControlFits s self.old → ControlFits s self.new }
    {
        self.write(console)
    }
}
