//! The worker.
ghost use Rattle.std.specs.Prelude.{◌≡◌, ◌≢◌, ◌≤◌, ◌<◌, ◌+◌, false, Some, None, List};
ghost use Rattle.vm_law.specs.declared.journal.Signed.{Signed};
ghost use Rattle.vm_state.specs.declared.start.Start as start_type;
ghost use Rattle.vm_state.specs.Machine.{drive_count};
ghost use Rattle.vm_table.specs.Rounds as rounds;
ghost use Rattle.vm_table.specs.Rounds.{chosen};
ghost use Rattle.vm_table.specs.Turns.{first_lawful};
ghost use Rattle.vm_board.specs.Calls.{Adds, moves_image};
ghost use Rattle.vm_board.specs.Turn.{GoesOn, TakesTurn, some_entry};
ghost use Rattle.vm_blkwork.specs.Fits.{FitsSome, WorkerFits};
ghost use Rattle.vm_blkwork.specs.Outside.{GoneOutside, IsWaiting};
ghost use Rattle.vm_blkwork.specs.Turn.{back_of, is_left, owns, turn_of};

use crate::outside::Out;
use std::alloc::Global;
use vm_board::{Board, Did};
use vm_host::{Gate, Image};
use vm_law::Entry;
use vm_state::Holder;
use vm_table::Run;

/// A worker of a block device.
#[derive(Drop)]
pub struct Worker<I> {
    /// The disk, from 0.
    pub disk: u8,
    /// The worker's pass.
    pub by: u16,
    /// The disk's image, while it is out with this worker.
    pub out: Option<Out<I>>,
}

/// Whether the pass holds it.
fn is_its(holder: Option<Holder>, by: u16) -> bool
    ensures { result ≡ rounds.is_its by holder }
{
    match holder {
        Some(holder) => holder.by == by,
        None => false,
    }
}

impl<I: Image + Drop> Worker<I> {
    /// A worker of this disk with this pass. It has no image.
    pub fn new(disk: u8, by: u16) -> Worker<I>
        ensures { result ≡ record { disk = disk; by = by; out = None } }
    {
        Worker {
            disk,
            by,
            out: None,
        }
    }

    /// Whether the pass has a request of the disk, or its image.
    fn owns(&self, run: &Run) -> bool
        requires { self.now.disk < drive_count run.now.state.machine }
        ensures { result ≡ owns run.now.state self.now.by self.now.disk }
    {
        vm_disks::busy_of(&run.drive(self.disk).queue, self.by).is_some()
            || is_its(run.image(self.disk).holder, self.by)
    }

    /// Whether nothing is left to do for it: the run is closed, or it is ended and the worker owns nothing.
    fn leaves(&self, run: &Run) -> bool
        requires { self.now.disk < drive_count run.now.state.machine }
        ensures { result ≡ is_left run.now.state self.now.by self.now.disk }
    {
        run.closed() || (run.ended().is_some() && !self.owns(run))
    }

    /// Gives the image back where the call on it was made, and says whether that was so.
    fn bring_back(&mut self, board: &mut Board<I>) -> bool
        requires fits { WorkerFits I.seen board.old.start board.old.journal self.old }
        requires room { 1 ≤ board.old.room }
        ensures goes_on { GoesOn board.old board.new (back_of board.old.state self.old) }
        ensures back { result ≡ some_entry (back_of board.old.state self.old) }
        ensures room { board.old.room ≤ board.new.room + 1 }
        ensures fits { WorkerFits I.seen board.new.start board.new.journal self.new }
        ensures numbers { (self.new.disk ≡ self.old.disk) × (self.new.by ≡ self.old.by) }
        ensures waits { IsWaiting self.new.out }
    {
        board.is_sound();
        match self.out.take() {
            Some(
                Out {
                    id,
                    sector: _,
                    answer: Some(ok),
                    image,
                },
            ) => {
                board.give_image(self.by, self.disk, id, ok, image);
                true
            }
            out => {
                self.out = out;
                false
            }
        }
    }

    /// Takes the image out for a request.
    fn hold(&mut self, board: &mut Board<I>, disk: u8, id: u32)
        requires fits { WorkerFits I.seen board.old.start board.old.journal self.old }
        requires may { first_lawful board.old.state self.old.by ≡ Some (Entry.Hold disk id) }
        requires room { 1 ≤ board.old.room }
        ensures added { Adds board.old board.new (record { by = self.old.by; entry = Entry.Hold disk id }) }
        ensures fits { WorkerFits I.seen board.new.start board.new.journal self.new }
        ensures numbers { (self.new.disk ≡ self.old.disk) × (self.new.by ≡ self.old.by) }
        ensures waits { IsWaiting self.new.out }
    {
        board.is_sound();
        let (sector, image) = board.take_image(self.by, disk, id);
        self.out = Some(Out {
            id,
            sector,
            answer: None,
            image,
        });
    }

    /// Adds another entry than a Hold.
    fn add(&mut self, board: &mut Board<I>, entry: Entry)
        requires fits { WorkerFits I.seen board.old.start board.old.journal self.old }
        requires may { first_lawful board.old.state self.old.by ≡ Some entry }
        requires kind { moves_image entry ≡ false }
        requires waits { IsWaiting self.old.out }
        requires room { 1 ≤ board.old.room }
        ensures added { Adds board.old board.new (record { by = self.old.by; entry = entry }) }
        ensures fits { WorkerFits I.seen board.new.start board.new.journal self.new }
        ensures same { self.new ≡ self.old }
    {
        board.is_sound();
        board.add(self.by, entry);
    }

    /// Adds the first lawful entry of the worker's list, and says whether there is one. Where that is a Hold, the image goes
    /// out with the worker.
    fn choose(&mut self, board: &mut Board<I>) -> bool
        requires fits { WorkerFits I.seen board.old.start board.old.journal self.old }
        requires waits { IsWaiting self.old.out }
        requires room { 1 ≤ board.old.room }
        ensures goes_on { GoesOn board.old board.new (chosen board.old.state self.old.by) }
        ensures chosen { result ≡ some_entry (chosen board.old.state self.old.by) }
        ensures fits { WorkerFits I.seen board.new.start board.new.journal self.new }
        ensures numbers { (self.new.disk ≡ self.old.disk) × (self.new.by ≡ self.old.by) }
        ensures waits { IsWaiting self.new.out }
    {
        board.is_sound();
        let Some(entry) = board.run().first_lawful(self.by) else {
            return false;
        };
        match entry {
            Entry::Hold { disk, id } => self.hold(board, disk, id),
            entry => self.add(board, entry),
        }
        true
    }

    /// Takes a turn.
    ///
    /// It brings the image back where the call on it was made, and adds the first entry of its list that is lawful: Finish,
    /// Move, Hold, Begin, Pull. `Left` comes exactly where the run is closed then, or where it is ended and the worker owns
    /// nothing; else `Nothing` exactly where there is no such entry. At `Starved` memory was wanted, now or before, and board
    /// and worker stay as they were, but that the board notes it.
    pub fn turn(&mut self, alloc: Global, board: &mut Board<I>) -> Did
        requires fits { WorkerFits I.seen board.old.start board.old.journal self.old }
        ensures turn { TakesTurn board.old board.new (is_left board.new.state self.new.by self.new.disk) (turn_of board.old.state self.old) result }
        ensures starved { result ≡ Did.Starved → self.new ≡ self.old }
        ensures fits { WorkerFits I.seen board.new.start board.new.journal self.new }
        ensures numbers { (self.new.disk ≡ self.old.disk) × (self.new.by ≡ self.old.by) }
        ensures waits { result ≢ Did.Starved → IsWaiting self.new.out }
    {
        if board.starved() || board.reserve(alloc, 2).is_err() {
            board.starve();
            return Did::Starved;
        }
        let back = self.bring_back(board);
        let chosen = self.choose(board);
        board.is_sound();
        let leaves = self.leaves(board.run());
        Did::of(leaves, back || chosen)
    }

    /// Makes the call on the image where one is out and the call wasn't made yet: writes the sector for which it is out, or
    /// syncs it for a flush. The gate is called before a write.
    pub fn outside<G: Gate>(&mut self, gate: &G)
        requires { FitsSome I.seen self.old }
        ensures gone { GoneOutside I.seen self.old.out self.new.out }
        ensures numbers { (self.new.disk ≡ self.old.disk) × (self.new.by ≡ self.old.by) }
        ensures fits { (start : start_type.Start) (journal : List Signed) → WorkerFits I.seen start journal self.old → WorkerFits I.seen start journal self.new }
    {
        if let Some(mut out) = self.out.take() {
            out.call_once(gate, self.disk);
            self.out = Some(out);
        }
    }
}
