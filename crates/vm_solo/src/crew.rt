//! The crew.
ghost use Rattle.std.specs.Prelude.{◌≡◌, true, false, [], map, Some, IfOk};
ghost use Rattle.vm_state.specs.Start.{IsSound, boot};
ghost use Rattle.vm_board.specs.Board.{IsBoard};
ghost use Rattle.vm_board.specs.Homes.{AreFresh};
ghost use Rattle.vm_control.specs.View.{new_control};
ghost use Rattle.vm_solo.specs.Fits.{IsCrew};
ghost use Rattle.vm_solo.specs.New.{AreNewActors};
ghost use Rattle.vm_solo.specs.Home.{AreAllHome};
ghost use Rattle.vm_solo.specs.Rounds.{IsNew};

use crate::making::actors_of;
use std::alloc::Global;
use std::marker::Model;
use vm_blkwork::Worker;
use vm_board::Board;
use vm_control::{Control, OutFault};
use vm_host::Image;
use vm_law::{Journal, OutOfMemory};
use vm_state::Start;
use vm_table::Run;
use vm_vcpu::Runner;

/// All actors of a run.
#[derive(Drop)]
pub struct Crew<I: Image + Drop> {
    pub(crate) board: Board<I>,
    pub(crate) control: Control,
    pub(crate) runners: Vec<Runner>,
    pub(crate) workers: Vec<Worker<I>>,
    /// The first failure of control's work outside.
    pub(crate) fault: Option<OutFault>,
}

impl<I: Image + Drop> Model for Crew<I> {
    ghost use Rattle.vm_solo.specs.View.{CrewView, crew_code};
    ghost use Rattle.vm_solo.specs.Fits.{IsCrew};

    ghost Value = { CrewView I };

    ghost coded = { crew_code I.code };

    ghost view = { λ c. record {
      board = c.board;
      control = c.control;
      runners = c.runners.items;
      workers = c.workers.items;
      fault = c.fault;
    } };

    ghost invariant = { λ c. IsCrew I.seen (record {
      board = c.board;
      control = c.control;
      runners = c.runners.items;
      workers = c.workers.items;
      fault = c.fault;
    }) };
}

impl<I: Image + Drop> Crew<I> {
    /// A crew at its start, with the image of each disk, of which each reads, where it tells its bytes, as the start's disk, and
    /// has no counts yet. The images are at home.
    ///
    /// `OutOfMemory` comes where memory was wanted; what was given is dropped then.
    pub fn make(alloc: Global, start: Start, images: Vec<I>) -> Result<Crew<I>, OutOfMemory>
        requires sound { IsSound start }
        requires fresh { AreFresh I.seen start.disks images.items }
        ensures start { IfOk result (λ c. c.board.start ≡ start) }
        ensures new { IfOk result (λ c. IsNew c) }
        ensures images { IfOk result (λ c. c.board.images ≡ map Some images.items) }
    {
        let control = Control::new(alloc, &start)?;
        let board = Board::make(alloc, start, images)?;
        let (runners, workers) = actors_of(alloc, board.run())?;
        Ok(Crew::begin(board, control, runners, workers))
    }

    /// A crew of a board at its start, of new control and of new actors.
    fn begin(
        board: Board<I>,
        control: Control,
        runners: Vec<Runner>,
        workers: Vec<Worker<I>>,
    ) -> Crew<I>
        requires control { control ≡ new_control }
        requires state { board.state ≡ boot board.start }
        requires journal { board.journal ≡ [] }
        requires fed { board.starved ≡ false }
        requires actors { AreNewActors board.state.machine runners.items workers.items }
        ensures board { result.board ≡ board }
        ensures new { IsNew result }
    {
        board.is_sound();
        Crew {
            board,
            control,
            runners,
            workers,
            fault: None,
        }
    }

    /// What holds of every crew: its board is sound, there is an actor for each pass, and each fits.
    pub fn is_sound(&self)
        ensures { IsCrew I.seen self.now }
    {
        let _board = &self.board;
    }

    /// The board.
    pub fn board(&self) -> &Board<I>
        ensures { result.now ≡ self.now.board }
    {
        &self.board
    }

    /// The first failure of control's work outside, or none.
    pub fn fault(&self) -> Option<OutFault>
        ensures { result ≡ self.now.fault }
    {
        self.fault
    }

    /// The board alone.
    pub fn into_board(self) -> Board<I>
        ensures { result ≡ self.board }
    {
        let Crew {
            board,
            control: _,
            runners: _,
            workers: _,
            fault: _,
        } = self;
        board
    }

    /// The start, the journal, the run, and each image that is at home. Once the run is closed that is the image of each disk:
    /// it reads, where it tells its bytes, as the run's image of the disk, but in the sectors in doubt, and its count of
    /// failures is above 0 where a call on it failed.
    pub fn into_parts(self) -> (Start, Journal, Run, Vec<Option<I>>)
        ensures start { result.0 ≡ self.board.start }
        ensures journal { result.1 ≡ self.board.journal }
        ensures run { result.2.state ≡ self.board.state }
        ensures images { result.3.items ≡ self.board.images }
        ensures sound { IsBoard I.seen self.board }
        ensures home { self.board.state.closed ≡ true → AreAllHome I.seen self.board.start self.board.journal self.board.images }
    {
        self.into_board().into_parts()
    }
}
