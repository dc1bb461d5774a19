//! How a command ended, and what it keeps.
ghost use Rattle.std.specs.Prelude.{◌≡◌};
ghost use Rattle.vm_outcome.specs.Ends.{ending_status, why_status};

use vm_law::Journal;
use vm_state::{Start, Why};
use vm_status::Refusal;
use vm_table::Run;

/// A run that a command made or replayed.
#[derive(Drop)]
pub struct Kept {
    /// What it started from.
    pub start: Start,
    /// Its history.
    pub journal: Journal,
    /// The run after that history.
    pub run: Run,
}

/// How a command ended.
#[derive(Drop)]
pub enum Ending {
    /// A command without a run of its own did its work.
    Done,
    /// The run came to its end.
    Ran {
        /// For this reason. A guest's Stop tells its vCPU, its cause and its RIP.
        why: Why,
        /// Whether a sector of a disk is in doubt, since its last write failed.
        doubt: bool,
    },
    /// The log failed while it took the run's report.
    Untold,
    /// The command was refused, or the outside failed.
    Refused(Refusal),
}

/// The status of a run that ended so, where nothing outside failed.
fn why_status(why: Why, doubt: bool) -> u8
    ensures { result ≡ why_status why doubt }
{
    match why {
        Why::Finished => { if doubt { 8 } else { 0 } }
        Why::Stopped { .. } => 4,
        Why::Budget => 5,
        Why::Outside => 9,
    }
}

impl Ending {
    /// The exit status.
    ///
    /// | Status | It ended because |
    /// |---|---|
    /// | 0 | the guest's run finished, or a command without a run of its own did its work |
    /// | 2 | the words aren't those of a command |
    /// | 3 | a file isn't what the command asks for, or is named twice; or the command isn't built yet |
    /// | 4 | an instruction or a delivery stopped the run |
    /// | 5 | the run has spent its instructions |
    /// | 6 | the host failed |
    /// | 7 | no file has the name |
    /// | 8 | the run finished, and a sector of a disk is in doubt |
    /// | 9 | the console failed, or the log while it took the report |
    /// | 71 | memory was refused |
    pub fn status(&self) -> u8
        ensures { result ≡ ending_status self.now }
    {
        match self {
            Ending::Done => 0,
            Ending::Ran { why, doubt } => why_status(*why, *doubt),
            Ending::Untold => 9,
            Ending::Refused(refusal) => refusal.status(),
        }
    }
}

/// How the work of a command ended, and the run that it made or replayed.
#[derive(Drop)]
pub struct Finish {
    pub ending: Ending,
    pub kept: Option<Kept>,
}

/// What a command answers.
#[derive(Drop)]
pub struct Outcome {
    /// The exit status, which is the ending's.
    pub status: u8,
    /// How the command ended.
    pub ending: Ending,
    /// The run, where a start was made.
    pub kept: Option<Kept>,
}

impl Outcome {
    /// What a command answers that ended so.
    pub fn of(finish: Finish) -> Outcome
        ensures status { result.status ≡ ending_status finish.ending }
        ensures ending { result.ending ≡ finish.ending }
        ensures kept { result.kept ≡ finish.kept }
    {
        let Finish { ending, kept } = finish;
        let status = ending.status();
        Outcome {
            status,
            ending,
            kept,
        }
    }
}
