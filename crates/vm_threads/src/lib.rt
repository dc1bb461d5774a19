//! All actors of a run, each in a thread of its own.
//!
//! [`play_threads`] puts the board (`vm_board`) into a turnstile (`vm_turn`) and splits a pass off pass 0 for the runner of each
//! vCPU (`vm_vcpu`) and each worker of a block device (`vm_blkwork`). Each of them with its pass is one value, which goes into a
//! thread and takes its turns at the turnstile there, in whatever order the threads come to it. Pass 0, control's
//! (`vm_control`), stays with the caller: it takes its turns, writes the console between them, and also takes the turns of each
//! actor whose thread couldn't be started. Once the run is closed every actor leaves, the passes are joined, and the turnstile
//! gives the board back.
//!
//! The board's type says that its journal is a legal history in which each pass added what it adds in an orderly turn. So that
//! holds of a run in threads whatever way they interleave; no contract says that a thread runs, or that two of them run at once.
#![tactic(auto)]

mod actor;
mod chair;
mod chair_turns;
mod crew;
mod ending;
mod making;
mod played;
mod playing;
mod seating;
mod seats;
mod starting;
mod starts;
mod stays;

pub use played::Played;
pub use playing::play_threads;
pub use starts::Starts;
