//! Runs the guest of a start in threads.
ghost use Rattle.std.specs.Prelude.{◌≡◌, IfSome, IfNone};
ghost use Rattle.std.specs.Option.{option_copied};
ghost use Rattle.vm_board.specs.Homes.{AreFresh};
ghost use Rattle.vm_host.specs.Leaves.{LeavesHost};
ghost use Rattle.vm_host.specs.Told.{WhereTold};
ghost use Rattle.vm_outcome.specs.Causes.{HasCauses};
ghost use Rattle.vm_outcome.specs.Ends.{ending_status};
ghost use Rattle.vm_outcome.specs.Outside.{outside};
ghost use Rattle.vm_soloing.specs.Answers.{in_threads};
ghost use Rattle.vm_soloing.specs.Closing.{IsApart};
ghost use Rattle.vm_soloing.specs.Disks.{IsOwn};
ghost use Rattle.vm_soloing.specs.Keeping.{RunsFrom};
ghost use Rattle.vm_start.specs.Images.{AllStand, AreApart, AreFilesOf};
ghost use Rattle.vm_state.specs.Start.{IsSound};

use std::alloc::Global;
use std::sync::Wait;
use std::thread::Threads;
use vm_host::{Gate, Host, Sink};
use vm_law::Text;
use vm_outcome::{Ending, Finish, Kept};
use vm_soloing::{give_back, spent, unopened};
use vm_start::open_images;
use vm_state::Start;
use vm_status::Refusal;
use vm_table::Run;
use vm_threads::{Played, Starts, play_threads};

/// Plays the actors of a start with these images in threads until its run is closed, gives the disks' images back, and writes
/// the run's journal.
fn play<R, H, S, G>(
    rt: &R,
    alloc: Global,
    start: Start,
    images: Vec<H::Image>,
    journal: Option<&Text>,
    host: &mut H,
    console: &mut S,
    gate: &G,
) -> Finish
where
    R: Threads + Wait + Sync,
    H: Host,
    S: Sink,
    G: Gate + Sync,
    requires sound { IsSound start }
    requires fresh { AreFresh H.Image.seen start.disks images.items }
    requires apart { AreApart start.plan }
    requires stand { WhereTold (H.seen host.old).tells (AllStand (H.seen host.old).file start.plan) }
    requires journal { IsApart (option_copied journal) start.plan }
    ensures runs { IfSome result.kept (λ k. RunsFrom in_threads start (option_copied journal.entry)
        (outside (H.seen host.old) (H.seen host.new) (S.seen console.old) (S.seen console.new)) result.ending k) }
    ensures spent { IfNone result.kept (result.ending ≡ Ending.Refused Refusal.Memory) }
    ensures still { IfNone result.kept (host.new ≡ host.old) }
    ensures silent { IfNone result.kept (console.new ≡ console.old) }
{
    let played = match play_threads(rt, alloc, start, images, host, console, gate, Starts::Each) {
        Ok(played) => played,
        Err(_) => return spent(),
    };
    let Played { board, answer } = played;
    let (start, history, run, images) = board.into_parts();
    let ending = give_back(alloc, host, &start, &history, &run, images, journal, answer);
    Finish {
        ending,
        kept: Some(Kept {
            start,
            journal: history,
            run,
        }),
    }
}

/// Runs the guest of a start to its end, and writes the run's journal to a file if one is named. Where the host doesn't lend a
/// disk's file the start's first state is kept.
pub(crate) fn run_start<R, H, S, G>(
    rt: &R,
    alloc: Global,
    start: Start,
    journal: Option<&Text>,
    host: &mut H,
    console: &mut S,
    gate: &G,
) -> Finish
where
    R: Threads + Wait + Sync,
    H: Host,
    S: Sink,
    G: Gate + Sync,
    requires sound { IsSound start }
    requires apart { AreApart start.plan }
    requires disks { WhereTold (H.seen host.old).tells (AreFilesOf (H.seen host.old).file start) }
    requires journal { IsApart (option_copied journal) start.plan }
    ensures runs { IfSome result.kept (λ k. RunsFrom in_threads start (option_copied journal.entry)
        (outside (H.seen host.old) (H.seen host.new) (S.seen console.old) (S.seen console.new)) result.ending k) }
    ensures spent { IfNone result.kept (result.ending ≡ Ending.Refused Refusal.Memory) }
    ensures causes { HasCauses (ending_status result.ending) (H.seen host.old) (H.seen host.new) (S.seen console.old) (S.seen console.new) }
    ensures host { LeavesHost (IsOwn start.plan (option_copied journal.entry)) (H.seen host.old) (H.seen host.new) }
    ensures silent { IfNone result.kept (console.new ≡ console.old) }
{
    let run = match Run::begin(alloc, &start) {
        Ok(run) => run,
        Err(_) => return spent(),
    };
    match open_images(alloc, host, &start) {
        Ok(images) => {
            drop(run);
            play(rt, alloc, start, images, journal, host, console, gate)
        }
        Err(refusal) => unopened(alloc, start, run, refusal),
    }
}
