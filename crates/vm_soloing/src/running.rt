//! Runs the guest of a start.
ghost use Rattle.std.specs.Prelude.{◌≡◌, [], None, IfSome, IfNone, IsSome};
ghost use Rattle.std.specs.Option.{IsSomeAnd, option_copied};
ghost use Rattle.vm_host.specs.Leaves.{LeavesHost};
ghost use Rattle.vm_host.specs.Told.{WhereTold};
ghost use Rattle.vm_outcome.specs.Causes.{HasCauses};
ghost use Rattle.vm_outcome.specs.Ends.{ending_status};
ghost use Rattle.vm_outcome.specs.Outside.{outside};
ghost use Rattle.vm_solo.specs.Rounds.{IsNew};
ghost use Rattle.vm_soloing.specs.Answers.{by_rounds};
ghost use Rattle.vm_soloing.specs.Closing.{IsApart};
ghost use Rattle.vm_soloing.specs.Disks.{IsOwn};
ghost use Rattle.vm_soloing.specs.Keeping.{IsRunFrom, RunsFrom};
ghost use Rattle.vm_start.specs.Images.{AllStand, AreApart, AreFilesOf};
ghost use Rattle.vm_state.specs.Start.{IsSound, boot};
ghost use Rattle.vm_board.specs.Homes.{AreFresh};

use crate::closing::give_back;
use std::alloc::Global;
use vm_host::{Gate, Host, Sink};
use vm_law::{Seq, Text};
use vm_outcome::{Ending, Finish, Kept};
use vm_solo::Crew;
use vm_start::open_images;
use vm_state::Start;
use vm_status::Refusal;
use vm_table::Run;

/// Want of memory before a run began: nothing is kept.
pub fn spent() -> Finish
    ensures ending { result.ending ≡ Ending.Refused Refusal.Memory }
    ensures kept { result.kept ≡ None }
{
    Finish {
        ending: Ending::Refused(Refusal::Memory),
        kept: None,
    }
}

/// Keeps a start of which nothing was run, with this refusal: the host didn't lend a disk's file, or memory for it was refused.
/// `run` is that of the start before its first entry.
pub fn unopened(alloc: Global, start: Start, run: Run, refusal: Refusal) -> Finish
    requires sound { IsSound start }
    requires begun { run.state ≡ boot start }
    ensures ending { result.ending ≡ Ending.Refused refusal }
    ensures kept { IsSomeAnd result.kept (λ k. IsRunFrom start k × (k.journal ≡ [])) }
{
    Finish {
        ending: Ending::Refused(refusal),
        kept: Some(Kept {
            start,
            journal: Seq::new(alloc),
            run,
        }),
    }
}

/// Lets the actors of a run take turns until it is closed, gives the disks' images back, and writes the run's journal.
fn play_crew<H: Host, S: Sink, G: Gate>(
    alloc: Global,
    crew: Crew<H::Image>,
    journal: Option<&Text>,
    host: &mut H,
    console: &mut S,
    gate: &G,
) -> Finish
    requires new { IsNew crew }
    requires apart { AreApart crew.board.start.plan }
    requires stand { WhereTold (H.seen host.old).tells (AllStand (H.seen host.old).file crew.board.start.plan) }
    requires journal { IsApart (option_copied journal) crew.board.start.plan }
    ensures runs { IfSome result.kept (λ k. RunsFrom by_rounds crew.board.start (option_copied journal.entry)
        (outside (H.seen host.old) (H.seen host.new) (S.seen console.old) (S.seen console.new)) result.ending k) }
    ensures kept { IsSome result.kept }
{
    let mut crew = crew;
    let end = crew.play(alloc, host, console, gate);
    let (start, history, run, images) = crew.into_parts();
    let ending = give_back(alloc, host, &start, &history, &run, images, journal, end);
    Finish {
        ending,
        kept: Some(Kept {
            start,
            journal: history,
            run,
        }),
    }
}

/// Lets the actors of a start with these images run it to its end.
fn run_crew<H: Host, S: Sink, G: Gate>(
    alloc: Global,
    start: Start,
    images: Vec<H::Image>,
    journal: Option<&Text>,
    host: &mut H,
    console: &mut S,
    gate: &G,
) -> Finish
    requires sound { IsSound start }
    requires fresh { AreFresh H.Image.seen start.disks images.items }
    requires apart { AreApart start.plan }
    requires stand { WhereTold (H.seen host.old).tells (AllStand (H.seen host.old).file start.plan) }
    requires journal { IsApart (option_copied journal) start.plan }
    ensures runs { IfSome result.kept (λ k. RunsFrom by_rounds start (option_copied journal.entry)
        (outside (H.seen host.old) (H.seen host.new) (S.seen console.old) (S.seen console.new)) result.ending k) }
    ensures spent { IfNone result.kept (result.ending ≡ Ending.Refused Refusal.Memory) }
    ensures still { IfNone result.kept (host.new ≡ host.old) }
    ensures silent { IfNone result.kept (console.new ≡ console.old) }
{
    match Crew::make(alloc, start, images) {
        Ok(crew) => play_crew(alloc, crew, journal, host, console, gate),
        Err(_) => spent(),
    }
}

/// Runs the guest of a start to its end, and writes the run's journal to a file if one is named. Where the host doesn't lend a
/// disk's file the start's first state is kept.
pub fn run_start<H: Host, S: Sink, G: Gate>(
    alloc: Global,
    start: Start,
    journal: Option<&Text>,
    host: &mut H,
    console: &mut S,
    gate: &G,
) -> Finish
    requires sound { IsSound start }
    requires apart { AreApart start.plan }
    requires disks { WhereTold (H.seen host.old).tells (AreFilesOf (H.seen host.old).file start) }
    requires journal { IsApart (option_copied journal) start.plan }
    ensures runs { IfSome result.kept (λ k. RunsFrom by_rounds start (option_copied journal.entry)
        (outside (H.seen host.old) (H.seen host.new) (S.seen console.old) (S.seen console.new)) result.ending k) }
    ensures spent { IfNone result.kept (result.ending ≡ Ending.Refused Refusal.Memory) }
    ensures causes { HasCauses (ending_status result.ending) (H.seen host.old) (H.seen host.new) (S.seen console.old) (S.seen console.new) }
    ensures host { LeavesHost (IsOwn start.plan (option_copied journal.entry)) (H.seen host.old) (H.seen host.new) }
    ensures silent { IfNone result.kept (console.new ≡ console.old) }
{
    let run = match Run::begin(alloc, &start) {
        Ok(run) => run,
        Err(_) => return spent(),
    };
    match open_images(alloc, host, &start) {
        Ok(images) => {
            drop(run);
            run_crew(alloc, start, images, journal, host, console, gate)
        }
        Err(refusal) => unopened(alloc, start, run, refusal),
    }
}
