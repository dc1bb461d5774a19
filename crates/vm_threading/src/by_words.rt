//! Runs the guest that the words and the files give in threads.
ghost use Rattle.std.specs.Prelude.{◌≡◌, ◌≢◌, ◌≤◌, ℕ, true, List, Err, IfSome, IfNone, IsNone};
ghost use Rattle.vm_host.specs.Counts.{Rose};
ghost use Rattle.vm_host.specs.Leaves.{ReadsHost, TakesSome};
ghost use Rattle.vm_host.specs.Told.{WhereTold};
ghost use Rattle.vm_outcome.specs.Causes.{HasCauses, IsNamed};
ghost use Rattle.vm_outcome.specs.Ends.{ending_status};
ghost use Rattle.vm_outcome.specs.Outside.{IsEnd, StartsAt, outside, sent_in};
ghost use Rattle.vm_outcome.specs.Telling.{IsRun};
ghost use Rattle.vm_soloing.specs.Answers.{GuestAnswers, in_threads};
ghost use Rattle.vm_soloing.specs.Disks.{ChangesOwn, HoldDisks};
ghost use Rattle.vm_soloing.specs.Keeping.{NoneFailed};
ghost use Rattle.vm_start.specs.Causes.{NoneRefused};
ghost use Rattle.vm_start.specs.Start.{IsStartOf, StartOf};
ghost use Rattle.vm_status.specs.declared.refusal.Refusal.{Refusal as RefusalValue};
ghost use Rattle.vm_state.specs.declared.start.Start.{Start as StartValue};
ghost use Rattle.vm_table.specs.Turns.{IsOrderly};

use crate::running::run_start;
use std::alloc::Global;
use std::sync::Wait;
use std::thread::Threads;
use vm_cmd::RunWords;
use vm_host::{Gate, Host, Sink};
use vm_outcome::{Ending, Finish};
use vm_start::read_start;
use vm_status::Refusal;

/// Runs the guest of the start that the words and the files give to its end, each vCPU and each worker of a disk in a thread of
/// its own, and writes the run's journal to a file if one is named.
///
/// The first failure decides how it ends: a disk's file that the host doesn't lend, the console in the run, which then ends by
/// that unless it has ended, or the journal's file. A write of a disk's image that fails is none: the guest is told, and the
/// sector is in doubt. `rt` is what threads are started by; an actor whose thread can't be started is played by the caller's.
pub fn run<R, H, S, G>(
    rt: &R,
    alloc: Global,
    words: &RunWords,
    host: &mut H,
    console: &mut S,
    gate: &G,
) -> Finish
where
    R: Threads + Wait + Sync,
    H: Host,
    S: Sink,
    G: Gate + Sync,
    requires some_limit { 1 ≤ words.now.limit }
    requires limit { words.now.limit ≤ 20000000 }
    ensures answers { GuestAnswers in_threads (outside (H.seen host.old) (H.seen host.new) (S.seen console.old) (S.seen console.new))
        words.now result.ending result.kept }
    ensures run { IfSome result.kept (λ k. IsRun k) }
    ensures start { IfSome result.kept (λ k. IsStartOf (H.seen host.old).tells (H.seen host.old).file words.now words.now.journal k.start) }
    // A start that the files give is taken, unless the host or memory refuses.
    ensures begins { (start : StartValue) → (H.seen host.old).tells ≡ true → IsStartOf true (H.seen host.old).file words.now words.now.journal start
        → NoneRefused (H.seen host.old) (H.seen host.new) → StartsAt start result.ending result.kept }
    // And none is, where the files give none.
    ensures refuses { (e : RefusalValue) → (H.seen host.old).tells ≡ true → StartOf true (H.seen host.old).file words.now words.now.journal (Err e)
        → ((name : List ℕ) → e ≡ Refusal.HostFault name → ⊥) → IsNone result.kept }
    ensures orderly { IfSome result.kept (λ k. IsOrderly k.start k.journal) }
    ensures causes { HasCauses (ending_status result.ending) (H.seen host.old) (H.seen host.new) (S.seen console.old) (S.seen console.new) }
    ensures named { (name : List ℕ) → result.ending ≡ Ending.Refused (Refusal.HostFault name) → IsNamed name (H.seen host.new) }
    ensures files { ChangesOwn words.now (H.seen host.old) (H.seen host.new) }
    // Where the run came to its end, each disk's file follows its history.
    ensures disks { IsEnd (ending_status result.ending) → WhereTold (H.seen host.old).tells
        (IfSome result.kept (λ k. HoldDisks (H.seen host.old).file (H.seen host.new).file k)) }
    // Where no image came back with a failure, no call of one failed, and no sector is in doubt.
    ensures sound_images { IsEnd (ending_status result.ending) → (Rose (H.seen host.old).image_faults (H.seen host.new).image_faults → ⊥)
        → (ending_status result.ending ≢ 8) × IfSome result.kept (λ k. NoneFailed k) }
    ensures doubted { ending_status result.ending ≡ 8 → Rose (H.seen host.old).image_faults (H.seen host.new).image_faults }
    ensures console { IfSome result.kept (λ k. TakesSome (sent_in k) (S.seen console.old) (S.seen console.new)) }
    ensures silent { IfNone result.kept (console.new ≡ console.old) }
{
    let journal = words.journal.as_ref();
    match read_start(alloc, host, words, journal) {
        Ok(start) => run_start(rt, alloc, start, journal, host, console, gate),
        Err(refusal) => Finish {
            ending: Ending::Refused(refusal),
            kept: None,
        },
    }
}
