//! Replays a journal from the start that the words and the files give.
ghost use Rattle.std.specs.Prelude.{◌≡◌, ◌≤◌, ℕ, true, List, length, take, Some, Err, IfOk, IfSome, IfNone, IsNone};
ghost use Rattle.vm_host.specs.Leaves.{ReadsHost, TakesSome};
ghost use Rattle.vm_journal.specs.Replaying.{IsFirstBad};
ghost use Rattle.vm_outcome.specs.Causes.{HasCauses, HasSinkCauses, IsNamed};
ghost use Rattle.vm_outcome.specs.Ends.{ending_status};
ghost use Rattle.vm_outcome.specs.Outside.{StartsAt, outside, sent_in};
ghost use Rattle.vm_outcome.specs.Telling.{IsRun};
ghost use Rattle.vm_replaying.specs.Answers.{HistoryAnswers, JournalAnswers, ReplayAnswers};
ghost use Rattle.vm_replaying.specs.Keeping.{IsRunFrom};
ghost use Rattle.vm_start.specs.Causes.{NoneRefused};
ghost use Rattle.vm_start.specs.Start.{IsStartOf, StartOf};
ghost use Rattle.vm_status.specs.declared.refusal.Refusal.{Refusal as RefusalValue};
ghost use Rattle.vm_state.specs.Start.{IsSound};
ghost use Rattle.vm_state.specs.declared.start.Start.{Start as StartValue};
ghost use Rattle.vm_table.specs.History.{IsLegal, last_state};

use crate::journaling::journal_from;
use std::alloc::Global;
use vm_cmd::RunWords;
use vm_host::{Host, Sink};
use vm_journal::{Replayed, replay_front};
use vm_law::{Journal, OutOfMemory, Seq, Text};
use vm_outcome::{Ending, Finish, Kept};
use vm_start::read_start;
use vm_state::Start;
use vm_status::{Kind, Refusal, Role, write_all};
use vm_table::Run;

/// Replays a journal's file from the start that the words and the files give, and writes what its guest sent to the console.
///
/// The journal is read after the start. Where its file gives none, the start is kept with no entry; where an entry isn't lawful,
/// what stands before it is kept, and nothing is written.
pub fn replay<H: Host, S: Sink>(
    alloc: Global,
    words: &RunWords,
    journal: &Text,
    host: &mut H,
    console: &mut S,
) -> Finish
    requires some_limit { 1 ≤ words.now.limit }
    requires limit { words.now.limit ≤ 20000000 }
    ensures answers { ReplayAnswers (outside (H.seen host.old) (H.seen host.new) (S.seen console.old) (S.seen console.new))
        words.now journal.now result.ending result.kept }
    ensures run { IfSome result.kept (λ k. IsRun k) }
    ensures start { IfSome result.kept (λ k. IsStartOf (H.seen host.old).tells (H.seen host.old).file words.now (Some journal.now) k.start) }
    // A start that the files give is taken, unless the host or memory refuses.
    ensures begins { (start : StartValue) → (H.seen host.old).tells ≡ true → IsStartOf true (H.seen host.old).file words.now (Some journal.now) start
        → NoneRefused (H.seen host.old) (H.seen host.new) → StartsAt start result.ending result.kept }
    // And none is, where the files give none.
    ensures refuses { (e : RefusalValue) → (H.seen host.old).tells ≡ true → StartOf true (H.seen host.old).file words.now (Some journal.now) (Err e)
        → ((name : List ℕ) → e ≡ Refusal.HostFault name → ⊥) → IsNone result.kept }
    ensures causes { HasCauses (ending_status result.ending) (H.seen host.old) (H.seen host.new) (S.seen console.old) (S.seen console.new) }
    ensures named { (name : List ℕ) → result.ending ≡ Ending.Refused (Refusal.HostFault name) → IsNamed name (H.seen host.new) }
    ensures host { ReadsHost (H.seen host.old) (H.seen host.new) }
    ensures console { IfSome result.kept (λ k. TakesSome (sent_in k) (S.seen console.old) (S.seen console.new)) }
    ensures silent { IfNone result.kept (console.new ≡ console.old) }
{
    match read_start(alloc, host, words, Some(journal)) {
        Ok(start) => replay_from(alloc, start, journal.as_str(), host, console),
        Err(refusal) => Finish {
            ending: Ending::Refused(refusal),
            kept: None,
        },
    }
}

/// Replays a journal's file from a start. Where the file gives no journal, the start's first state is kept.
fn replay_from<H: Host, S: Sink>(
    alloc: Global,
    start: Start,
    journal: &str,
    host: &mut H,
    console: &mut S,
) -> Finish
    requires { IsSound start }
    ensures answers { JournalAnswers (outside (H.seen host.old) (H.seen host.new) (S.seen console.old) (S.seen console.new))
        journal.now result.ending result.kept }
    ensures run { IfSome result.kept (λ k. IsRunFrom start k) }
    ensures spent { IfNone result.kept (result.ending ≡ Ending.Refused Refusal.Memory) }
    ensures causes { HasCauses (ending_status result.ending) (H.seen host.old) (H.seen host.new) (S.seen console.old) (S.seen console.new) }
    ensures named { (name : List ℕ) → result.ending ≡ Ending.Refused (Refusal.HostFault name) → IsNamed name (H.seen host.new) }
    ensures host { ReadsHost (H.seen host.old) (H.seen host.new) }
    ensures console { IfSome result.kept (λ k. TakesSome (sent_in k) (S.seen console.old) (S.seen console.new)) }
    ensures silent { IfNone result.kept (console.new ≡ console.old) }
{
    let run = match Run::begin(alloc, &start) {
        Ok(run) => run,
        Err(_) => {
            return Finish {
                ending: Ending::Refused(Refusal::Memory),
                kept: None,
            };
        }
    };
    match journal_from(alloc, host, journal) {
        Ok(history) => {
            drop(run);
            replay_history(alloc, start, journal, history, console)
        }
        Err(refusal) => Finish {
            ending: Ending::Refused(refusal),
            kept: Some(Kept {
                start,
                journal: Seq::new(alloc),
                run,
            }),
        },
    }
}

/// Replays a history from a start, up to the first entry that isn't lawful. `name` is that of its file.
fn replay_history<S: Sink>(
    alloc: Global,
    start: Start,
    name: &str,
    history: Journal,
    console: &mut S,
) -> Finish
    requires { IsSound start }
    ensures answers { HistoryAnswers (S.seen console.old) (S.seen console.new) name.now history result.ending result.kept }
    ensures run { IfSome result.kept (λ k. IsRunFrom start k) }
    ensures spent { IfNone result.kept (result.ending ≡ Ending.Refused Refusal.Memory) }
    ensures causes { HasSinkCauses (ending_status result.ending) (S.seen console.old) (S.seen console.new) }
    ensures console { IfSome result.kept (λ k. TakesSome (sent_in k) (S.seen console.old) (S.seen console.new)) }
    ensures silent { IfNone result.kept (console.new ≡ console.old) }
{
    match replay_front(alloc, &start, &history) {
        Ok(replayed) => {
            let Replayed { run, bad } = replayed;
            match bad {
                None => write_replayed(start, history, run, console),
                Some(at) => keep_front(alloc, start, name, &history, run, at),
            }
        }
        Err(_) => Finish {
            ending: Ending::Refused(Refusal::Memory),
            kept: None,
        },
    }
}

/// Writes what the guest of a replayed history sent to the console.
fn write_replayed<S: Sink>(start: Start, history: Journal, run: Run, console: &mut S) -> Finish
    requires sound { IsSound start }
    requires legal { IsLegal start history }
    requires last { run.state ≡ last_state start history }
    ensures answers { (name : List ℕ) → HistoryAnswers (S.seen console.old) (S.seen console.new) name history result.ending result.kept }
    ensures run { IfSome result.kept (λ k. IsRunFrom start k) }
    ensures spent { IfNone result.kept (result.ending ≡ Ending.Refused Refusal.Memory) }
    ensures causes { HasSinkCauses (ending_status result.ending) (S.seen console.old) (S.seen console.new) }
    ensures console { IfSome result.kept (λ k. TakesSome (sent_in k) (S.seen console.old) (S.seen console.new)) }
    ensures silent { IfNone result.kept (console.new ≡ console.old) }
{
    let written = write_all(console, run.console());
    let kept = Some(Kept {
        start,
        journal: history,
        run,
    });
    match written {
        Ok(()) => Finish {
            ending: Ending::Done,
            kept,
        },
        Err(_) => Finish {
            ending: Ending::Refused(Refusal::Console),
            kept,
        },
    }
}

/// Keeps what stands before the first entry that isn't lawful, and the run after it.
fn keep_front(
    alloc: Global,
    start: Start,
    name: &str,
    history: &Journal,
    run: Run,
    at: u64,
) -> Finish
    requires sound { IsSound start }
    requires bad { IsFirstBad start history.now at }
    requires last { run.state ≡ last_state start (take at history.now) }
    ensures spent { IfNone result.kept (result.ending ≡ Ending.Refused Refusal.Memory) }
    ensures refused { IfSome result.kept (λ _. result.ending ≡ Ending.Refused (Refusal.Bad Role.Journal name.now at Kind.Entry)) }
    ensures run { IfSome result.kept (λ k. IsRunFrom start k) }
    ensures front { IfSome result.kept (λ k. k.journal ≡ take at history.now) }
{
    match front_of(alloc, name, history, at) {
        Ok((name, front)) => Finish {
            ending: Ending::Refused(Refusal::Bad {
                role: Role::Journal,
                name,
                place: at,
                kind: Kind::Entry,
            }),
            kept: Some(Kept {
                start,
                journal: front,
                run,
            }),
        },
        Err(_) => Finish {
            ending: Ending::Refused(Refusal::Memory),
            kept: None,
        },
    }
}

/// A copy of a journal's name, and of what stands before one of its entries.
fn front_of(
    alloc: Global,
    name: &str,
    history: &Journal,
    at: u64,
) -> Result<(Text, Journal), OutOfMemory>
    requires { at ≤ length history.now }
    ensures name { IfOk result (λ p. p.0 ≡ name.now) }
    ensures front { IfOk result (λ p. p.1 ≡ take at history.now) }
{
    let name = Text::from_text(alloc, name)?;
    let front = Seq::from_slice(alloc, &history.as_slice()[..at as usize])?;
    Ok((name, front))
}
