//! Replays of the two journals, and of what is wrong with them.

use crate::journals::{meeting, writing};
use crate::starts::{meeting_start, writing_start};
use std::alloc::Global;
use std::test::Fail;
use vm_journal::{
    History, HistoryError, JournalKind, ReplayError, decode, encode, replay, replay_bytes,
    replay_front,
};
use vm_law::{Entry, Journal, Signed};
use vm_state::{Answer, Said, Sample, Why};
use vm_table::{Run, Tally};

/// The history that bytes spell from the start of the meeting on.
fn meeting_history(alloc: Global, bytes: &[u8]) -> Result<History, HistoryError> {
    match meeting_start(alloc) {
        Ok(start) => replay_bytes(alloc, &start, bytes),
        Err(_) => Err(HistoryError::Memory),
    }
}

/// The history that bytes spell from the start of the write on.
fn writing_history(alloc: Global, bytes: &[u8]) -> Result<History, HistoryError> {
    match writing_start(alloc) {
        Ok(start) => replay_bytes(alloc, &start, bytes),
        Err(_) => Err(HistoryError::Memory),
    }
}

/// Why bytes aren't replayed from the start of the meeting on.
fn refusal(alloc: Global, bytes: &[u8]) -> Option<HistoryError> {
    match meeting_history(alloc, bytes) {
        Ok(_) => None,
        Err(error) => Some(error),
    }
}

/// The place of the first bad entry of a journal from the start of the meeting on, by `replay`.
fn bad_place(alloc: Global, journal: &Journal) -> Option<u64> {
    let Ok(start) = meeting_start(alloc) else {
        return None;
    };
    match replay(alloc, &start, journal) {
        Err(ReplayError::BadEntry { at }) => Some(at),
        _ => None,
    }
}

/// The same by `replay_front`, where so many entries stand before it.
fn bad_place_behind(alloc: Global, journal: &Journal) -> Option<u64> {
    let Ok(start) = meeting_start(alloc) else {
        return None;
    };
    match replay_front(alloc, &start, journal) {
        Ok(front) => {
            let entries = front.run.entries();
            front.bad.filter(|at| *at == entries)
        }
        Err(_) => None,
    }
}

/// The journal of the meeting.
fn meeting_journal(alloc: Global) -> Result<Journal, Fail> {
    Ok(decode(alloc, meeting())?)
}

/// Whether the run came to its end, with so many entries and instructions.
fn is_over(run: &Run, entries: u64, executed: u64) -> bool {
    run.closed()
        && run.ended() == Some(Why::Finished)
        && run.entries() == entries
        && run.executed() == executed
        && run.console().is_empty()
}

/// Whether vCPU 1 noted 0 and then vCPU 0 noted 2.
fn notes_both(answer: &Answer) -> bool {
    match answer.samples.as_slice() {
        [first, second] => {
            *first == Sample { cpu: 1, ran: 0 } && *second == Sample { cpu: 0, ran: 2 }
        }
        _ => false,
    }
}

/// Whether the rendezvous was answered so, and the wait was met.
fn says_both(answers: &[Answer]) -> bool {
    match answers {
        [first, second] => notes_both(first) && second.said == Said::Met,
        _ => false,
    }
}

/// Whether a journal's bytes are these.
fn spells(alloc: Global, journal: &Journal, bytes: &[u8]) -> Result<bool, Fail> {
    let spelled = encode(alloc, journal)?;
    Ok(spelled.as_slice() == bytes)
}

#[test]
fn two_vcpus_meet(rt: HostRuntime) -> Result<(), Fail> {
    let History { journal, run } = meeting_history(rt.alloc(), meeting())?;
    assert!(rt; is_over(&run, 25, 4));
    assert!(rt; says_both(run.answers()));
    assert!(rt; spells(rt.alloc(), &journal, meeting())?);
    Ok(())
}

/// Whether one request of disk 0 was finished, and left a sector in doubt.
fn is_in_doubt(run: &Run) -> bool {
    run.drive_count() == 1
        && run.tally(0)
            == Tally {
                finished: 1,
                cancelled: 0,
                queued: 0,
                doubt: 1,
            }
}

/// Whether the guest sees what it wrote, and the image hasn't changed.
fn is_written(run: &Run) -> bool {
    if run.drive_count() != 1 {
        return false;
    }
    let seen = run.drive(0).bytes.as_slice().get(..5);
    let kept = run.image(0).bytes.as_slice().get(..5);
    seen == Some([0xBB, 0, 0, 0, 0xD0].as_slice()) && kept == Some([0; 5].as_slice())
}

#[test]
fn a_write_fails(rt: HostRuntime) -> Result<(), Fail> {
    let History { journal: _, run } = writing_history(rt.alloc(), writing())?;
    assert!(rt; is_over(&run, 22, 11));
    assert!(rt; is_in_doubt(&run));
    assert!(rt; is_written(&run));
    Ok(())
}

// Close stands twice.
#[test]
fn nothing_follows_close(rt: HostRuntime) -> Result<(), Fail> {
    let mut journal = meeting_journal(rt.alloc())?;
    journal.push(Signed {
        by: 0,
        entry: Entry::Close,
    })?;
    assert!(rt; bad_place(rt.alloc(), &journal) == Some(25));
    Ok(())
}

// vCPU 1 took its turn, vCPU 0 didn't yet, and vCPU 1 enters.
#[test]
fn nobody_enters_a_meeting(rt: HostRuntime) -> Result<(), Fail> {
    let mut journal = meeting_journal(rt.alloc())?;
    assert!(rt; journal.len() > 9);
    journal.set(
        9,
        Signed {
            by: 2,
            entry: Entry::Enter { cpu: 1, grant: 1 },
        },
    );
    assert!(rt; bad_place_behind(rt.alloc(), &journal) == Some(9));
    Ok(())
}

// One byte too few, one too many, and another start's journal.
#[test]
fn what_is_wrong_is_told(rt: HostRuntime) -> Result<(), Fail> {
    let (last, front) = meeting().split_last().ok_or("empty")?;
    assert_eq!(rt; *last, 22);
    let short = refusal(rt.alloc(), front);
    assert!(rt;
        short
            == Some(HistoryError::Fault {
                at: 124,
                kind: JournalKind::Short
            })
    );
    let mut long = meeting().to_vec(rt.alloc())?;
    long.push(0)?;
    let long = refusal(rt.alloc(), long.as_slice());
    assert!(rt;
        long == Some(HistoryError::Fault {
            at: 125,
            kind: JournalKind::Trailing
        })
    );
    let other = refusal(rt.alloc(), writing());
    assert!(rt; other == Some(HistoryError::BadEntry { at: 5 }));
    Ok(())
}
