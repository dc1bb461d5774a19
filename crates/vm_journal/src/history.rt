//! The bytes of a journal, replayed.
ghost use Rattle.std.specs.Prelude.{◌≡◌, ℕ, List, IfOk, IsOkUnless};
ghost use Rattle.ckpt_store.specs.Gate.{IsShutOrWhole};
ghost use Rattle.vm_law.specs.declared.journal.Signed.{Signed};
ghost use Rattle.vm_state.specs.Start.{IsSound};
ghost use Rattle.vm_table.specs.History.{IsLegal, last_state};
ghost use Rattle.vm_laws.specs.Laws.{Laws};
ghost use Rattle.vm_journal.specs.Spelling.{spelling, AreEntries};
ghost use Rattle.vm_journal.specs.Refusing.{IsRefused};

use crate::fault::{JournalError, JournalKind};
use crate::reading::decode;
use crate::replaying::{ReplayError, replay};
use std::alloc::Global;
use thiserror::Error;
use vm_law::Journal;
use vm_state::Start;
use vm_table::Run;

/// A journal that was read, and the run after it.
#[derive(Drop)]
pub struct History {
    pub journal: Journal,
    pub run: Run,
}

/// Why bytes give no history.
#[derive(Clone, Copy, Debug, PartialEq, Eq, Error)]
pub enum HistoryError {
    /// The bytes spell no journal: their first fault, and the place of its byte, counted from 0.
    #[error("at {at}: {kind}")]
    Fault { at: u64, kind: JournalKind },
    /// They spell one, whose entry at this place, counted from 0, is the first that isn't lawful where it stands.
    #[error("the entry at {at} isn't lawful")]
    BadEntry { at: u64 },
    /// An allocation was refused.
    #[error("out of memory")]
    Memory,
}

/// The journal that the bytes spell, and the run after it, from a sound start on.
///
/// `Ok` comes exactly where the bytes, all of them, spell a journal each of whose entries is lawful where it stands. `Fault`
/// and `BadEntry` are those of [`decode`] and [`replay`].
pub fn replay_bytes(alloc: Global, start: &Start, bytes: &[u8]) -> Result<History, HistoryError>
    requires { IsSound start.now }
    ensures spelled { IfOk result (λ x. bytes.now ≡ spelling x.journal) }
    ensures legal { IfOk result (λ x. IsLegal start.now x.journal) }
    ensures run { IfOk result (λ x. x.run.state ≡ last_state start.now x.journal) }
    ensures laws { IfOk result (λ x. Laws start.now x.journal) }
    // What a crash left of a text that was saved behind its gate, and is replayed, is that text.
    ensures after_crash { IfOk result (λ _. (text : List ℕ) → IsShutOrWhole text bytes.now → bytes.now ≡ text) }
    // A legal history is replayed, unless memory runs out.
    ensures only { (journal : List Signed) → AreEntries journal → bytes.now ≡ spelling journal → IsLegal start.now journal
        → IsOkUnless result HistoryError.Memory }
    // Else it is told what is wrong, and where.
    ensures refused { IsRefused start.now bytes.now result }
{
    let journal = match decode(alloc, bytes) {
        Ok(journal) => journal,
        Err(JournalError::Fault { at, kind }) => return Err(HistoryError::Fault { at, kind }),
        Err(JournalError::Memory) => return Err(HistoryError::Memory),
    };
    match replay(alloc, start, &journal) {
        Ok(run) => Ok(History { journal, run }),
        Err(ReplayError::BadEntry { at }) => Err(HistoryError::BadEntry { at }),
        Err(ReplayError::Memory) => Err(HistoryError::Memory),
    }
}
