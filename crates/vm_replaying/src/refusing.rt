//! From what is wrong with a journal's file to the refusal that says so.
ghost use Rattle.std.specs.Prelude.{◌≡◌};
ghost use Rattle.vm_replaying.specs.Files.{journal_kind};
ghost use Rattle.vm_replaying.specs.Refusing.{after_decode};

use vm_journal::{JournalError, JournalKind};
use vm_law::Text;
use vm_status::{Kind, Refusal, Role};

/// The kind of a journal's fault.
fn journal_kind(kind: JournalKind) -> Kind
    ensures { result ≡ journal_kind kind }
{
    match kind {
        JournalKind::Gate => Kind::Gate,
        JournalKind::Magic => Kind::Magic,
        JournalKind::Short => Kind::Short,
        JournalKind::Tag => Kind::Tag,
        JournalKind::Value => Kind::Value,
        JournalKind::Trailing => Kind::Trailing,
    }
}

/// The refusal of a file that is no journal.
pub(crate) fn after_decode(name: Text, error: JournalError) -> Refusal
    ensures { result ≡ after_decode name error }
{
    match error {
        JournalError::Fault { at, kind } => Refusal::Bad {
            role: Role::Journal,
            name,
            place: at,
            kind: journal_kind(kind),
        },
        JournalError::Memory => Refusal::Memory,
    }
}
