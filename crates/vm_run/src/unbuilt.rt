//! What of the command line isn't built yet.
ghost use Rattle.std.specs.Prelude.{◌≡◌, ◌⊎◌, None};
ghost use Rattle.vm_run.specs.Words.{IsLater};

use std::alloc::Global;
use vm_law::Text;
use vm_outcome::{Ending, Finish};
use vm_status::{Kind, Refusal, Role};

/// The refusal of a word that isn't built, or want of memory.
fn refused(alloc: Global, word: &str) -> Refusal
    ensures { (result ≡ Refusal.Bad Role.Start word.now 0 Kind.Later) ⊎ (result ≡ Refusal.Memory) }
{
    match Text::from_text(alloc, word) {
        Ok(name) => Refusal::Bad {
            role: Role::Start,
            name,
            place: 0,
            kind: Kind::Later,
        },
        Err(_) => Refusal::Memory,
    }
}

/// Refuses what isn't built yet.
pub(crate) fn later(alloc: Global, word: &str) -> Finish
    ensures ending { IsLater word.now result.ending }
    ensures kept { result.kept ≡ None }
{
    Finish {
        ending: Ending::Refused(refused(alloc, word)),
        kept: None,
    }
}
