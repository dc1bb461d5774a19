//! The files of journals.
ghost use Rattle.vm_host.specs.Leaves.{ReadsHost};
ghost use Rattle.vm_outcome.specs.Causes.{HasHostCauses};
ghost use Rattle.vm_outcome.specs.Ends.{result_status};
ghost use Rattle.vm_outcome.specs.Files.{Reads};
ghost use Rattle.vm_replaying.specs.Files.{IsJournal, IsJournalFault};

use crate::refusing::after_decode;
use ckpt_store::load_gated;
use std::alloc::Global;
use vm_host::Host;
use vm_journal::{decode, entries_fit};
use vm_law::{Journal, Text};
use vm_outcome::after_load;
use vm_status::{Refusal, Role};

/// How many bytes the file of a journal has at most: 4 GiB.
const JOURNAL_LIMIT: u64 = 4_294_967_296;

/// The journal in a file. Of one whose gate is shut the first byte alone is read.
pub(crate) fn journal_from<H: Host>(
    alloc: Global,
    host: &mut H,
    file: &str,
) -> Result<Journal, Refusal>
    ensures reads { Reads (H.seen host.old).tells ((H.seen host.old).file file.now) Role.Journal file.now IsJournal IsJournalFault result }
    ensures causes { HasHostCauses file.now (result_status result) (H.seen host.old) (H.seen host.new) }
    ensures leaves { ReadsHost (H.seen host.old) (H.seen host.new) }
{
    let name = Text::from_text(alloc, file)?;
    let bytes = match load_gated(alloc, host, file, JOURNAL_LIMIT) {
        Ok(bytes) => bytes,
        Err(fault) => return Err(after_load(Role::Journal, name, JOURNAL_LIMIT, fault)),
    };
    match decode(alloc, &bytes) {
        Ok(journal) => {
            entries_fit(&journal);
            Ok(journal)
        }
        Err(error) => Err(after_decode(name, error)),
    }
}
