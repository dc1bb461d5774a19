//! The end of a run.
ghost use Rattle.std.specs.Prelude.{◌≡◌, ◌≢◌, ◌<◌, ℕ, List, length, true, false, Some, Err, OnOk, IfErr, IsErrOf};
ghost use Rattle.std.specs.Option.{option_copied};
ghost use Rattle.vm_board.specs.Homes.{has_failed};
ghost use Rattle.vm_host.specs.Counts.{HasCause, Rose};
ghost use Rattle.vm_host.specs.Leaves.{LeavesHost, WritesFile};
ghost use Rattle.vm_host.specs.Told.{WhereTold};
ghost use Rattle.vm_host.specs.declared.host.HostFault.TheVariants.{Missing};
ghost use Rattle.vm_journal.specs.Spelling.{spelling};
ghost use Rattle.vm_outcome.specs.Causes.{HasSaveCauses, IsNamed};
ghost use Rattle.vm_outcome.specs.Ends.{ending_status, result_status};
ghost use Rattle.vm_solo.specs.Home.{AreAllHome};
ghost use Rattle.vm_soloing.specs.Answers.{IsSaved};
ghost use Rattle.vm_soloing.specs.Closing.{ChangesOnly, Closes, FollowAll, HasJournalCauses, IsApart, IsUnsaved, Saves};
ghost use Rattle.vm_soloing.specs.Disks.{IsOwn};
ghost use Rattle.vm_start.specs.Images.{AllStand, AreApart};

use ckpt_store::save;
use std::alloc::Global;
use vm_control::OutFault;
use vm_host::{Host, HostFault};
use vm_journal::encode;
use vm_law::{Journal, Text};
use vm_outcome::{Ending, after_host, ending_of};
use vm_start::close_images;
use vm_state::Start;
use vm_status::Refusal;
use vm_table::Run;

/// Writes a journal to its file, so that a crash leaves the file refused or whole.
fn save_journal<H: Host>(
    alloc: Global,
    host: &mut H,
    name: &str,
    journal: &Journal,
) -> Result<(), HostFault>
    ensures saved { WhereTold (H.seen host.old).tells
        (OnOk result ((H.seen host.new).file name.now ≡ Some (spelling journal.now))) }
    ensures cause { HasCause name.now (H.seen host.old) (H.seen host.new) result }
    ensures not_missing { IsErrOf result Missing → ⊥ }
    ensures leaves { WritesFile name.now (H.seen host.old) (H.seen host.new) }
{
    let text = encode(alloc, journal)?;
    save(alloc, host, name, &text)
}

/// Writes a journal to the file of this name.
fn write_journal<H: Host>(
    alloc: Global,
    host: &mut H,
    name: &Text,
    history: &Journal,
) -> Result<(), Refusal>
    ensures saved { OnOk result (IsSaved (H.seen host.old) (H.seen host.new) (Some name.now) history.now) }
    ensures unsaved { IfErr result (λ r. IsUnsaved (Some name.now) (H.seen host.new) r) }
    ensures causes { HasSaveCauses (result_status result) (H.seen host.old) (H.seen host.new) }
    ensures host { ChangesOnly (Some name.now) (H.seen host.old) (H.seen host.new) }
{
    let copy = name.copy(alloc)?;
    match save_journal(alloc, host, name.as_str(), history) {
        Ok(()) => Ok(()),
        Err(fault) => Err(after_host(copy, fault)),
    }
}

/// Writes a journal to its file if one is named.
fn keep_journal<H: Host>(
    alloc: Global,
    host: &mut H,
    name: Option<&Text>,
    history: &Journal,
) -> Result<(), Refusal>
    ensures saved { OnOk result (IsSaved (H.seen host.old) (H.seen host.new) (option_copied name.entry) history.now) }
    ensures unsaved { IfErr result (λ r. IsUnsaved (option_copied name.entry) (H.seen host.new) r) }
    ensures causes { HasSaveCauses (result_status result) (H.seen host.old) (H.seen host.new) }
    ensures host { ChangesOnly (option_copied name.entry) (H.seen host.old) (H.seen host.new) }
{
    match name {
        Some(name) => write_journal(alloc, host, name, history),
        None => Ok(()),
    }
}

/// Writes the journal of a run that came to its end to its file if one is named, and answers how the run ended.
fn end_well<H: Host>(
    alloc: Global,
    host: &mut H,
    name: Option<&Text>,
    history: &Journal,
    run: &Run,
) -> Ending
    ensures saves { Saves (H.seen host.old) (H.seen host.new) (option_copied name.entry) history.now run.now.state result }
    ensures causes { HasJournalCauses (ending_status result) (H.seen host.old) (H.seen host.new) }
    ensures host { ChangesOnly (option_copied name.entry) (H.seen host.old) (H.seen host.new) }
{
    match keep_journal(alloc, host, name, history) {
        Ok(()) => ending_of(run),
        Err(refusal) => Ending::Refused(refusal),
    }
}

/// Writes the journal of a run whose console failed to its file if one is named. Its failure stands behind the console's.
fn end_unwritten<H: Host>(
    alloc: Global,
    host: &mut H,
    name: Option<&Text>,
    history: &Journal,
) -> Ending
    ensures ending { result ≡ Ending.Refused Refusal.Console }
    ensures causes { HasJournalCauses 9 (H.seen host.old) (H.seen host.new) }
    ensures host { ChangesOnly (option_copied name.entry) (H.seen host.old) (H.seen host.new) }
{
    let _kept = keep_journal(alloc, host, name, history);
    Ending::Refused(Refusal::Console)
}

/// Writes the journal of a run that is closed to its file if one is named, and answers how the run ended. The first
/// failure decides it.
fn close<H: Host>(
    alloc: Global,
    host: &mut H,
    name: Option<&Text>,
    history: &Journal,
    end: Result<(), OutFault>,
    run: &Run,
) -> Ending
    ensures closes { Closes (H.seen host.old) (H.seen host.new) (option_copied name.entry) history.now run.now.state end result }
    ensures causes { HasJournalCauses (ending_status result) (H.seen host.old) (H.seen host.new) }
    ensures host { ChangesOnly (option_copied name.entry) (H.seen host.old) (H.seen host.new) }
{
    match end {
        Ok(()) => end_well(alloc, host, name, history, run),
        Err(OutFault::Memory) => Ending::Refused(Refusal::Memory),
        Err(OutFault::Failed) => end_unwritten(alloc, host, name, history),
        Err(OutFault::Sink) => end_unwritten(alloc, host, name, history),
    }
}

/// Gives the images of a run's disks back to the host, writes its journal to its file if one is named, and answers how the run
/// ended. The first failure decides that.
///
/// `end` is the first failure of the run itself: `Sink` or `Failed` where its console failed, `Memory` where memory was wanted,
/// and then the images needn't be there, and no journal is written.
pub fn give_back<H: Host>(
    alloc: Global,
    host: &mut H,
    start: &Start,
    history: &Journal,
    run: &Run,
    images: Vec<Option<H::Image>>,
    journal: Option<&Text>,
    end: Result<(), OutFault>,
) -> Ending
    requires count { length images.items ≡ length start.now.plan.disks }
    requires home { end ≢ Err OutFault.Memory → AreAllHome H.Image.seen start.now history.now images.items }
    requires apart { AreApart start.now.plan }
    requires stand { WhereTold (H.seen host.old).tells (AllStand (H.seen host.old).file start.now.plan) }
    requires journal { IsApart (option_copied journal) start.now.plan }
    ensures closes { Closes (H.seen host.old) (H.seen host.new) (option_copied journal.entry) history.now run.now.state end result }
    ensures causes { HasJournalCauses (ending_status result) (H.seen host.old) (H.seen host.new) }
    ensures host { LeavesHost (IsOwn start.now.plan (option_copied journal.entry)) (H.seen host.old) (H.seen host.new) }
    // Where the run is closed each disk's file follows its history, and of its images one has failed where a call of one did.
    ensures disks { end ≢ Err OutFault.Memory → WhereTold (H.seen host.old).tells (FollowAll (H.seen host.new).file start.now history.now) }
    ensures failed { end ≢ Err OutFault.Memory → (d : ℕ) → d < length start.now.plan.disks → has_failed d history.now ≡ true
        → Rose (H.seen host.old).image_faults (H.seen host.new).image_faults }
{
    close_images(host, start, images);
    close(alloc, host, journal, history, end, run)
}
