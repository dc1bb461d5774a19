//! The start that words and files give.
ghost use Rattle.std.specs.Prelude.{◌≡◌, ◌≤◌, ℕ, List, true, Some, Err, IfOk, MatchResult};
ghost use Rattle.std.specs.Option.{option_copied};
ghost use Rattle.vm_host.specs.Leaves.{ReadsHost};
ghost use Rattle.vm_host.specs.Told.{WhereTold};
ghost use Rattle.vm_state.specs.Start.{IsSound};
ghost use Rattle.vm_state.specs.declared.start.Start.{Start};
ghost use Rattle.vm_status.specs.declared.refusal.Refusal.TheVariants.{HostFault, Memory};
ghost use Rattle.vm_status.specs.declared.refusal.Refusal.{Refusal};
ghost use Rattle.vm_start.specs.Answers.{UpToMemory};
ghost use Rattle.vm_start.specs.Causes.{HasReadCauses, NoneRefused};
ghost use Rattle.vm_start.specs.Images.{AreApart, AreFilesOf, IsDiskOf};
ghost use Rattle.vm_start.specs.Start.{PartsOf, StartOf, IsStartOf};

use crate::disks::read_disks;
use crate::names::check_names;
use crate::script::read_script;
use crate::setup::{Setup, read_setup};
use crate::unbuilt::{check_orders, check_words};
use std::alloc::Global;
use vm_cmd::RunWords;
use vm_host::Host;
use vm_law::{Script, Seq, Text};
use vm_state::{Origin, Start};
use vm_status::Refusal;

/// What is read for a start.
#[derive(Drop)]
pub(crate) struct Parts {
    pub(crate) setup: Setup,
    pub(crate) disks: Seq<Seq<u8>>,
    pub(crate) script: Script,
}

/// Reads FILE with its image, the disks in order, and the script.
fn read_parts<H: Host>(alloc: Global, host: &mut H, file: &str) -> Result<Parts, Refusal>
    ensures value { UpToMemory (PartsOf (H.seen host.old).tells (H.seen host.old).file file.now) result }
    ensures causes { HasReadCauses result (H.seen host.old) (H.seen host.new) }
    ensures leaves { ReadsHost (H.seen host.old) (H.seen host.new) }
{
    let setup = read_setup(alloc, host, file)?;
    let disks = read_disks(alloc, host, setup.plan.disks.as_slice())?;
    let script = read_script(alloc, host, &setup.plan)?;
    Ok(Parts {
        setup,
        disks,
        script,
    })
}

fn start_of<H: Host>(
    alloc: Global,
    host: &mut H,
    words: &RunWords,
    journal: Option<&Text>,
) -> Result<Start, Refusal>
    ensures start { UpToMemory (StartOf (H.seen host.old).tells (H.seen host.old).file words.now (option_copied journal.entry)) result }
    ensures causes { HasReadCauses result (H.seen host.old) (H.seen host.new) }
    ensures leaves { ReadsHost (H.seen host.old) (H.seen host.new) }
{
    check_words(alloc, words)?;
    let file = words.file.as_str();
    let parts = read_parts(alloc, host, file)?;
    check_names(alloc, file, &parts.setup.plan, journal)?;
    check_orders(alloc, parts.script.as_slice())?;
    let Parts {
        setup,
        disks,
        script,
    } = parts;
    let Setup { plan, image } = setup;
    Ok(Start {
        plan,
        origin: Origin::Flat(image),
        disks,
        script,
        limit: words.limit,
    })
}

/// The start of a command that is told these words, and writes its journal to the file `journal` or reads it from there.
///
/// The first refusal is answered, in this order: `--restore`, which isn't built yet (`later`, before anything is read); FILE,
/// a flat image where it begins as one, else a configuration with its text, its plan and its image; the disks in order; the
/// script; a name that is used twice (`twice`, at the second use in the order FILE, image, script, disks, journal); the first
/// order that isn't built yet (`later`). A file that isn't there is `Missing`, one at which the host failed `HostFault`. No file
/// changes. A run can begin from each start that is answered.
pub fn read_start<H: Host>(
    alloc: Global,
    host: &mut H,
    words: &RunWords,
    journal: Option<&Text>,
) -> Result<Start, Refusal>
    requires some_limit { 1 ≤ words.now.limit }
    requires limit { words.now.limit ≤ 20000000 }
    ensures start { UpToMemory (StartOf (H.seen host.old).tells (H.seen host.old).file words.now (option_copied journal.entry)) result }
    // Where no count rose, words and files that give a start give it.
    ensures complete { (start : Start) → (H.seen host.old).tells ≡ true → IsStartOf true (H.seen host.old).file words.now (option_copied journal.entry) start
        → NoneRefused (H.seen host.old) (H.seen host.new) → MatchResult result (λ s. s ≡ start) (λ e. e ≡ Memory) }
    // A start comes only where no refusal but a failure of the host is due.
    ensures exact { (e : Refusal) → (H.seen host.old).tells ≡ true → StartOf true (H.seen host.old).file words.now (option_copied journal.entry) (Err e)
        → IfOk result (λ s. (name : List ℕ) × (e ≡ HostFault name)) }
    ensures sound { IfOk result IsSound }
    ensures apart { IfOk result (λ start. AreApart start.plan) }
    // The journal's file is none of the disks'.
    ensures journal { (name : List ℕ) → option_copied journal.entry ≡ Some name → IfOk result (λ start. IsDiskOf start.plan name → ⊥) }
    ensures disks { IfOk result (λ start. WhereTold (H.seen host.old).tells (AreFilesOf (H.seen host.old).file start)) }
    ensures causes { HasReadCauses result (H.seen host.old) (H.seen host.new) }
    ensures leaves { ReadsHost (H.seen host.old) (H.seen host.new) }
{
    start_of(alloc, host, words, journal)
}
