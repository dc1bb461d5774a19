//! Assembles the text of a file, and writes the image that it spells.
ghost use Rattle.std.specs.Prelude.{◌≡◌, Some, None, IfOk, IfErr, OnOk, IsErrOf};
ghost use Rattle.vm_law.specs.Image.{IsAllowed};
ghost use Rattle.vm_host.specs.declared.host.HostFault.TheVariants.{Missing};
ghost use Rattle.vm_host.specs.Told.{WhereTold};
ghost use Rattle.vm_host.specs.Counts.{HasCause};
ghost use Rattle.vm_host.specs.Crash.{Only};
ghost use Rattle.vm_host.specs.Leaves.{ReadsHost, WritesFile};
ghost use Rattle.vm_host.specs.Views.{SinkView};
ghost use Rattle.vm_outcome.specs.Causes.{HasCauses, HasHostCauses, HasSaveCauses};
ghost use Rattle.vm_outcome.specs.Ends.{ending_status, result_status};
ghost use Rattle.vm_outcome.specs.Files.{Reads};
ghost use Rattle.vm_assembling.specs.Answers.{AsmAnswers, IsUnwritten};
ghost use Rattle.vm_assembling.specs.Assembling.{IsAssembly, IsAssemblyFault, HoldsImage};

use crate::refusing::after_asm;
use ckpt_store::load;
use std::alloc::Global;
use vm_asm::{assemble, spelling_is_a_function};
use vm_host::{Host, HostFault};
use vm_image::write;
use vm_law::{FlatImage, Text};
use vm_outcome::{Ending, Finish, after_host, after_load};
use vm_status::{Refusal, Role};

/// How many bytes an assembler text has at most: 1 MiB.
const ASSEMBLY_LIMIT: u64 = 1_048_576;

/// Assembles the text of a file, and writes the image that it spells to another, or over it.
pub fn asm<H: Host>(alloc: Global, file: &str, out: &str, host: &mut H) -> Finish
    ensures answers { AsmAnswers (H.seen host.old) (H.seen host.new) file.now out.now result.ending }
    ensures kept { result.kept ≡ None }
    ensures causes { (console : SinkView) → HasCauses (ending_status result.ending) (H.seen host.old) (H.seen host.new) console console }
    ensures host { WritesFile out.now (H.seen host.old) (H.seen host.new) }
{
    match image_from(alloc, host, file) {
        Ok(image) => finish(write_image(alloc, host, out, &image)),
        Err(refusal) => finish(Err(refusal)),
    }
}

/// What a command without a run of its own ends with, whose work came out so.
fn finish(done: Result<(), Refusal>) -> Finish
    ensures done { OnOk done (result.ending ≡ Ending.Done) }
    ensures refused { IfErr done (λ r. result.ending ≡ Ending.Refused r) }
    ensures status { ending_status result.ending ≡ result_status done }
    ensures kept { result.kept ≡ None }
{
    let ending = match done {
        Ok(()) => Ending::Done,
        Err(refusal) => Ending::Refused(refusal),
    };
    Finish { ending, kept: None }
}

/// The image that the text of a file spells.
fn image_from<H: Host>(alloc: Global, host: &mut H, file: &str) -> Result<FlatImage, Refusal>
    ensures reads { Reads (H.seen host.old).tells ((H.seen host.old).file file.now) Role.Assembly file.now IsAssembly IsAssemblyFault result }
    ensures allowed { IfOk result (IsAllowed 16777216) }
    ensures causes { HasHostCauses file.now (result_status result) (H.seen host.old) (H.seen host.new) }
    ensures leaves { ReadsHost (H.seen host.old) (H.seen host.new) }
{
    let name = Text::from_text(alloc, file)?;
    let text = match load(alloc, host, file, ASSEMBLY_LIMIT) {
        Ok(text) => text,
        Err(fault) => return Err(after_load(Role::Assembly, name, ASSEMBLY_LIMIT, fault)),
    };
    spelling_is_a_function();
    match assemble(alloc, &text) {
        Ok(image) => Ok(image),
        Err(error) => Err(after_asm(name, error)),
    }
}

/// Writes an image to the file of this name, which is made anew and lasts then.
fn write_image<H: Host>(
    alloc: Global,
    host: &mut H,
    name: &str,
    image: &FlatImage,
) -> Result<(), Refusal>
    requires { IsAllowed 16777216 image.now }
    ensures written { OnOk result (HoldsImage name.now image.now (H.seen host.old) (H.seen host.new)) }
    ensures unwritten { IfErr result (λ r. IsUnwritten name.now (H.seen host.new) r) }
    ensures causes { HasSaveCauses (result_status result) (H.seen host.old) (H.seen host.new) }
    ensures host { WritesFile name.now (H.seen host.old) (H.seen host.new) }
{
    let copy = Text::from_text(alloc, name)?;
    let bytes = write(alloc, image)?;
    match write_file(alloc, host, name, &bytes) {
        Ok(()) => Ok(()),
        Err(fault) => Err(after_host(copy, fault)),
    }
}

/// Makes a file anew with these bytes, and makes sure of it.
fn write_file<H: Host>(
    alloc: Global,
    host: &mut H,
    name: &str,
    bytes: &[u8],
) -> Result<(), HostFault>
    ensures file { WhereTold (H.seen host.old).tells (OnOk result ((H.seen host.new).file name.now ≡ Some bytes.now)) }
    ensures durable { WhereTold (H.seen host.old).tells
        (OnOk result (Only bytes.now ((H.seen host.new).left name.now (H.seen host.new).moment))) }
    ensures cause { HasCause name.now (H.seen host.old) (H.seen host.new) result }
    ensures not_missing { IsErrOf result Missing → ⊥ }
    ensures leaves { WritesFile name.now (H.seen host.old) (H.seen host.new) }
{
    host.make(alloc, name)?;
    host.write_at(alloc, name, 0, bytes)?;
    host.sync(name)
}
