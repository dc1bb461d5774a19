//! FILE: an image under the default plan, or a configuration that names its image.
ghost use Rattle.std.specs.Prelude.{◌≡◌, ◌⊎◌, IfOk, IfErr, MatchResult, Ok, Err, Some, IsSome};
ghost use Rattle.vm_host.specs.Leaves.{ReadsHost};
ghost use Rattle.vm_host.specs.Told.{WhereTold};
ghost use Rattle.vm_status.specs.declared.refusal.Refusal.TheVariants.{Memory};
ghost use Rattle.vm_start.specs.Answers.{UpToMemory};
ghost use Rattle.vm_start.specs.Causes.{HasReadCauses};
ghost use Rattle.vm_start.specs.Start as spec;
ghost use Rattle.vm_start.specs.Steps.{IsOwn};

use crate::image::{image_in, read_image};
use crate::loading::{HEADER_SIZE, TEXT_LIMIT, begins_as_image, has_magic, load_file};
use crate::planning::plan_in;
use std::alloc::Global;
use vm_host::Host;
use vm_law::{FlatImage, OutOfMemory, Plan, Seq, Text};
use vm_status::{Refusal, Role};

/// How many bytes of memory a guest has by the default plan: 256 MiB.
const MEMORY_SIZE: u64 = 268_435_456;

/// A plan with its image.
#[derive(Drop)]
pub(crate) struct Setup {
    pub(crate) plan: Plan,
    pub(crate) image: FlatImage,
}

/// One vCPU, 256 MiB of memory, no name, no disk and no script.
fn default_plan(alloc: Global) -> Result<Plan, OutOfMemory>
    ensures { IfOk result (λ plan. plan ≡ spec.default_plan) }
{
    let name = Text::from_text(alloc, "")?;
    Ok(Plan {
        cpus: 1,
        memory: MEMORY_SIZE,
        name,
        image: None,
        script: None,
        disks: Seq::new(alloc),
        notbuilt: Seq::new(alloc),
    })
}

/// The image that the bytes of FILE are, under the default plan.
fn flat_setup(alloc: Global, name: &str, bytes: &[u8]) -> Result<Setup, Refusal>
    ensures value { UpToMemory (spec.FlatSetup name.now bytes.now) result }
    ensures own { IfErr result IsOwn }
{
    let image = image_in(alloc, name, MEMORY_SIZE, bytes)?;
    let plan = default_plan(alloc)?;
    Ok(Setup { plan, image })
}

/// The file of the image that a plan names.
fn image_file(plan: &Plan) -> &str
    requires { IsSome plan.now.image }
    ensures { result.now ≡ spec.image_name plan.entry.now.image }
{
    match &plan.image {
        Some(file) => file.as_str(),
        None => unreachable!(),
    }
}

/// The plan in the bytes of FILE, with the image that it names.
fn planned_setup<H: Host>(
    alloc: Global,
    host: &mut H,
    name: &str,
    bytes: &[u8],
) -> Result<Setup, Refusal>
    ensures value { UpToMemory (spec.PlannedSetup (H.seen host.old).tells (H.seen host.old).file name.now bytes.now) result }
    ensures causes { HasReadCauses result (H.seen host.old) (H.seen host.new) }
    ensures leaves { ReadsHost (H.seen host.old) (H.seen host.new) }
{
    let plan = plan_in(alloc, name, bytes)?;
    let image = read_image(alloc, host, image_file(&plan), plan.memory)?;
    Ok(Setup { plan, image })
}

/// The bytes of FILE, which begin as those of an image or are those of a configuration.
fn load_either<H: Host>(alloc: Global, host: &mut H, name: &str) -> Result<Seq<u8>, Refusal>
    ensures bytes { IfOk result (λ b. WhereTold (H.seen host.old).tells ((H.seen host.old).file name.now ≡ Some b)) }
    ensures refused { IfErr result (λ e. (e ≡ Memory) ⊎ spec.SetupOf (H.seen host.old).tells (H.seen host.old).file name.now (Err e)) }
    ensures causes { HasReadCauses result (H.seen host.old) (H.seen host.new) }
    ensures leaves { ReadsHost (H.seen host.old) (H.seen host.new) }
{
    if begins_as_image(alloc, host, name)? {
        load_file(alloc, host, Role::Image, name, MEMORY_SIZE + HEADER_SIZE)
    } else {
        load_file(alloc, host, Role::Configuration, name, TEXT_LIMIT)
    }
}

fn setup_in<H: Host>(
    alloc: Global,
    host: &mut H,
    name: &str,
    bytes: &[u8],
) -> Result<Setup, Refusal>
    ensures value { UpToMemory (spec.SetupIn (H.seen host.old).tells (H.seen host.old).file name.now bytes.now) result }
    ensures causes { HasReadCauses result (H.seen host.old) (H.seen host.new) }
    ensures leaves { ReadsHost (H.seen host.old) (H.seen host.new) }
{
    if has_magic(bytes) {
        flat_setup(alloc, name, bytes)
    } else {
        planned_setup(alloc, host, name, bytes)
    }
}

/// The plan and the image that FILE gives.
pub(crate) fn read_setup<H: Host>(alloc: Global, host: &mut H, name: &str) -> Result<Setup, Refusal>
    ensures value { UpToMemory (spec.SetupOf (H.seen host.old).tells (H.seen host.old).file name.now) result }
    ensures causes { HasReadCauses result (H.seen host.old) (H.seen host.new) }
    ensures leaves { ReadsHost (H.seen host.old) (H.seen host.new) }
{
    let bytes = load_either(alloc, host, name)?;
    setup_in(alloc, host, name, bytes.as_slice())
}
