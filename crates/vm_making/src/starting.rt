//! The start of a workload.
ghost use Rattle.std.specs.Prelude.{◌≡◌, ◌≤◌, [], ◌∷◌, IfOk};
ghost use Rattle.vm_law.specs.declared.script.Order.TheVariants.{WaitQuiet};
ghost use Rattle.vm_making.specs.Start.{IsStartOf, plan_of};
ghost use Rattle.vm_state.specs.Start.{IsSound};

use crate::counting::counts_of;
use std::alloc::Global;
use vm_asm::{spelling_is_a_function, workload};
use vm_law::{Order, OutOfMemory, Plan, Script, Seq, Text};
use vm_state::{Origin, Start};

/// How many bytes of memory the guest has: 256 MiB, as by the default plan.
const MEMORY_SIZE: u64 = 268_435_456;

/// How many instructions may be executed, as where no limit is given.
const LIMIT: u64 = 10_000_000;

/// The default plan with so many vCPUs.
fn plan_of(alloc: Global, cpus: u8) -> Result<Plan, OutOfMemory>
    ensures { IfOk result (λ plan. plan ≡ plan_of cpus) }
{
    let name = Text::from_text(alloc, "")?;
    Ok(Plan {
        cpus,
        memory: MEMORY_SIZE,
        name,
        image: None,
        script: None,
        disks: Seq::new(alloc),
        notbuilt: Seq::new(alloc),
    })
}

/// Waits until nothing more can happen by itself.
fn default_script(alloc: Global) -> Result<Script, OutOfMemory>
    ensures { IfOk result (λ script. script ≡ WaitQuiet ∷ []) }
{
    let mut orders = Seq::new(alloc);
    orders.push(Order::WaitQuiet)?;
    Ok(orders)
}

/// The start of the guest that has the counts of a number for so many vCPUs.
pub(crate) fn start_of(alloc: Global, cpus: u8, number: u32) -> Result<Start, OutOfMemory>
    requires some_cpu { 1 ≤ cpus }
    requires cpus { cpus ≤ 16 }
    ensures start { IfOk result (IsStartOf cpus number) }
    ensures sound { IfOk result IsSound }
{
    spelling_is_a_function();
    let image = workload(alloc, counts_of(cpus, number).as_slice())?;
    let plan = plan_of(alloc, cpus)?;
    let script = default_script(alloc)?;
    Ok(Start {
        plan,
        origin: Origin::Flat(image),
        disks: Seq::new(alloc),
        script,
        limit: LIMIT,
    })
}
