//! The starts of the two histories.
ghost use Rattle.std.specs.Prelude.{◌≡◌, ◌<◌, ◌≤◌, [], ◌∷◌, true, length, IfOk};
ghost use Rattle.vm_law.specs.Image.{IsAllowed};
ghost use Rattle.vm_law.specs.declared.plan.Plan.{Plan};
ghost use Rattle.vm_law.specs.declared.script.Order.TheVariants as order;
ghost use Rattle.vm_state.specs.Start.{IsDisk, IsPlanned, IsSound};
ghost use Rattle.vm_state.specs.Script.{is_allowed};
ghost use Rattle.std.specs.List.{All};

use std::alloc::Global;
use vm_law::{DiskPlan, FlatImage, Order, OutOfMemory, Plan, Script, Seq, Text};
use vm_state::{Origin, Start};

/// Both vCPUs halt, after vCPU 0 has started vCPU 1 at address 0.
const MEETING_CODE: [u8; 13] = [
    0xF4, 0xBB, 0x00, 0x03, 0xE0, 0xFE, 0xC7, 0x03, 0x00, 0x06, 0x0C, 0x00, 0xF4,
];

/// Sets the queue of disk 0 up, notifies the device and halts; behind it, the queue.
const WRITING_PAYLOAD: [u8; 193] = [
    0xBB, 0x00, 0x00, 0x00, 0xD0, 0xC7, 0x43, 0x24, 0x01, 0x00, 0x00, 0x00, 0xC7, 0x43, 0x20, 0x01,
    0x00, 0x00, 0x00, 0xC7, 0x43, 0x38, 0x04, 0x00, 0x00, 0x00, 0xC7, 0x83, 0x80, 0x00, 0x00, 0x00,
    0x50, 0x00, 0x00, 0x00, 0xC7, 0x83, 0x90, 0x00, 0x00, 0x00, 0x90, 0x00, 0x00, 0x00, 0xC7, 0x83,
    0xA0, 0x00, 0x00, 0x00, 0x9C, 0x00, 0x00, 0x00, 0xC7, 0x43, 0x44, 0x01, 0x00, 0x00, 0x00, 0xC7,
    0x43, 0x70, 0x0F, 0x00, 0x00, 0x00, 0xC7, 0x43, 0x50, 0x00, 0x00, 0x00, 0x00, 0xF4, 0x00, 0x00,
    0xC0, 0x00, 0x00, 0x00, 0x00, 0x00, 0x00, 0x00, 0x10, 0x00, 0x00, 0x00, 0x01, 0x00, 0x01, 0x00,
    0x00, 0x00, 0x00, 0x00, 0x00, 0x00, 0x00, 0x00, 0x00, 0x02, 0x00, 0x00, 0x01, 0x00, 0x02, 0x00,
    0xD0, 0x00, 0x00, 0x00, 0x00, 0x00, 0x00, 0x00, 0x01, 0x00, 0x00, 0x00, 0x02, 0x00, 0x00, 0x00,
    0x00, 0x00, 0x00, 0x00, 0x00, 0x00, 0x00, 0x00, 0x00, 0x00, 0x00, 0x00, 0x00, 0x00, 0x00, 0x00,
    0x00, 0x00, 0x01, 0x00, 0x00, 0x00, 0x00, 0x00, 0x00, 0x00, 0x00, 0x00, 0x00, 0x00, 0x00, 0x00,
    0x00, 0x00, 0x00, 0x00, 0x00, 0x00, 0x00, 0x00, 0x00, 0x00, 0x00, 0x00, 0x00, 0x00, 0x00, 0x00,
    0x00, 0x00, 0x00, 0x00, 0x00, 0x00, 0x00, 0x00, 0x00, 0x00, 0x00, 0x00, 0x00, 0x00, 0x00, 0x00,
    0x01,
];

/// The image's bytes.
fn writing_payload() -> &'static [u8]
    ensures { length result.now ≡ 193 }
{
    &WRITING_PAYLOAD
}

fn meeting_code() -> &'static [u8]
    ensures { length result.now ≡ 13 }
{
    &MEETING_CODE
}

/// An image that 1 MiB of memory allows.
fn flat(alloc: Global, entry: u64, code: u64, payload: &[u8]) -> Result<FlatImage, OutOfMemory>
    requires entry { entry < code }
    requires code { code ≤ length payload.now }
    requires fits { length payload.now ≤ 1048576 }
    ensures { IfOk result (λ f. IsAllowed 1048576 f) }
{
    Ok(FlatImage {
        entry,
        code,
        payload: Seq::from_slice(alloc, payload)?,
    })
}

/// So many vCPUs, 1 MiB of memory, and these disks.
fn plan(alloc: Global, cpus: u8, disks: Seq<DiskPlan>) -> Result<Plan, OutOfMemory>
    ensures cpus { IfOk result (λ p. p.cpus ≡ cpus) }
    ensures memory { IfOk result (λ p. p.memory ≡ 1048576) }
    ensures disks { IfOk result (λ p. p.disks ≡ disks) }
{
    Ok(Plan {
        cpus,
        memory: 1_048_576,
        name: Text::from_text(alloc, "vm0")?,
        image: None,
        script: None,
        disks,
        notbuilt: Seq::new(alloc),
    })
}

/// `rendezvous`, then `wait quiet`.
fn meeting_script(alloc: Global) -> Result<Script, OutOfMemory>
    ensures { IfOk result (λ s. s ≡ order.Rendezvous ∷ order.WaitQuiet ∷ []) }
{
    let mut script = Seq::new(alloc);
    script.push(Order::Rendezvous)?;
    script.push(Order::WaitQuiet)?;
    Ok(script)
}

/// `wait quiet`.
fn quiet_script(alloc: Global) -> Result<Script, OutOfMemory>
    ensures { IfOk result (λ s. s ≡ order.WaitQuiet ∷ []) }
{
    let mut script = Seq::new(alloc);
    script.push(Order::WaitQuiet)?;
    Ok(script)
}

/// A disk with one worker.
fn disk_plans(alloc: Global) -> Result<Seq<DiskPlan>, OutOfMemory>
    ensures count { IfOk result (λ s. length s ≡ 1) }
    ensures each { IfOk result (λ s. All IsPlanned s) }
{
    let mut plans = Seq::new(alloc);
    plans.push(DiskPlan {
        path: Text::from_text(alloc, "disk")?,
        ro: false,
        workers: 1,
    })?;
    Ok(plans)
}

/// One sector of zeros.
fn disks(alloc: Global) -> Result<Seq<Seq<u8>>, OutOfMemory>
    ensures count { IfOk result (λ s. length s ≡ 1) }
    ensures each { IfOk result (λ s. All IsDisk s) }
{
    let mut disks = Seq::new(alloc);
    disks.push(Seq::from_slice(alloc, &[0; 512])?)?;
    Ok(disks)
}

/// Two vCPUs that are to meet.
pub fn meeting_start(alloc: Global) -> Result<Start, OutOfMemory>
    ensures { IfOk result (λ s. IsSound s) }
{
    Ok(Start {
        plan: plan(alloc, 2, Seq::new(alloc))?,
        origin: Origin::Flat(flat(alloc, 1, 13, meeting_code())?),
        disks: Seq::new(alloc),
        script: meeting_script(alloc)?,
        limit: 10_000_000,
    })
}

/// One vCPU that asks a disk for a write.
pub fn writing_start(alloc: Global) -> Result<Start, OutOfMemory>
    ensures { IfOk result (λ s. IsSound s) }
{
    Ok(Start {
        plan: plan(alloc, 1, disk_plans(alloc)?)?,
        origin: Origin::Flat(flat(alloc, 0, 78, writing_payload())?),
        disks: disks(alloc)?,
        script: quiet_script(alloc)?,
        limit: 10_000_000,
    })
}
