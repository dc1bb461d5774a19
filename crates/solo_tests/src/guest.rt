//! A guest of two vCPUs with a disk.
ghost use Rattle.std.specs.Prelude.{◌≡◌, ◌≤◌, [], ◌∷◌, length, IfOk};
ghost use Rattle.std.specs.List.{All};
ghost use Rattle.vm_state.specs.Start.{IsPlanned, IsSound};
ghost use Rattle.vm_law.specs.Image.{IsAllowed};
ghost use Rattle.vm_law.specs.declared.script.Order.TheVariants as order;

use std::alloc::Global;
use vm_law::{DiskPlan, FlatImage, Order, OutOfMemory, Plan, Script, Seq, Text};
use vm_state::{Origin, Start};

/// vCPU 1 sends B and halts. vCPU 0 sends A, starts vCPU 1 at address 0, sets the queue of disk 0 up, notifies the device and
/// halts.
const CODE: [u8; 113] = [
    0xBA, 0xF8, 0x03, 0x00, 0x00, 0xB0, 0x42, 0xEE, 0xF4, 0xBA, 0xF8, 0x03, 0x00, 0x00, 0xB0, 0x41,
    0xEE, 0xBB, 0x00, 0x03, 0xE0, 0xFE, 0xC7, 0x03, 0x00, 0x06, 0x0C, 0x00, 0xBB, 0x00, 0x00, 0x00,
    0xD0, 0xC7, 0x43, 0x24, 0x01, 0x00, 0x00, 0x00, 0xC7, 0x43, 0x20, 0x01, 0x00, 0x00, 0x00, 0xC7,
    0x43, 0x70, 0x0B, 0x00, 0x00, 0x00, 0xC7, 0x43, 0x38, 0x04, 0x00, 0x00, 0x00, 0xC7, 0x83, 0x80,
    0x00, 0x00, 0x00, 0x80, 0x00, 0x00, 0x00, 0xC7, 0x83, 0x90, 0x00, 0x00, 0x00, 0xC0, 0x00, 0x00,
    0x00, 0xC7, 0x83, 0xA0, 0x00, 0x00, 0x00, 0xD0, 0x00, 0x00, 0x00, 0xC7, 0x43, 0x44, 0x01, 0x00,
    0x00, 0x00, 0xC7, 0x43, 0x70, 0x0F, 0x00, 0x00, 0x00, 0xC7, 0x43, 0x50, 0x00, 0x00, 0x00, 0x00,
    0xF4,
];

/// The request's three segments, for 0x80: its header, its bytes, its status.
const SEGMENTS: [u8; 48] = [
    0x00, 0x01, 0x00, 0x00, 0x00, 0x00, 0x00, 0x00, 0x10, 0x00, 0x00, 0x00, 0x01, 0x00, 0x01, 0x00,
    0x00, 0x02, 0x00, 0x00, 0x00, 0x00, 0x00, 0x00, 0x00, 0x02, 0x00, 0x00, 0x01, 0x00, 0x02, 0x00,
    0x10, 0x01, 0x00, 0x00, 0x00, 0x00, 0x00, 0x00, 0x01, 0x00, 0x00, 0x00, 0x02, 0x00, 0x00, 0x00,
];

const BLANK: [u8; 1024] = [0; 1024];

/// The image's bytes: the code, and behind it the queue with a write of `abcd` to sector 0.
fn payload(alloc: Global) -> Result<Seq<u8>, OutOfMemory>
    ensures { IfOk result (λ bytes. length bytes ≡ 1024) }
{
    let mut bytes = [0; 1024];
    bytes[..113].copy_from_slice(&CODE);
    bytes[0x80..0xB0].copy_from_slice(&SEGMENTS);
    bytes[0xC2] = 1;
    bytes[0x100] = 1;
    bytes[0x110] = 0xFF;
    bytes[0x200..0x204].copy_from_slice(b"abcd");
    Ok(Seq::from_slice(alloc, &bytes)?)
}

/// A disk with two workers.
fn disk_plans(alloc: Global) -> Result<Seq<DiskPlan>, OutOfMemory>
    ensures count { IfOk result (λ s. length s ≡ 1) }
    ensures each { IfOk result (λ s. All IsPlanned s) }
{
    let mut plans = Seq::new(alloc);
    plans.push(DiskPlan {
        path: Text::from_text(alloc, "disk")?,
        ro: false,
        workers: 2,
    })?;
    Ok(plans)
}

/// Two sectors of zeros.
pub fn blank() -> &'static [u8]
    ensures { length result.now ≡ 1024 }
{
    &BLANK
}

/// One disk of these bytes.
fn disks(alloc: Global, disk: &[u8]) -> Result<Seq<Seq<u8>>, OutOfMemory>
    ensures { IfOk result (λ s. s ≡ disk.now ∷ []) }
{
    let mut disks = Seq::new(alloc);
    disks.push(Seq::from_slice(alloc, disk)?)?;
    Ok(disks)
}

/// Two vCPUs and 1 MiB of memory.
fn plan(alloc: Global, disks: Seq<DiskPlan>) -> Result<Plan, OutOfMemory>
    ensures cpus { IfOk result (λ p. p.cpus ≡ 2) }
    ensures memory { IfOk result (λ p. p.memory ≡ 1048576) }
    ensures disks { IfOk result (λ p. p.disks ≡ disks) }
{
    Ok(Plan {
        cpus: 2,
        memory: 1_048_576,
        name: Text::from_text(alloc, "vm0")?,
        image: None,
        script: None,
        disks,
        notbuilt: Seq::new(alloc),
    })
}

/// `rendezvous`, then `wait quiet`.
fn script(alloc: Global) -> Result<Script, OutOfMemory>
    ensures { IfOk result (λ s. s ≡ order.Rendezvous ∷ order.WaitQuiet ∷ []) }
{
    let mut script = Seq::new(alloc);
    script.push(Order::Rendezvous)?;
    script.push(Order::WaitQuiet)?;
    Ok(script)
}

/// The code and the queue, at which 1 MiB of memory begins.
fn flat(alloc: Global) -> Result<FlatImage, OutOfMemory>
    ensures { IfOk result (λ f. IsAllowed 1048576 f) }
{
    Ok(FlatImage {
        entry: 9,
        code: 113,
        payload: payload(alloc)?,
    })
}

/// The guest's start, with a disk of these bytes.
pub fn start(alloc: Global, disk: &[u8]) -> Result<Start, OutOfMemory>
    requires { length disk.now ≡ 1024 }
    ensures sound { IfOk result (λ s. IsSound s) }
    ensures disks { IfOk result (λ s. s.disks ≡ disk.now ∷ []) }
{
    Ok(Start {
        plan: plan(alloc, disk_plans(alloc)?)?,
        origin: Origin::Flat(flat(alloc)?),
        disks: disks(alloc, disk)?,
        script: script(alloc)?,
        limit: 1_000_000,
    })
}
