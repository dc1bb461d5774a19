//! The guests.
ghost use Rattle.std.specs.Prelude.{◌≡◌, ◌+◌, ◌≤◌, ◌<◌, ◌⊎◌, [], ◌∷◌, length, IfOk};
ghost use Rattle.std.specs.List.{All};
ghost use Rattle.vm_state.specs.Start.{IsPlanned, IsSound};
ghost use Rattle.vm_law.specs.declared.script.Order.TheVariants as orders;

use std::alloc::Global;
use vm_asm::workload;
use vm_law::{DiskPlan, FlatImage, Order, OutOfMemory, Plan, Script, Seq, Text};
use vm_state::{Origin, Start};

/// vCPU 0, at 9, starts vCPU 1 at address 0, waits until the dword at 0x1000 is 1, and sends it as a digit. vCPU 1 adds 1 to
/// that dword and halts.
const COUNTS: [u8; 41] = [
    0xF0, 0xFF, 0x04, 0x25, 0x00, 0x10, 0x00, 0x00, 0xF4, 0xBB, 0x00, 0x03, 0xE0, 0xFE, 0xC7, 0x03,
    0x00, 0x06, 0x0C, 0x00, 0x8B, 0x04, 0x25, 0x00, 0x10, 0x00, 0x00, 0x83, 0xF8, 0x01, 0x75, 0xF4,
    0xBA, 0xF8, 0x03, 0x00, 0x00, 0x04, 0x30, 0xEE, 0xF4,
];

/// vCPU 0, at 2, starts vCPU 1 at address 0, sends A and halts. vCPU 1 jumps to itself.
pub const JUMPS: [u8; 22] = [
    0xEB, 0xFE, 0xBB, 0x00, 0x03, 0xE0, 0xFE, 0xC7, 0x03, 0x00, 0x06, 0x0C, 0x00, 0xBA, 0xF8, 0x03,
    0x00, 0x00, 0xB0, 0x41, 0xEE, 0xF4,
];

/// It sets the queues of disks 0 and 1 up, notifies both devices and halts.
const WRITES: [u8; 179] = [
    0xBB, 0x00, 0x00, 0x00, 0xD0, 0xC7, 0x43, 0x24, 0x01, 0x00, 0x00, 0x00, 0xC7, 0x43, 0x20, 0x01,
    0x00, 0x00, 0x00, 0xC7, 0x43, 0x70, 0x0B, 0x00, 0x00, 0x00, 0xC7, 0x43, 0x38, 0x04, 0x00, 0x00,
    0x00, 0xC7, 0x83, 0x80, 0x00, 0x00, 0x00, 0x00, 0x02, 0x00, 0x00, 0xC7, 0x83, 0x90, 0x00, 0x00,
    0x00, 0x40, 0x02, 0x00, 0x00, 0xC7, 0x83, 0xA0, 0x00, 0x00, 0x00, 0x50, 0x02, 0x00, 0x00, 0xC7,
    0x43, 0x44, 0x01, 0x00, 0x00, 0x00, 0xC7, 0x43, 0x70, 0x0F, 0x00, 0x00, 0x00, 0xBB, 0x00, 0x10,
    0x00, 0xD0, 0xC7, 0x43, 0x24, 0x01, 0x00, 0x00, 0x00, 0xC7, 0x43, 0x20, 0x01, 0x00, 0x00, 0x00,
    0xC7, 0x43, 0x70, 0x0B, 0x00, 0x00, 0x00, 0xC7, 0x43, 0x38, 0x04, 0x00, 0x00, 0x00, 0xC7, 0x83,
    0x80, 0x00, 0x00, 0x00, 0x00, 0x06, 0x00, 0x00, 0xC7, 0x83, 0x90, 0x00, 0x00, 0x00, 0x40, 0x06,
    0x00, 0x00, 0xC7, 0x83, 0xA0, 0x00, 0x00, 0x00, 0x50, 0x06, 0x00, 0x00, 0xC7, 0x43, 0x44, 0x01,
    0x00, 0x00, 0x00, 0xC7, 0x43, 0x70, 0x0F, 0x00, 0x00, 0x00, 0xBB, 0x00, 0x00, 0x00, 0xD0, 0xC7,
    0x43, 0x50, 0x00, 0x00, 0x00, 0x00, 0xBB, 0x00, 0x10, 0x00, 0xD0, 0xC7, 0x43, 0x50, 0x00, 0x00,
    0x00, 0x00, 0xF4,
];

/// A request's three segments at `table`: its header, its bytes, its status.
fn segments(table: u32) -> [u8; 48]
    requires { table ≤ 4096 }
{
    let mut bytes = [0; 48];
    let header = (table + 0x80).to_le_bytes();
    let data = (table + 0x200).to_le_bytes();
    let status = (table + 0x90).to_le_bytes();
    bytes[..4].copy_from_slice(&header);
    bytes[8] = 16;
    bytes[12] = 1;
    bytes[14] = 1;
    bytes[16..20].copy_from_slice(&data);
    bytes[25] = 2;
    bytes[28] = 1;
    bytes[30] = 2;
    bytes[32..36].copy_from_slice(&status);
    bytes[40] = 1;
    bytes[44] = 2;
    bytes
}

/// Writes a piece at this place.
fn put(bytes: &mut [u8; 2560], at: usize, piece: &[u8])
    requires { at + length piece.now ≤ 2560 }
{
    bytes[at..at + piece.len()].copy_from_slice(piece);
}

/// The image's bytes: the code, and behind it for each disk the queue with a write of `abcd` or `efgh` to sector 0.
pub fn writes(alloc: Global) -> Result<Seq<u8>, OutOfMemory>
    ensures { IfOk result (λ bytes. length bytes ≡ 2560) }
{
    let mut bytes = [0; 2560];
    put(&mut bytes, 0, &WRITES);
    put(&mut bytes, 0x200, &segments(0x200));
    put(&mut bytes, 0x242, &[1]);
    put(&mut bytes, 0x280, &[1]);
    put(&mut bytes, 0x400, b"abcd");
    put(&mut bytes, 0x600, &segments(0x600));
    put(&mut bytes, 0x642, &[1]);
    put(&mut bytes, 0x680, &[1]);
    put(&mut bytes, 0x800, b"efgh");
    Ok(Seq::from_slice(alloc, &bytes)?)
}

/// A disk with a worker.
fn disk_plan(alloc: Global) -> Result<DiskPlan, OutOfMemory>
    ensures { IfOk result IsPlanned }
{
    Ok(DiskPlan {
        path: Text::from_text(alloc, "disk")?,
        ro: false,
        workers: 1,
    })
}

/// Two disks with a worker each.
fn disk_plans(alloc: Global) -> Result<Seq<DiskPlan>, OutOfMemory>
    ensures count { IfOk result (λ s. length s ≡ 2) }
    ensures each { IfOk result (λ s. All IsPlanned s) }
{
    let first = disk_plan(alloc)?;
    let second = disk_plan(alloc)?;
    let mut plans = Seq::new(alloc);
    plans.push(first)?;
    plans.push(second)?;
    Ok(plans)
}

/// A sector of zeros.
const BLANK: [u8; 512] = [0; 512];

/// A sector of zeros.
pub fn blank() -> &'static [u8]
    ensures { length result.now ≡ 512 }
{
    &BLANK
}

/// Two disks of these bytes.
fn disks(alloc: Global, disk: &[u8]) -> Result<Seq<Seq<u8>>, OutOfMemory>
    ensures { IfOk result (λ s. s ≡ disk.now ∷ disk.now ∷ []) }
{
    let first = Seq::from_slice(alloc, disk)?;
    let second = Seq::from_slice(alloc, disk)?;
    let mut disks = Seq::new(alloc);
    disks.push(first)?;
    disks.push(second)?;
    Ok(disks)
}

/// A plan with so many vCPUs, so many bytes of memory and these disks.
fn plan(alloc: Global, cpus: u8, memory: u64, disks: Seq<DiskPlan>) -> Result<Plan, OutOfMemory>
    ensures cpus { IfOk result (λ p. p.cpus ≡ cpus) }
    ensures memory { IfOk result (λ p. p.memory ≡ memory) }
    ensures disks { IfOk result (λ p. p.disks ≡ disks) }
{
    Ok(Plan {
        cpus,
        memory,
        name: Text::from_text(alloc, "vm0")?,
        image: None,
        script: None,
        disks,
        notbuilt: Seq::new(alloc),
    })
}

/// A script of one order.
fn script(alloc: Global, order: Order) -> Result<Script, OutOfMemory>
    ensures { IfOk result (λ s. s ≡ order ∷ []) }
{
    let mut script = Seq::new(alloc);
    script.push(order)?;
    Ok(script)
}

/// A start of two vCPUs, without a disk.
fn two_cpus(alloc: Global, entry: u64, code: &[u8], order: Order) -> Result<Start, OutOfMemory>
    requires inside { (entry < length code.now) × (length code.now ≤ 1024) }
    requires waits { (order ≡ orders.WaitQuiet) ⊎ (order ≡ orders.WaitConsole 1) }
    ensures sound { IfOk result (λ s. IsSound s) }
    ensures disks { IfOk result (λ s. s.disks ≡ []) }
{
    let plan = plan(alloc, 2, 1_048_576, Seq::new(alloc))?;
    let payload = Seq::from_slice(alloc, code)?;
    let script = script(alloc, order)?;
    Ok(Start {
        plan,
        origin: Origin::Flat(FlatImage {
            entry,
            code: code.len() as u64,
            payload,
        }),
        disks: Seq::new(alloc),
        script,
        limit: 20_000_000,
    })
}

pub fn counts(alloc: Global) -> Result<Start, OutOfMemory>
    ensures sound { IfOk result (λ s. IsSound s) }
    ensures disks { IfOk result (λ s. s.disks ≡ []) }
{
    two_cpus(alloc, 9, &COUNTS, Order::WaitQuiet)
}

/// A start of sixteen vCPUs that count to 10,000 each.
pub fn sixteen(alloc: Global) -> Result<Start, OutOfMemory>
    ensures sound { IfOk result (λ s. IsSound s) }
    ensures disks { IfOk result (λ s. s.disks ≡ []) }
{
    let image = workload(alloc, &[10_000; 16])?;
    let plan = plan(alloc, 16, 16_777_216, Seq::new(alloc))?;
    let script = script(alloc, Order::WaitQuiet)?;
    Ok(Start {
        plan,
        origin: Origin::Flat(image),
        disks: Seq::new(alloc),
        script,
        limit: 20_000_000,
    })
}

pub fn jumps(alloc: Global) -> Result<Start, OutOfMemory>
    ensures sound { IfOk result (λ s. IsSound s) }
    ensures disks { IfOk result (λ s. s.disks ≡ []) }
{
    two_cpus(alloc, 2, &JUMPS, Order::WaitConsole(1))
}

pub fn two_disks(alloc: Global, disk: &[u8]) -> Result<Start, OutOfMemory>
    requires { length disk.now ≡ 512 }
    ensures sound { IfOk result (λ s. IsSound s) }
    ensures disks { IfOk result (λ s. s.disks ≡ disk.now ∷ disk.now ∷ []) }
{
    let plan = plan(alloc, 1, 1_048_576, disk_plans(alloc)?)?;
    let payload = writes(alloc)?;
    let disks = disks(alloc, disk)?;
    let script = script(alloc, Order::WaitQuiet)?;
    Ok(Start {
        plan,
        origin: Origin::Flat(FlatImage {
            entry: 0,
            code: 179,
            payload,
        }),
        disks,
        script,
        limit: 1_000_000,
    })
}
