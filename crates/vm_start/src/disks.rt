//! The disks of a plan.
ghost use Rattle.std.specs.Prelude.{◌≡◌, ◌⊎◌, ◌<◌, true, length, Err, IfOk, IfErr, IsSomeAnd};
ghost use Rattle.vm_host.specs.Told.{WhereTold};
ghost use Rattle.vm_host.specs.Leaves.{ReadsHost};
ghost use Rattle.vm_start.specs.Answers.{Is, UpToMemory};
ghost use Rattle.vm_start.specs.Causes.{HasReadCauses};
ghost use Rattle.vm_start.specs.Files.{FileOf, is_disk_size, disk_in};
ghost use Rattle.vm_start.specs.Start.{DiskOf, DisksOf};
ghost use Rattle.vm_start.specs.Steps.{IsOwn, unloaded};
ghost use Rattle.vm_status.specs.declared.refusal.Refusal.TheVariants.{Memory};

use crate::refusing::{after_host, bad};
use ckpt_store::{LoadFault, load};
use std::alloc::Global;
use vm_host::Host;
use vm_law::{DiskPlan, Seq, Text};
use vm_status::{Kind, Refusal, Role};

/// The bytes of a sector.
const SECTOR: u64 = 512;

/// How many bytes a disk has at most: 64 MiB.
const DISK_LIMIT: u64 = 67_108_864;

/// Whether a disk may have so many bytes.
fn is_disk_size(size: u64) -> bool
    ensures { result ≡ is_disk_size size }
{
    size % SECTOR == 0 && size >= SECTOR && size <= DISK_LIMIT
}

/// How many bytes the file of a disk has.
fn disk_size<H: Host>(alloc: Global, host: &mut H, name: &str) -> Result<u64, Refusal>
    ensures value { WhereTold (H.seen host.old).tells (IfOk result (λ n. IsSomeAnd ((H.seen host.old).file name.now) (λ f. n ≡ length f))) }
    ensures refused { IfErr result (λ e. (e ≡ Memory) ⊎ FileOf (H.seen host.old).tells (H.seen host.old).file name.now (Err e)) }
    ensures causes { HasReadCauses result (H.seen host.old) (H.seen host.new) }
    ensures leaves { ReadsHost (H.seen host.old) (H.seen host.new) }
{
    let owned = Text::from_text(alloc, name)?;
    match host.length(name) {
        Ok(size) => Ok(size),
        Err(fault) => Err(after_host(owned, fault)),
    }
}

/// The disk in a file.
fn read_disk<H: Host>(alloc: Global, host: &mut H, name: &str) -> Result<Seq<u8>, Refusal>
    ensures value { UpToMemory (DiskOf (H.seen host.old).tells (H.seen host.old).file name.now) result }
    ensures causes { HasReadCauses result (H.seen host.old) (H.seen host.new) }
    ensures leaves { ReadsHost (H.seen host.old) (H.seen host.new) }
{
    let size = disk_size(alloc, host, name)?;
    if !is_disk_size(size) {
        return Err(bad(alloc, Role::Disk, name, size, Kind::Length));
    }
    load_disk(alloc, host, name, size)
}

/// The bytes of a disk, if a disk may have so many.
fn disk_in(alloc: Global, name: &str, bytes: Seq<u8>) -> Result<Seq<u8>, Refusal>
    ensures value { UpToMemory (Is (disk_in name.now bytes)) result }
    ensures own { IfErr result IsOwn }
{
    let size = bytes.len() as u64;
    if is_disk_size(size) {
        Ok(bytes)
    } else {
        Err(bad(alloc, Role::Disk, name, size, Kind::Length))
    }
}

/// The refusal of a disk that couldn't be read whole. One that has grown has no size of a disk.
fn unloaded(name: Text, size: u64, fault: LoadFault) -> Refusal
    requires { size < 18446744073709551615 }
    ensures { result ≡ unloaded name size fault }
{
    match fault {
        LoadFault::Host(fault) => after_host(name, fault),
        LoadFault::Long => Refusal::Bad {
            role: Role::Disk,
            name,
            place: size + 1,
            kind: Kind::Length,
        },
    }
}

/// The disk in a file that has so many bytes.
fn load_disk<H: Host>(
    alloc: Global,
    host: &mut H,
    name: &str,
    size: u64,
) -> Result<Seq<u8>, Refusal>
    requires size { is_disk_size size ≡ true }
    requires measured { WhereTold (H.seen host.old).tells (IsSomeAnd ((H.seen host.old).file name.now) (λ f. size ≡ length f)) }
    ensures value { UpToMemory (DiskOf (H.seen host.old).tells (H.seen host.old).file name.now) result }
    ensures causes { HasReadCauses result (H.seen host.old) (H.seen host.new) }
    ensures leaves { ReadsHost (H.seen host.old) (H.seen host.new) }
{
    let owned = Text::from_text(alloc, name)?;
    match load(alloc, host, name, size) {
        Ok(bytes) => disk_in(alloc, name, Seq::from_vec(bytes)),
        Err(fault) => Err(unloaded(owned, size, fault)),
    }
}

/// The disks of a plan, in order.
pub(crate) fn read_disks<H: Host>(
    alloc: Global,
    host: &mut H,
    plans: &[DiskPlan],
) -> Result<Seq<Seq<u8>>, Refusal>
    ensures value { UpToMemory (DisksOf (H.seen host.old).tells (H.seen host.old).file plans.now) result }
    ensures causes { HasReadCauses result (H.seen host.old) (H.seen host.new) }
    ensures leaves { ReadsHost (H.seen host.old) (H.seen host.new) }
{
    let mut disks = Seq::new(alloc);
    for plan in plans {
        let disk = read_disk(alloc, host, plan.path.as_str())?;
        disks.push(disk)?;
    }
    Ok(disks)
}
