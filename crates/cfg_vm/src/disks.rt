ghost use Rattle.std.specs.Prelude.{◌≡◌, option_map, position, nat_lt, IfOk, OnOk};
ghost use Rattle.cfg_vm.specs.Slot.{place};
ghost use Rattle.cfg_vm.specs.Outcome.{Answers};
ghost use Rattle.cfg_vm.specs.Table.{disk_at, put_slot, put_disk, disk_slots, path_of, file_of, disk_of, next_disk, disks_from, disks_of};

use crate::error::{PlanError, PlanKind, named};
use crate::number::{boolean_or, count_or};
use crate::slot::{Slot, place, slot_name, slot_of};
use cfg_text::Config;
use std::alloc::Global;
use vm_law::{DiskPlan, OutOfMemory, Seq, Text};

/// The place of the disk whose device this variable is, if it is one.
fn disk_at(name: &str, value: &str) -> Option<Slot>
    ensures { result ≡ disk_at (name.now, value.now) }
{
    let (slot, part) = slot_of(name)?;
    if part == "device" && value == "virtio-blk" {
        Some(slot)
    } else {
        None
    }
}

/// The first place of a higher number.
fn first_behind(slots: &[Slot], number: u32) -> Option<usize>
    ensures { result ≡ position (λ s. nat_lt number (place s)) slots.now }
{
    slots.iter().position(|s| number < place(*s))
}

/// Puts a place before the first that is behind it.
fn put_slot(slots: &mut Vec<Slot>, slot: Slot) -> Result<(), OutOfMemory>
    ensures { OnOk result (slots.new.items ≡ put_slot slot slots.old.items) }
{
    match first_behind(slots.as_slice(), place(slot)) {
        Some(at) => {
            slots.insert(at, slot)?;
            Ok(())
        }
        None => {
            slots.push(slot)?;
            Ok(())
        }
    }
}

/// Puts the place of the disk whose device this variable is, if it is one.
fn put_disk(slots: &mut Vec<Slot>, name: &str, value: &str) -> Result<(), OutOfMemory>
    ensures { OnOk result (slots.new.items ≡ put_disk (disk_at (name.now, value.now)) slots.old.items) }
{
    match disk_at(name, value) {
        Some(slot) => put_slot(slots, slot),
        None => Ok(()),
    }
}

/// The places of all disks in ascending order.
fn disk_slots(alloc: Global, config: &Config) -> Result<Vec<Slot>, OutOfMemory>
    ensures { IfOk result (λ v. v.items ≡ disk_slots config.now) }
{
    let mut slots = Vec::new(alloc);
    for k in 0..config.len() {
        let (name, value) = config.nth(k);
        put_disk(&mut slots, name, value)?;
    }
    Ok(slots)
}

/// A file name that is needed.
pub(crate) fn path_of(alloc: Global, variable: &str, value: Option<&str>) -> Result<Text, PlanError>
    ensures { Answers result (path_of variable.now (option_map (λ t. t.now) value.entry)) }
{
    match value {
        Some(text) => {
            if text.is_empty() {
                return named(alloc, variable, Err(PlanKind::Path));
            }
            Ok(Text::from_text(alloc, text)?)
        }
        None => named(alloc, variable, Err(PlanKind::Path)),
    }
}

/// The disk at a place.
fn disk_of(alloc: Global, config: &Config, slot: Slot) -> Result<DiskPlan, PlanError>
    ensures { Answers result (disk_of config.now slot) }
{
    let name = slot_name(alloc, slot, "path")?;
    let path = path_of(alloc, name.as_str(), config.get(name.as_str()))?;
    let name = slot_name(alloc, slot, "ro")?;
    let ro = named(alloc, name.as_str(), boolean_or(config.get(name.as_str())))?;
    let name = slot_name(alloc, slot, "workers")?;
    let workers = named(
        alloc,
        name.as_str(),
        count_or(2, 8, config.get(name.as_str())),
    )?;
    Ok(DiskPlan { path, ro, workers })
}

/// The disk at a place before which there are `count` disks.
fn next_disk(
    alloc: Global,
    config: &Config,
    count: usize,
    slot: Slot,
) -> Result<DiskPlan, PlanError>
    ensures { Answers result (next_disk config.now count slot) }
{
    if count == 8 {
        let name = slot_name(alloc, slot, "device")?;
        return named(alloc, name.as_str(), Err(PlanKind::Many));
    }
    disk_of(alloc, config, slot)
}

/// The disks at these places.
fn disks_at(alloc: Global, config: &Config, slots: &[Slot]) -> Result<Seq<DiskPlan>, PlanError>
    ensures { Answers result (disks_from config.now 0 slots.now) }
{
    let mut disks = Seq::new(alloc);
    for (count, slot) in slots.iter().enumerate() {
        let disk = next_disk(alloc, config, count, *slot)?;
        disks.push(disk)?;
    }
    Ok(disks)
}

/// The disks, at most 8, in ascending order of their places.
pub(crate) fn disks_of(alloc: Global, config: &Config) -> Result<Seq<DiskPlan>, PlanError>
    ensures { Answers result (disks_of config.now) }
{
    let slots = disk_slots(alloc, config)?;
    disks_at(alloc, config, slots.as_slice())
}
