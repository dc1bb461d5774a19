ghost use Rattle.std.specs.Prelude.{◌≡◌, ◌∷◌, [], ◌++◌, option_map, IfOk, OnOk};
ghost use Rattle.cfg_vm.specs.Outcome.{Answers};
ghost use Rattle.cfg_vm.specs.Table.{file_of, name_or, is_disk, is_built, is_built_name, notbuilt_among, notbuilt_of, plan_of};

use crate::disks::{disks_of, path_of};
use crate::error::{PlanError, PlanKind, named};
use crate::number::{count_or, memory_or};
use crate::slot::{Slot, slot_name, slot_of};
use cfg_text::Config;
use std::alloc::Global;
use vm_law::{OutOfMemory, Plan, Seq, Text};

/// A file name, which may be left out where it isn't needed.
fn file_of(
    alloc: Global,
    config: &Config,
    variable: &str,
    is_needed: bool,
) -> Result<Option<Text>, PlanError>
    ensures { Answers result (file_of config.now variable.now is_needed) }
{
    let value = config.get(variable);
    if value.is_none() && !is_needed {
        return Ok(None);
    }
    let path = path_of(alloc, variable, value)?;
    Ok(Some(path))
}

/// The value of `name`, which is empty where there is none.
fn name_of(alloc: Global, config: &Config) -> Result<Text, OutOfMemory>
    ensures { IfOk result (λ t. t ≡ name_or config.now) }
{
    match config.get("name") {
        Some(name) => Text::from_text(alloc, name),
        None => Text::from_text(alloc, ""),
    }
}

/// Whether a disk stands at a place.
fn is_disk(alloc: Global, config: &Config, slot: Slot) -> Result<bool, OutOfMemory>
    ensures { IfOk result (λ b. b ≡ is_disk config.now slot) }
{
    let name = slot_name(alloc, slot, "device")?;
    match config.get(name.as_str()) {
        Some(device) => Ok(device == "virtio-blk"),
        None => Ok(false),
    }
}

/// Whether a variable that belongs to no PCI device is built.
fn is_built_name(name: &str, value: &str) -> bool
    ensures { result ≡ is_built_name name.now value.now }
{
    if name == "lpc.com1.path" {
        return value == "stdio";
    }
    name == "cpus"
        || name == "memory.size"
        || name == "name"
        || name == "flat.image"
        || name == "flat.script"
}

/// Whether a variable is built, or accepted silently.
fn is_built(alloc: Global, config: &Config, name: &str, value: &str) -> Result<bool, OutOfMemory>
    ensures { IfOk result (λ b. b ≡ is_built config.now (name.now, value.now)) }
{
    let Some((slot, part)) = slot_of(name) else {
        return Ok(is_built_name(name, value));
    };
    if part == "device" {
        return Ok(value == "virtio-blk" || value == "hostbridge" || value == "lpc");
    }
    if part == "path" || part == "ro" || part == "workers" {
        return is_disk(alloc, config, slot);
    }
    Ok(false)
}

/// Adds the name of a variable that isn't built.
fn add_name(
    alloc: Global,
    config: &Config,
    names: &mut Seq<Text>,
    name: &str,
    value: &str,
) -> Result<(), OutOfMemory>
    ensures { OnOk result (names.new ≡ names.old ++ notbuilt_among config.now ((name.now, value.now) ∷ [])) }
{
    if is_built(alloc, config, name, value)? {
        return Ok(());
    }
    names.push(Text::from_text(alloc, name)?)
}

/// The names of the variables that aren't built.
fn notbuilt_of(alloc: Global, config: &Config) -> Result<Seq<Text>, OutOfMemory>
    ensures { IfOk result (λ names. names ≡ notbuilt_of config.now) }
{
    let mut names = Seq::new(alloc);
    for k in 0..config.len() {
        let (name, value) = config.nth(k);
        add_name(alloc, config, &mut names, name, value)?;
    }
    Ok(names)
}

/// The virtual machine that a configuration plans; with `restore` it needs no image.
///
/// Answers `Fault` exactly where a variable has no value that is allowed, with the first such variable in the order cpus,
/// memory.size, the disks in ascending order (of each path, ro, workers; the device of a ninth disk behind the eight),
/// flat.image, flat.script; `Memory` where an allocation was refused.
pub fn plan(alloc: Global, config: &Config, restore: bool) -> Result<Plan, PlanError>
    ensures { Answers result (plan_of config.now restore) }
{
    let cpus = named(alloc, "cpus", count_or(1, 16, config.get("cpus")))?;
    let memory = named(alloc, "memory.size", memory_or(config.get("memory.size")))?;
    let disks = disks_of(alloc, config)?;
    let image = file_of(alloc, config, "flat.image", !restore)?;
    let script = file_of(alloc, config, "flat.script", false)?;
    let name = name_of(alloc, config)?;
    let notbuilt = notbuilt_of(alloc, config)?;
    Ok(Plan {
        cpus,
        memory,
        name,
        image,
        script,
        disks,
        notbuilt,
    })
}
