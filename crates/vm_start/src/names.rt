//! Names that are used twice.
ghost use Rattle.std.specs.Prelude.{◌≡◌, ◌++◌, ◌∷◌, [], map, OnOk, IfOk, IfErr};
ghost use Rattle.std.specs.List.{list_any};
ghost use Rattle.std.specs.Option.{option_copied};
ghost use Rattle.std.specs.Str.{bytes_eq};
ghost use Rattle.text_reader.specs.Word.{texts};
ghost use Rattle.vm_start.specs.Answers.{Is, UpToMemory};
ghost use Rattle.vm_start.specs.Start as spec;
ghost use Rattle.vm_start.specs.Steps.{IsOwn};

use crate::refusing::bad;
use std::alloc::{AllocError, Global};
use vm_law::{DiskPlan, Plan, Text};
use vm_status::{Kind, Refusal, Role};

/// Adds a name, if there is one.
fn add_name<'a>(names: &mut Vec<&'a str>, name: Option<&'a Text>) -> Result<(), AllocError>
    ensures { OnOk result (texts names.new.items ≡ texts names.old.items ++ spec.name_in (option_copied name.entry)) }
{
    if let Some(name) = name {
        names.push(name.as_str())?;
    }
    Ok(())
}

/// Adds the files of disks.
fn add_paths<'a>(names: &mut Vec<&'a str>, disks: &'a [DiskPlan]) -> Result<(), AllocError>
    ensures { OnOk result (texts names.new.items ≡ texts names.old.items ++ spec.paths_of disks.entry.now) }
{
    for disk in disks {
        names.push(disk.path.as_str())?;
    }
    Ok(())
}

/// The names that a command reads or writes.
fn names_of<'a>(
    alloc: Global,
    file: &'a str,
    plan: &'a Plan,
    journal: Option<&'a Text>,
) -> Result<Vec<&'a str>, AllocError>
    ensures { IfOk result (λ names. texts names.items ≡ spec.names_of file.entry.now plan.entry.now (option_copied journal.entry)) }
{
    let mut names = Vec::new(alloc);
    names.push(file)?;
    add_name(&mut names, plan.image.as_ref())?;
    add_name(&mut names, plan.script.as_ref())?;
    add_paths(&mut names, plan.disks.as_slice())?;
    add_name(&mut names, journal)?;
    Ok(names)
}

fn has_name(names: &[&str], name: &str) -> bool
    ensures { result ≡ list_any (λ w. bytes_eq w.now name.now) names.now }
{
    names.iter().any(|other| *other == name)
}

/// Whether a name is among others.
fn is_among(names: &[&str], name: &str) -> bool
    ensures { result ≡ spec.is_among (texts names.now) name.now }
{
    has_name(names, name)
}

/// Refuses the first name that stands among those before it.
fn different(alloc: Global, names: &[&str]) -> Result<(), Refusal>
    ensures value { UpToMemory (Is (spec.different_from [] (texts names.now))) result }
    ensures own { IfErr result IsOwn }
{
    for k in 0..names.len() {
        if is_among(&names[..k], names[k]) {
            return Err(bad(alloc, Role::Start, names[k], 0, Kind::Twice));
        }
    }
    Ok(())
}

/// Refuses a name that is used twice.
pub(crate) fn check_names(
    alloc: Global,
    file: &str,
    plan: &Plan,
    journal: Option<&Text>,
) -> Result<(), Refusal>
    ensures value { UpToMemory (Is (spec.different_from [] (spec.names_of file.now plan.now (option_copied journal.entry)))) result }
    ensures own { IfErr result IsOwn }
{
    let names = names_of(alloc, file, plan, journal)?;
    different(alloc, names.as_slice())
}
