//! A plan as JSON.
ghost use Rattle.std.specs.Prelude.{◌≡◌, IfOk, option_map};
ghost use Rattle.std.specs.Option.{option_copied};
ghost use Rattle.std.specs.String.{string_bytes};
ghost use Rattle.serde_json.specs.View.{view};
ghost use Rattle.vm_report.specs.PlanText.{disk_data, disks_data, names_data, plan_data, plan_text, text_data};

use serde_json::{Value, json};
use std::alloc::{AllocError, Global};
use vm_law::{DiskPlan, OutOfMemory, Plan, Text};

/// A disk.
fn disk_value(alloc: Global, disk: &DiskPlan) -> Result<Value, AllocError>
    ensures { IfOk result (λ v. view v ≡ disk_data disk.now) }
{
    json!(in alloc; {"path": disk.path.as_str(), "ro": disk.ro, "workers": disk.workers})
}

/// The disks, in their order.
fn disks_value(alloc: Global, disks: &[DiskPlan]) -> Result<Value, AllocError>
    ensures { IfOk result (λ v. view v ≡ disks_data disks.now) }
{
    let mut values = Vec::new(alloc);
    for disk in disks {
        values.push(disk_value(alloc, disk)?)?;
    }
    Ok(Value::Array(values))
}

/// A text, or null where there is none.
fn text_value(alloc: Global, text: Option<&Text>) -> Result<Value, AllocError>
    ensures { IfOk result (λ v. view v ≡ text_data (option_copied text.entry)) }
{
    match text {
        Some(text) => Value::try_from_str(alloc, text.as_str()),
        None => Ok(Value::Null),
    }
}

/// Names, in their order.
fn names_value(alloc: Global, names: &[Text]) -> Result<Value, AllocError>
    ensures { IfOk result (λ v. view v ≡ names_data names.now) }
{
    let mut values = Vec::new(alloc);
    for name in names {
        values.push(Value::try_from_str(alloc, name.as_str())?)?;
    }
    Ok(Value::Array(values))
}

/// The members of a plan.
fn plan_value(alloc: Global, plan: &Plan) -> Result<Value, AllocError>
    ensures { IfOk result (λ v. view v ≡ plan_data plan.now) }
{
    let disks = disks_value(alloc, plan.disks.as_slice())?;
    let image = text_value(alloc, plan.image.as_ref())?;
    let notbuilt = names_value(alloc, plan.notbuilt.as_slice())?;
    let script = text_value(alloc, plan.script.as_ref())?;
    json!(in alloc; {
        "cpus": plan.cpus,
        "disks": disks,
        "image": image,
        "memory": plan.memory,
        "name": plan.name.as_str(),
        "notbuilt": notbuilt,
        "script": script
    })
}

/// A plan as one line of JSON, with its line feed. The keys are in ascending order; `image` and `script` are null where
/// there is none.
pub fn plan_json(alloc: Global, plan: &Plan) -> Result<String, OutOfMemory>
    ensures { IfOk result (λ text. string_bytes text ≡ plan_text plan.now) }
{
    let value = plan_value(alloc, plan)?;
    let mut text = value.to_string(alloc)?;
    text.push('\n')?;
    Ok(text)
}
