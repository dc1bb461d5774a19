//! The script of a plan.
ghost use Rattle.std.specs.Prelude.{◌≡◌, ◌∷◌, [], ◌<◌, ◌^◌, length, Some, IfOk, IfErr};
ghost use Rattle.ctl_script.specs.Script.{script_of};
ghost use Rattle.vm_host.specs.Leaves.{ReadsHost};
ghost use Rattle.vm_law.specs.declared.script.Order.TheVariants.{WaitQuiet};
ghost use Rattle.vm_start.specs.Answers.{Is, UpToMemory};
ghost use Rattle.vm_start.specs.Causes.{HasReadCauses};
ghost use Rattle.vm_start.specs.Files.{ScriptIn, scripted};
ghost use Rattle.vm_start.specs.Start.{ScriptOf};
ghost use Rattle.vm_start.specs.Steps.{IsOwn};

use crate::loading::{TEXT_LIMIT, load_file};
use crate::refusing::{bad, script_kind};
use ctl_script::ScriptError;
use std::alloc::Global;
use vm_host::Host;
use vm_law::{Order, OutOfMemory, Plan, Script, Seq};
use vm_status::{Kind, Refusal, Role};

/// Waits until nothing more can happen by itself.
fn default_script(alloc: Global) -> Result<Script, OutOfMemory>
    ensures { IfOk result (λ script. script ≡ WaitQuiet ∷ []) }
{
    let mut orders = Seq::new(alloc);
    orders.push(Order::WaitQuiet)?;
    Ok(orders)
}

/// The script that a text is for a plan.
fn scripted(alloc: Global, name: &str, plan: &Plan, text: &[u8]) -> Result<Script, Refusal>
    requires { length text.now < 2 ^ 32 }
    ensures value { UpToMemory (Is (scripted name.now (script_of plan.now text.now))) result }
    ensures own { IfErr result IsOwn }
{
    match ctl_script::read(alloc, text, plan) {
        Ok(script) => Ok(script),
        Err(ScriptError::Fault { line, kind }) => Err(bad(
            alloc,
            Role::Script,
            name,
            u64::from(line),
            script_kind(kind),
        )),
        Err(ScriptError::Memory) => Err(Refusal::Memory),
    }
}

/// The same, with the limit on the file's length.
fn script_in(alloc: Global, name: &str, plan: &Plan, bytes: &[u8]) -> Result<Script, Refusal>
    ensures value { UpToMemory (ScriptIn name.now plan.now bytes.now) result }
    ensures own { IfErr result IsOwn }
{
    if bytes.len() as u64 > TEXT_LIMIT {
        return Err(bad(alloc, Role::Script, name, TEXT_LIMIT, Kind::Long));
    }
    scripted(alloc, name, plan, bytes)
}

/// The script that a plan names, or the one that stands in for it.
pub(crate) fn read_script<H: Host>(
    alloc: Global,
    host: &mut H,
    plan: &Plan,
) -> Result<Script, Refusal>
    ensures value { UpToMemory (ScriptOf (H.seen host.old).tells (H.seen host.old).file plan.now plan.now.script) result }
    ensures causes { HasReadCauses result (H.seen host.old) (H.seen host.new) }
    ensures leaves { ReadsHost (H.seen host.old) (H.seen host.new) }
{
    match &plan.script {
        Some(name) => script_of(alloc, host, name.as_str(), plan),
        None => {
            let script = default_script(alloc)?;
            Ok(script)
        }
    }
}

/// The script in a file.
fn script_of<H: Host>(
    alloc: Global,
    host: &mut H,
    name: &str,
    plan: &Plan,
) -> Result<Script, Refusal>
    ensures value { UpToMemory (ScriptOf (H.seen host.old).tells (H.seen host.old).file plan.now (Some name.now)) result }
    ensures causes { HasReadCauses result (H.seen host.old) (H.seen host.new) }
    ensures leaves { ReadsHost (H.seen host.old) (H.seen host.new) }
{
    let bytes = load_file(alloc, host, Role::Script, name, TEXT_LIMIT)?;
    script_in(alloc, name, plan, bytes.as_slice())
}
