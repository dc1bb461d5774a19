//! The plan in a configuration file.
ghost use Rattle.std.specs.Prelude.{◌≡◌, ◌<◌, ◌^◌, ℕ, List, length, true, false, Err, IfOk, IfErr, MatchResult};
ghost use Rattle.vm_host.specs.Leaves.{ReadsHost};
ghost use Rattle.vm_law.specs.declared.plan.Plan.{Plan};
ghost use Rattle.vm_status.specs.declared.refusal.Refusal.{Refusal};
ghost use Rattle.vm_status.specs.declared.refusal.Refusal.TheVariants.{HostFault, Memory};
ghost use Rattle.vm_start.specs.Answers.{Is, UpToMemory};
ghost use Rattle.vm_start.specs.Causes.{HasReadCauses, NoneRefused};
ghost use Rattle.vm_start.specs.Files.{PlanIn, configured, planned};
ghost use Rattle.vm_start.specs.Start.{PlanOf, IsPlanOf};
ghost use Rattle.vm_start.specs.Steps.{IsOwn};
ghost use Rattle.cfg_text.specs.Values as cfg_text;
ghost use Rattle.cfg_vm.specs.Table.{plan_of};

use crate::loading::{TEXT_LIMIT, load_file};
use crate::refusing::{bad, cfg_kind, plan_kind};
use cfg_text::{CfgError, Config};
use cfg_vm::PlanError;
use std::alloc::Global;
use vm_host::Host;
use vm_law::{Plan, Text};
use vm_status::{Kind, Refusal, Role};

/// The variables that a configuration's text gives.
fn variables_in(alloc: Global, name: &str, text: &[u8]) -> Result<Config, Refusal>
    requires { length text.now < 2 ^ 32 }
    ensures value { UpToMemory (Is (configured name.now (cfg_text.read text.now))) result }
    ensures own { IfErr result IsOwn }
{
    match cfg_text::read(alloc, text) {
        Ok(config) => Ok(config),
        Err(CfgError::Fault { line, kind }) => Err(bad(
            alloc,
            Role::Configuration,
            name,
            u64::from(line),
            cfg_kind(kind),
        )),
        Err(CfgError::Memory) => Err(Refusal::Memory),
    }
}

/// The plan that a configuration's variables give.
fn plan_from(alloc: Global, name: &str, config: &Config) -> Result<Plan, Refusal>
    ensures value { UpToMemory (Is (planned name.now (plan_of config.now false))) result }
    ensures own { IfErr result IsOwn }
{
    match cfg_vm::plan(alloc, config, false) {
        Ok(plan) => Ok(plan),
        Err(PlanError::Fault { variable, kind }) => match Text::from_text(alloc, name) {
            Ok(name) => Err(Refusal::BadPlan {
                name,
                variable,
                kind: plan_kind(kind),
            }),
            Err(_) => Err(Refusal::Memory),
        },
        Err(PlanError::Memory) => Err(Refusal::Memory),
    }
}

/// The plan in the bytes of a configuration file.
pub(crate) fn plan_in(alloc: Global, name: &str, bytes: &[u8]) -> Result<Plan, Refusal>
    ensures value { UpToMemory (PlanIn name.now bytes.now) result }
    ensures own { IfErr result IsOwn }
{
    if bytes.len() as u64 > TEXT_LIMIT {
        return Err(bad(alloc, Role::Configuration, name, TEXT_LIMIT, Kind::Long));
    }
    let config = variables_in(alloc, name, bytes)?;
    plan_from(alloc, name, &config)
}

fn plan_of<H: Host>(alloc: Global, host: &mut H, name: &str) -> Result<Plan, Refusal>
    ensures plan { UpToMemory (PlanOf (H.seen host.old).tells (H.seen host.old).file name.now) result }
    ensures causes { HasReadCauses result (H.seen host.old) (H.seen host.new) }
    ensures leaves { ReadsHost (H.seen host.old) (H.seen host.new) }
{
    let bytes = load_file(alloc, host, Role::Configuration, name, TEXT_LIMIT)?;
    plan_in(alloc, name, bytes.as_slice())
}

/// The plan of a configuration file, which has at most 1 MiB.
///
/// The first refusal is answered: `Missing` where there is no such file, `HostFault` where the host failed at it,
/// `Bad` at the first faulty line (`long` at the limit), `BadPlan` with the first variable whose value isn't allowed. No file
/// changes.
pub fn read_plan<H: Host>(alloc: Global, host: &mut H, name: &str) -> Result<Plan, Refusal>
    ensures plan { UpToMemory (PlanOf (H.seen host.old).tells (H.seen host.old).file name.now) result }
    // Where no count rose, a file that has a plan gives it.
    ensures complete { (plan : Plan) → (H.seen host.old).tells ≡ true → IsPlanOf true (H.seen host.old).file name.now plan
        → NoneRefused (H.seen host.old) (H.seen host.new) → MatchResult result (λ p. p ≡ plan) (λ e. e ≡ Memory) }
    // A plan comes only where no refusal but a failure of the host is due.
    ensures exact { (e : Refusal) → (H.seen host.old).tells ≡ true → PlanOf true (H.seen host.old).file name.now (Err e)
        → IfOk result (λ p. (q : List ℕ) × (e ≡ HostFault q)) }
    ensures causes { HasReadCauses result (H.seen host.old) (H.seen host.new) }
    ensures leaves { ReadsHost (H.seen host.old) (H.seen host.new) }
{
    plan_of(alloc, host, name)
}
