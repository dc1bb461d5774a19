//! Shows the plan of a configuration.
ghost use Rattle.std.specs.Prelude.{◌≡◌, ◌∷◌, [], ℕ, true, List, None, Err, Contains};
ghost use Rattle.vm_host.specs.Leaves.{ReadsHost};
ghost use Rattle.vm_law.specs.declared.plan.Plan.{Plan as PlanValue};
ghost use Rattle.vm_outcome.specs.Causes.{HasCauses, HasSinkCauses, IsNamed, NoneRose};
ghost use Rattle.vm_outcome.specs.Ends.{ending_status};
ghost use Rattle.vm_outcome.specs.Outside.{outside};
ghost use Rattle.vm_run.specs.Showing.{ShowAnswers, Shows};
ghost use Rattle.vm_start.specs.Start.{IsPlanOf, PlanOf};
ghost use Rattle.vm_status.specs.declared.refusal.Refusal.{Refusal as RefusalValue};
ghost use Rattle.vm_outcome.specs.Telling.{IsRefusal};

use std::alloc::Global;
use vm_host::{Host, Sink};
use vm_law::Plan;
use vm_outcome::{Ending, Finish};
use vm_report::plan_json;
use vm_start::read_plan;
use vm_status::{Refusal, write_all};

/// Writes a plan to the console.
fn write_plan<S: Sink>(alloc: Global, plan: &Plan, console: &mut S) -> Finish
    ensures shows { Shows plan.now (S.seen console.old) (S.seen console.new) result.ending }
    ensures kept { result.kept ≡ None }
    ensures causes { HasSinkCauses (ending_status result.ending) (S.seen console.old) (S.seen console.new) }
{
    let Ok(text) = plan_json(alloc, plan) else {
        return Finish {
            ending: Ending::Refused(Refusal::Memory),
            kept: None,
        };
    };
    match write_all(console, text.as_bytes()) {
        Ok(()) => Finish {
            ending: Ending::Done,
            kept: None,
        },
        Err(_) => Finish {
            ending: Ending::Refused(Refusal::Console),
            kept: None,
        },
    }
}

/// Writes the plan of a configuration's file to the console, as one line of JSON.
pub(crate) fn show<H: Host, S: Sink>(
    alloc: Global,
    config: &str,
    host: &mut H,
    console: &mut S,
) -> Finish
    ensures answers { ShowAnswers (outside (H.seen host.old) (H.seen host.new) (S.seen console.old) (S.seen console.new)) config.now result.ending }
    // A plan that the file gives is shown, unless somebody refuses; and none is, where it gives none.
    ensures complete { (plan : PlanValue) → (H.seen host.old).tells ≡ true → IsPlanOf true (H.seen host.old).file config.now plan
        → NoneRose (H.seen host.old) (H.seen host.new) (S.seen console.old) (S.seen console.new) → Contains (0 ∷ 71 ∷ []) (ending_status result.ending) }
    ensures refuses { (e : RefusalValue) → (H.seen host.old).tells ≡ true → PlanOf true (H.seen host.old).file config.now (Err e)
        → ((name : List ℕ) → e ≡ Refusal.HostFault name → ⊥) → IsRefusal result.ending }
    ensures kept { result.kept ≡ None }
    ensures causes { HasCauses (ending_status result.ending) (H.seen host.old) (H.seen host.new) (S.seen console.old) (S.seen console.new) }
    ensures named { (name : List ℕ) → result.ending ≡ Ending.Refused (Refusal.HostFault name) → IsNamed name (H.seen host.new) }
    ensures host { ReadsHost (H.seen host.old) (H.seen host.new) }
{
    match read_plan(alloc, host, config) {
        Ok(plan) => write_plan(alloc, &plan, console),
        Err(refusal) => Finish {
            ending: Ending::Refused(refusal),
            kept: None,
        },
    }
}
