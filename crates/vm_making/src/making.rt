//! Runs a workload.
ghost use Rattle.std.specs.Prelude.{◌≡◌, ◌≤◌, ◌++◌, None, IfSome, IfNone};
ghost use Rattle.vm_host.specs.Leaves.{TakesSome};
ghost use Rattle.vm_making.specs.Answers.{HasMakeCauses, MakeAnswers};
ghost use Rattle.vm_making.specs.Line.{total_line};
ghost use Rattle.vm_making.specs.Start.{IsStartOf};
ghost use Rattle.vm_making.specs.Telling.{TellsTotal};
ghost use Rattle.vm_outcome.specs.Ends.{ending_status};
ghost use Rattle.vm_outcome.specs.Outside.{sent_in};
ghost use Rattle.vm_outcome.specs.Telling.{IsRun};
ghost use Rattle.vm_table.specs.Turns.{IsOrderly};

use crate::line::write_total;
use crate::starting::start_of;
use std::alloc::Global;
use vm_host::{Gate, MemHost, Sink};
use vm_outcome::{Ending, Finish};
use vm_soloing::run_start;
use vm_status::Refusal;

/// Writes the line of the total where the run finished, and answers how the command ends.
fn tell_total<S: Sink>(cpus: u8, number: u32, ending: Ending, console: &mut S) -> Ending
    requires { cpus ≤ 16 }
    ensures { TellsTotal cpus number ending result console.old console.new (S.seen console.old) (S.seen console.new) }
{
    if ending.status() != 0 {
        return ending;
    }
    match write_total(cpus, number, console) {
        Ok(()) => ending,
        Err(_) => Ending::Refused(Refusal::Console),
    }
}

/// Runs the guest that has the counts of a number for 1 to 16 vCPUs on one thread, and writes to the console what it sends, and
/// then, where it finished, the line `workload CPUS NUMBER total T`, T being the sum of the counts.
///
/// The run has no disk and no journal, so that no file is read or written. The first failure decides how it ends: the console
/// in the run, which then ends by that, or at the line.
pub fn make<S: Sink, G: Gate>(
    alloc: Global,
    cpus: u8,
    number: u32,
    console: &mut S,
    gate: &G,
) -> Finish
    requires some_cpu { 1 ≤ cpus }
    requires cpus { cpus ≤ 16 }
    ensures answers { MakeAnswers cpus number (S.seen console.old) (S.seen console.new) result.ending result.kept }
    ensures start { IfSome result.kept (λ k. IsStartOf cpus number k.start) }
    ensures run { IfSome result.kept (λ k. IsRun k) }
    ensures orderly { IfSome result.kept (λ k. IsOrderly k.start k.journal) }
    ensures causes { HasMakeCauses (ending_status result.ending) (S.seen console.old) (S.seen console.new) }
    ensures console { IfSome result.kept (λ k. TakesSome (sent_in k ++ total_line cpus number) (S.seen console.old) (S.seen console.new)) }
    ensures silent { IfNone result.kept (console.new ≡ console.old) }
{
    let Ok(start) = start_of(alloc, cpus, number) else {
        return Finish {
            ending: Ending::Refused(Refusal::Memory),
            kept: None,
        };
    };
    let mut no_files = MemHost::new(alloc);
    let Finish { ending, kept } = run_start(alloc, start, None, &mut no_files, console, gate);
    let ending = tell_total(cpus, number, ending, console);
    Finish { ending, kept }
}
