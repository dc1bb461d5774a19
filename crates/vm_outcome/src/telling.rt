//! What is said of a command that ended.
ghost use Rattle.std.specs.Prelude.{◌≡◌, IfOk, IfSome};
ghost use Rattle.std.specs.String.{string_bytes};
ghost use Rattle.vm_outcome.specs.Ends.{ended_as};
ghost use Rattle.vm_outcome.specs.Telling.{IsRun, Tells, TellsRun, has_doubt, report_of};

use crate::outcome::{Ending, Finish, Kept};
use std::alloc::Global;
use vm_host::Sink;
use vm_law::OutOfMemory;
use vm_report::report;
use vm_state::Why;
use vm_status::{Refusal, write_all, write_line};
use vm_table::Run;

/// Whether a sector of a disk is in doubt.
pub fn is_in_doubt(run: &Run) -> bool
    ensures { result ≡ has_doubt run.now.state }
{
    for disk in 0..run.drive_count() {
        if run.tally(disk).doubt > 0 {
            return true;
        }
    }
    false
}

/// How a command ends whose run came to its end, where nothing outside failed.
pub fn ending_of(run: &Run) -> Ending
    ensures { result ≡ ended_as run.now.state.ended (has_doubt run.now.state) }
{
    let doubt = is_in_doubt(run);
    match run.ended() {
        Some(why) => Ending::Ran { why, doubt },
        None => Ending::Done,
    }
}

/// The report of a run, with the state of each vCPU where that is asked for.
pub fn report_of(alloc: Global, kept: &Kept, state: bool) -> Result<String, OutOfMemory>
    requires { IsRun kept.now }
    ensures { IfOk result (λ text. string_bytes text ≡ report_of kept.now state) }
{
    report(alloc, &kept.run, &kept.start.plan, state)
}

/// Writes the report of a run to the log, and answers how the command ends.
fn tell_run<L: Sink>(alloc: Global, ending: Ending, kept: &Kept, state: bool, log: &mut L) -> Ending
    requires { IsRun kept.now }
    ensures { TellsRun ending kept.now state result (L.seen log.old) (L.seen log.new) }
{
    let text = match report_of(alloc, kept, state) {
        Ok(text) => text,
        Err(_) => {
            let refusal = Refusal::Memory;
            let _told = write_line(&refusal, log);
            return Ending::Refused(refusal);
        }
    };
    match write_all(log, text.as_bytes()) {
        Ok(()) => ending,
        Err(_) => Ending::Untold,
    }
}

/// Writes to the log what is said of a command that ended: the line of a refusal, where a fault of the log changes nothing;
/// and otherwise the report of the run that is kept, where there is one. Where memory for the report is refused, that is how
/// the command ends; where the log fails at the report, it is untold.
pub fn tell<L: Sink>(alloc: Global, finish: Finish, state: bool, log: &mut L) -> Finish
    requires { IfSome finish.kept IsRun }
    ensures kept { result.kept ≡ finish.kept }
    ensures told { Tells finish.ending finish.kept state result.ending log.old log.new (L.seen log.old) (L.seen log.new) }
{
    let Finish { ending, kept } = finish;
    if let Ending::Refused(refusal) = &ending {
        let _told = write_line(refusal, log);
        return Finish { ending, kept };
    }
    let ending = match &kept {
        Some(kept) => tell_run(alloc, ending, kept, state, log),
        None => ending,
    };
    Finish { ending, kept }
}
