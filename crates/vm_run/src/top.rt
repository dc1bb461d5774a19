//! The top calls.
ghost use Rattle.std.specs.Prelude.{◌≡◌, List, [], ◌∷◌, Some, None, Contains, IfSome, IsNone, false};
ghost use Rattle.vm_cmd.specs.Table.{command_of};
ghost use Rattle.vm_cmd.specs.Word.{texts};
ghost use Rattle.vm_cmd.specs.declared.command.Command.{Command as CommandValue};
ghost use Rattle.vm_outcome.specs.Ends.{ending_status};
ghost use Rattle.vm_outcome.specs.Telling.{IsRun, Tells};
ghost use Rattle.vm_run.specs.Answer.{Does, reported};
ghost use Rattle.vm_run.specs.Words.{HasLimit, IsStill, asks_state};
ghost use Rattle.vm_run.specs.Refusing.{TellsRefusal, refusal_of};

use crate::working::{asks_state, carry_out, carry_out_still, has_report};
use std::alloc::Global;
use std::sync::Wait;
use std::thread::Threads;
use vm_cmd::{CmdError, Command, read};
use vm_host::{Gate, Host, NoGate, Sink};
use vm_outcome::{Ending, Finish, Outcome, tell};
use vm_status::Refusal;

/// Writes to the log what is said of a command without a report: the line of a refusal.
fn tell_refusal<L: Sink>(alloc: Global, finish: Finish, log: &mut L) -> Finish
    ensures kept { result.kept ≡ finish.kept }
    ensures told { Tells finish.ending None false result.ending log.old log.new (L.seen log.old) (L.seen log.new) }
{
    let Finish { ending, kept } = finish;
    let told = tell(alloc, Finish { ending, kept: None }, false, log);
    Finish {
        ending: told.ending,
        kept,
    }
}

/// Tells the log how the work of a command ended.
fn conclude<L: Sink>(alloc: Global, command: &Command, finish: Finish, log: &mut L) -> Finish
    requires { IfSome finish.kept IsRun }
    ensures kept { result.kept ≡ finish.kept }
    ensures told { Tells finish.ending (reported command.now finish.kept) (asks_state command.now) result.ending log.old log.new (L.seen log.old) (L.seen log.new) }
{
    if has_report(command) {
        tell(alloc, finish, asks_state(command), log)
    } else {
        tell_refusal(alloc, finish, log)
    }
}

/// Does what a command says, and tells the log how that ended.
fn do_command<R, H, S, L, G>(
    rt: &R,
    alloc: Global,
    command: &Command,
    host: &mut H,
    console: &mut S,
    log: &mut L,
    gate: &G,
) -> Finish
where
    R: Threads + Wait + Sync,
    H: Host,
    S: Sink,
    L: Sink,
    G: Gate + Sync,
    requires { HasLimit command.now }
    ensures { Does H.seen S.seen L.seen command.now host.old host.new console.old console.new log.old log.new result.ending result.kept }
{
    let finish = carry_out(rt, alloc, command, host, console, gate);
    conclude(alloc, command, finish, log)
}

/// Does what a command says that starts no thread, which is any but `run`, on the calling thread, and always returns.
///
/// `solo FILE` runs the guest that the files give by the rounds of one thread, for at most so many instructions as the words
/// allow; writes what the guest sends to the console, and the run's journal to its file if one is named. `replay FILE JOURNAL`
/// makes the journal's steps again from the start that the files give, and writes what its guest sent. Then the log takes the
/// run's report. `show CONFIG` writes the plan of a configuration to the console. `asm FILE OUT` writes the image that a text of
/// at most 1 MiB spells to OUT, which may be FILE. `make CPUS NUMBER` runs the guest that the numbers make, with CPUS from 1 to
/// 16, and writes what it sends and then, where it finished, the line of its total; it has no report. `convert`, `arrive` and
/// `inspect` are refused as not built yet. The first refusal of host or console decides the ending, and the log takes the line of
/// a refusal.
pub fn still_cmd<H: Host, S: Sink, L: Sink>(
    alloc: Global,
    command: &Command,
    host: &mut H,
    console: &mut S,
    log: &mut L,
) -> Outcome
    requires limit { HasLimit command.now }
    requires still { IsStill command.now }
    ensures does { Does H.seen S.seen L.seen command.now host.old host.new console.old console.new log.old log.new result.ending result.kept }
    ensures status { result.status ≡ ending_status result.ending }
{
    let finish = carry_out_still(alloc, command, host, console, &NoGate);
    Outcome::of(conclude(alloc, command, finish, log))
}

/// Does what words say, without the program's name before them: the command that they give by the table of commands.
///
/// Words outside the table give status 2. `run FILE` does what `solo FILE` does, but with each vCPU and each worker of a disk in
/// a thread of its own, which `rt` starts, so that its history is that of whatever way the threads interleave; it may wait for
/// them. Everything else is as with [`still_cmd`], but that `gate` is called before each slice and each write to a disk image.
pub fn vmrun<R: Threads + Wait + Sync, H: Host, S: Sink, L: Sink, G: Gate + Sync>(
    rt: &R,
    alloc: Global,
    words: &[&str],
    host: &mut H,
    console: &mut S,
    log: &mut L,
    gate: &G,
) -> Outcome
    // What the words say is done, as one command does it.
    ensures does { (command : CommandValue) → command_of (texts words.entry.now) ≡ Some command
        → Does H.seen S.seen L.seen command host.old host.new console.old console.new log.old log.new result.ending result.kept }
    // Words outside the table are refused, and nothing is done but to say so.
    ensures usage { command_of (texts words.entry.now) ≡ None → Contains (2 ∷ 71 ∷ []) result.status }
    ensures only_usage { result.status ≡ 2 → command_of (texts words.entry.now) ≡ None }
    ensures unused { command_of (texts words.entry.now) ≡ None → (host.new ≡ host.old) × (console.new ≡ console.old) × IsNone result.kept
        × TellsRefusal result.ending (L.seen log.old) (L.seen log.new) }

    ensures status { result.status ≡ ending_status result.ending }
{
    match read(alloc, words) {
        Ok(command) => Outcome::of(do_command(rt, alloc, &command, host, console, log, gate)),
        Err(error) => Outcome::of(tell(alloc, refused(error), false, log)),
    }
}

/// How words end that give no command.
fn refused(error: CmdError) -> Finish
    ensures ending { result.ending ≡ Ending.Refused (refusal_of error) }
    ensures kept { result.kept ≡ None }
{
    let refusal = match error {
        CmdError::Usage => Refusal::Usage,
        CmdError::Memory => Refusal::Memory,
    };
    Finish {
        ending: Ending::Refused(refusal),
        kept: None,
    }
}
