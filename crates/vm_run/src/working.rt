//! The work of each command.
ghost use Rattle.vm_run.specs.Answer.{reported};
ghost use Rattle.vm_run.specs.Words.{HasLimit, IsStill, asks_state};
ghost use Rattle.vm_run.specs.Works.{Works};
ghost use Rattle.std.specs.Prelude.{◌≡◌, None, Option, true, false};
ghost use Rattle.vm_outcome.specs.declared.outcome.Kept.{Kept as KeptValue};

use crate::showing::show;
use crate::unbuilt::later;
use std::alloc::Global;
use std::sync::Wait;
use std::thread::Threads;
use vm_assembling::asm;
use vm_cmd::Command;
use vm_host::{Gate, Host, Sink};
use vm_making::make;
use vm_outcome::Finish;
use vm_replaying::replay;
use vm_soloing::solo;
use vm_threading::run;

/// Does what a command other than `run` says, on the calling thread. What isn't built yet is refused before anything is read.
pub(crate) fn carry_out_still<H: Host, S: Sink, G: Gate>(
    alloc: Global,
    command: &Command,
    host: &mut H,
    console: &mut S,
    gate: &G,
) -> Finish
    requires limit { HasLimit command.now }
    requires still { IsStill command.now }
    ensures { Works H.seen S.seen command.now host.old host.new console.old console.new result.ending result.kept }
{
    match command {
        Command::Solo(words) => solo(alloc, words, host, console, gate),
        Command::Replay(words, journal) => replay(alloc, words, journal, host, console),
        Command::Show(config) => show(alloc, config.as_str(), host, console),
        Command::Asm(file, out) => asm(alloc, file.as_str(), out.as_str(), host),
        Command::Run(_) => unreachable!(),
        Command::Make { cpus, number } => make(alloc, *cpus, *number, console, gate),
        Command::Convert(_, _) => later(alloc, "convert"),
        Command::Arrive(_, _) => later(alloc, "arrive"),
        Command::Inspect(_, _) => later(alloc, "inspect"),
    }
}

/// Does what a command says, `run` on threads.
pub(crate) fn carry_out<R, H, S, G>(
    rt: &R,
    alloc: Global,
    command: &Command,
    host: &mut H,
    console: &mut S,
    gate: &G,
) -> Finish
where
    R: Threads + Wait + Sync,
    H: Host,
    S: Sink,
    G: Gate + Sync,
    requires { HasLimit command.now }
    ensures { Works H.seen S.seen command.now host.old host.new console.old console.new result.ending result.kept }
{
    match command {
        Command::Run(words) => run(rt, alloc, words, host, console, gate),
        _ => carry_out_still(alloc, command, host, console, gate),
    }
}

/// Whether the report is to tell the state of each vCPU.
pub(crate) fn asks_state(command: &Command) -> bool
    ensures { result ≡ asks_state command.now }
{
    match command {
        Command::Solo(words) => words.state,
        Command::Run(words) => words.state,
        Command::Replay(words, _) => words.state,
        _ => false,
    }
}

/// Whether the log is told of the run that the command keeps.
pub(crate) fn has_report(command: &Command) -> bool
    ensures yes { result ≡ true → (kept : Option KeptValue) → reported command.now kept ≡ kept }
    ensures no { result ≡ false → (asks_state command.now ≡ false) × ((kept : Option KeptValue) → reported command.now kept ≡ None) }
{
    match command {
        Command::Make { .. } => false,
        _ => true,
    }
}
