//! The commands that `clap` reads by, one for each row of the table.
ghost use Rattle.std.specs.Prelude.{◌≡◌, false, true, IfOk, Some};
ghost use Rattle.clap.specs.Words.{app_of, rule_of, with_rule};
ghost use Rattle.vm_cmd.specs.Shapes.{place_of, valued_of, flag_of, bare_app, run_app, replay_app, show_app, files_app, make_app, inspect_app};

use clap::{Arg, ArgAction, Command};
use std::alloc::{AllocError, Global};

// A word that must be there, and has no name.
fn place<'a>(alloc: Global, id: &'a str) -> Arg<'a>
    ensures rule { rule_of result ≡ place_of id.entry.now }
    ensures local { result.global ≡ false }
{
    Arg::new(alloc, id).required(true)
}

// `--id VALUE`.
fn valued<'a>(alloc: Global, id: &'a str) -> Arg<'a>
    ensures rule { rule_of result ≡ valued_of id.entry.now }
    ensures local { result.global ≡ false }
{
    Arg::new(alloc, id).long(id).action(ArgAction::Set)
}

// `--id`.
fn flag<'a>(alloc: Global, id: &'a str) -> Arg<'a>
    ensures rule { rule_of result ≡ flag_of id.entry.now }
    ensures local { result.global ≡ false }
{
    Arg::new(alloc, id).long(id).action(ArgAction::SetTrue)
}

fn bare<'a>(alloc: Global, name: &'a str) -> Command<'a>
    ensures { app_of result ≡ bare_app name.entry.now }
{
    Command::new(alloc, name)
        .no_binary_name(true)
        .disable_help_flag(true)
}

// The next functions add one rule or two alike. A row's function then holds a command and no rules.

fn with_place<'a>(
    alloc: Global,
    command: Command<'a>,
    id: &'a str,
) -> Result<Command<'a>, AllocError>
    ensures { IfOk result (λ c. app_of c ≡ with_rule (app_of command.entry) (place_of id.entry.now)) }
{
    command.arg(place(alloc, id))
}

fn with_valued<'a>(
    alloc: Global,
    command: Command<'a>,
    id: &'a str,
) -> Result<Command<'a>, AllocError>
    ensures { IfOk result (λ c. app_of c ≡ with_rule (app_of command.entry) (valued_of id.entry.now)) }
{
    command.arg(valued(alloc, id))
}

fn with_places<'a>(
    alloc: Global,
    command: Command<'a>,
    first: &'a str,
    second: &'a str,
) -> Result<Command<'a>, AllocError>
    ensures { IfOk result (λ c. app_of c ≡ with_rule (with_rule (app_of command.entry) (place_of first.entry.now)) (place_of second.entry.now)) }
{
    let command = with_place(alloc, command, first)?;
    with_place(alloc, command, second)
}

fn with_both_valued<'a>(
    alloc: Global,
    command: Command<'a>,
    first: &'a str,
    second: &'a str,
) -> Result<Command<'a>, AllocError>
    ensures { IfOk result (λ c. app_of c ≡ with_rule (with_rule (app_of command.entry) (valued_of first.entry.now)) (valued_of second.entry.now)) }
{
    let command = with_valued(alloc, command, first)?;
    with_valued(alloc, command, second)
}

fn with_flag<'a>(
    alloc: Global,
    command: Command<'a>,
    id: &'a str,
) -> Result<Command<'a>, AllocError>
    ensures { IfOk result (λ c. app_of c ≡ with_rule (app_of command.entry) (flag_of id.entry.now)) }
{
    command.arg(flag(alloc, id))
}

/// The row of `run` and `solo`.
pub fn run_command<'a>(alloc: Global) -> Result<Command<'a>, AllocError>
    ensures { IfOk result (λ c. app_of c ≡ run_app) }
{
    let command = with_place(alloc, bare(alloc, "run"), "file")?;
    let command = with_both_valued(alloc, command, "limit", "journal")?;
    let command = with_valued(alloc, command, "restore")?;
    with_flag(alloc, command, "state")
}

/// The row of `replay`.
pub fn replay_command<'a>(alloc: Global) -> Result<Command<'a>, AllocError>
    ensures { IfOk result (λ c. app_of c ≡ replay_app) }
{
    let command = with_places(alloc, bare(alloc, "replay"), "file", "journal")?;
    let command = with_both_valued(alloc, command, "limit", "restore")?;
    with_flag(alloc, command, "state")
}

/// The row of `show`.
pub fn show_command<'a>(alloc: Global) -> Result<Command<'a>, AllocError>
    ensures { IfOk result (λ c. app_of c ≡ show_app) }
{
    with_place(alloc, bare(alloc, "show"), "config")
}

/// The row of `asm`, `convert` and `arrive`.
pub fn files_command<'a>(alloc: Global) -> Result<Command<'a>, AllocError>
    ensures { IfOk result (λ c. app_of c ≡ files_app) }
{
    with_places(alloc, bare(alloc, "files"), "file", "out")
}

/// The row of `make`.
pub fn make_command<'a>(alloc: Global) -> Result<Command<'a>, AllocError>
    ensures { IfOk result (λ c. app_of c ≡ make_app) }
{
    with_places(alloc, bare(alloc, "make"), "cpus", "number")
}

/// The row of `inspect`.
pub fn inspect_command<'a>(alloc: Global) -> Result<Command<'a>, AllocError>
    ensures { IfOk result (λ c. app_of c ≡ inspect_app) }
{
    let command = with_places(alloc, bare(alloc, "inspect"), "file", "journal")?;
    let command = with_place(alloc, command, "at")?;
    let command = with_both_valued(alloc, command, "limit", "restore")?;
    with_both_valued(alloc, command, "vector", "sector")
}
