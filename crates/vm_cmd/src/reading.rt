//! The table of commands.
ghost use Rattle.std.specs.Prelude.{◌≡◌, IfOk, List, Some, None, option_map};
ghost use Rattle.vm_cmd.specs.Word.{texts};
ghost use Rattle.vm_cmd.specs.Form.{Use};
ghost use Rattle.vm_cmd.specs.Matched.{Holds};
ghost use Rattle.vm_cmd.specs.Answers.{Answers};
ghost use Rattle.vm_cmd.specs.Table.{command_of, row, run_form, run_of_uses, replay_form, replay_of_uses, show_form, show_of_uses, files_form, files_of_uses, make_form, make_of_uses, inspect_form, inspect_of_uses};

use crate::builder::{
    files_command, inspect_command, make_command, replay_command, run_command, show_command,
};
use crate::command::{CmdError, Command, InspectWords, RunWords};
use crate::matched::{
    counter_at, limit_of, matched, number_of, pair_at, place_of, text_of, was_given,
};
use clap::ArgMatches;
use std::alloc::Global;
use vm_law::Text;

/// The command that the words give, without the program's name.
///
/// The first word is the command. Options stand anywhere after it, each at most once, as `--name value` or `--name=value`.
/// Any other word that begins with `-` is refused, also where a value is to stand. No word and no value is empty.
///
/// `Usage` comes only where the words are outside the table, `Memory` at any words.
pub fn read(alloc: Global, words: &[&str]) -> Result<Command, CmdError>
    ensures command { IfOk result (λ command. command_of (texts words.now) ≡ Some command) }
    ensures usage { result ≡ Err CmdError.Usage → command_of (texts words.now) ≡ None }
{
    command_of(alloc, words)
}

fn command_of(alloc: Global, words: &[&str]) -> Result<Command, CmdError>
    ensures { Answers result (command_of (texts words.now)) }
{
    let [name, rest @ ..] = words else {
        return Err(CmdError::Usage);
    };
    match *name {
        "run" => run(alloc, rest),
        "solo" => solo(alloc, rest),
        "replay" => replay(alloc, rest),
        "show" => show(alloc, rest),
        "asm" => asm(alloc, rest),
        "make" => make(alloc, rest),
        "convert" => convert(alloc, rest),
        "arrive" => arrive(alloc, rest),
        "inspect" => inspect(alloc, rest),
        _ => Err(CmdError::Usage),
    }
}

fn run(alloc: Global, words: &[&str]) -> Result<Command, CmdError>
    ensures { Answers result (option_map Command.Run (row run_form run_of_uses (texts words.now))) }
{
    let words = run_words(alloc, words)?;
    Ok(Command::Run(words))
}

fn solo(alloc: Global, words: &[&str]) -> Result<Command, CmdError>
    ensures { Answers result (option_map Command.Solo (row run_form run_of_uses (texts words.now))) }
{
    let words = run_words(alloc, words)?;
    Ok(Command::Solo(words))
}

fn run_words(alloc: Global, words: &[&str]) -> Result<RunWords, CmdError>
    ensures { Answers result (row run_form run_of_uses (texts words.now)) }
{
    let matches = matched(run_command(alloc), words)?;
    run_of(alloc, &matches)
}

fn run_of(alloc: Global, matches: &ArgMatches) -> Result<RunWords, CmdError>
    ensures { (us : List Use) → Holds run_form us matches.now → Answers result (run_of_uses us) }
{
    let state = was_given(matches, "state");
    let file = place_of(alloc, matches, "file")?;
    let Some(limit) = limit_of(matches) else {
        return Err(CmdError::Usage);
    };
    let journal = text_of(alloc, matches, "journal")?;
    let restore = text_of(alloc, matches, "restore")?;
    Ok(RunWords {
        file,
        limit,
        journal,
        restore,
        state,
    })
}

fn replay(alloc: Global, words: &[&str]) -> Result<Command, CmdError>
    ensures { Answers result (row replay_form replay_of_uses (texts words.now)) }
{
    let matches = matched(replay_command(alloc), words)?;
    replay_of(alloc, &matches)
}

fn replay_of(alloc: Global, matches: &ArgMatches) -> Result<Command, CmdError>
    ensures { (us : List Use) → Holds replay_form us matches.now → Answers result (replay_of_uses us) }
{
    let state = was_given(matches, "state");
    let file = place_of(alloc, matches, "file")?;
    let Some(limit) = limit_of(matches) else {
        return Err(CmdError::Usage);
    };
    let journal = place_of(alloc, matches, "journal")?;
    let restore = text_of(alloc, matches, "restore")?;
    let words = RunWords {
        file,
        limit,
        journal: None,
        restore,
        state,
    };
    Ok(Command::Replay(words, journal))
}

fn show(alloc: Global, words: &[&str]) -> Result<Command, CmdError>
    ensures { Answers result (row show_form show_of_uses (texts words.now)) }
{
    let matches = matched(show_command(alloc), words)?;
    show_of(alloc, &matches)
}

fn show_of(alloc: Global, matches: &ArgMatches) -> Result<Command, CmdError>
    ensures { (us : List Use) → Holds show_form us matches.now → Answers result (show_of_uses us) }
{
    let config = place_of(alloc, matches, "config")?;
    Ok(Command::Show(config))
}

fn asm(alloc: Global, words: &[&str]) -> Result<Command, CmdError>
    ensures { Answers result (option_map (λ f. Command.Asm f.0 f.1) (row files_form files_of_uses (texts words.now))) }
{
    let (file, out) = files(alloc, words)?;
    Ok(Command::Asm(file, out))
}

fn convert(alloc: Global, words: &[&str]) -> Result<Command, CmdError>
    ensures { Answers result (option_map (λ f. Command.Convert f.0 f.1) (row files_form files_of_uses (texts words.now))) }
{
    let (file, out) = files(alloc, words)?;
    Ok(Command::Convert(file, out))
}

fn arrive(alloc: Global, words: &[&str]) -> Result<Command, CmdError>
    ensures { Answers result (option_map (λ f. Command.Arrive f.0 f.1) (row files_form files_of_uses (texts words.now))) }
{
    let (file, out) = files(alloc, words)?;
    Ok(Command::Arrive(file, out))
}

fn files(alloc: Global, words: &[&str]) -> Result<(Text, Text), CmdError>
    ensures { Answers result (row files_form files_of_uses (texts words.now)) }
{
    let matches = matched(files_command(alloc), words)?;
    files_of(alloc, &matches)
}

fn files_of(alloc: Global, matches: &ArgMatches) -> Result<(Text, Text), CmdError>
    ensures { (us : List Use) → Holds files_form us matches.now → Answers result (files_of_uses us) }
{
    let file = place_of(alloc, matches, "file")?;
    let out = place_of(alloc, matches, "out")?;
    Ok((file, out))
}

fn make(alloc: Global, words: &[&str]) -> Result<Command, CmdError>
    ensures { Answers result (row make_form make_of_uses (texts words.now)) }
{
    let matches = matched(make_command(alloc), words)?;
    match make_of(&matches) {
        Some(command) => Ok(command),
        None => Err(CmdError::Usage),
    }
}

fn make_of(matches: &ArgMatches) -> Option<Command>
    ensures { (us : List Use) → Holds make_form us matches.now → result ≡ make_of_uses us }
{
    let cpus = number_of(matches, "cpus", 1, 16)?;
    let number = number_of(matches, "number", 0, 4_294_967_295)?;
    Some(Command::Make {
        cpus: cpus as u8,
        number: number as u32,
    })
}

fn inspect(alloc: Global, words: &[&str]) -> Result<Command, CmdError>
    ensures { Answers result (row inspect_form inspect_of_uses (texts words.now)) }
{
    let matches = matched(inspect_command(alloc), words)?;
    inspect_of(alloc, &matches)
}

fn inspect_of(alloc: Global, matches: &ArgMatches) -> Result<Command, CmdError>
    ensures { (us : List Use) → Holds inspect_form us matches.now → Answers result (inspect_of_uses us) }
{
    let file = place_of(alloc, matches, "file")?;
    let Some(limit) = limit_of(matches) else {
        return Err(CmdError::Usage);
    };
    let restore = text_of(alloc, matches, "restore")?;
    let journal = place_of(alloc, matches, "journal")?;
    let Some(at) = counter_at(matches, "at") else {
        return Err(CmdError::Usage);
    };
    let Some(vector) = pair_at(matches, "vector") else {
        return Err(CmdError::Usage);
    };
    let Some(sector) = pair_at(matches, "sector") else {
        return Err(CmdError::Usage);
    };
    let run = RunWords {
        file,
        limit,
        journal: None,
        restore,
        state: false,
    };
    let words = InspectWords {
        journal,
        at,
        vector,
        sector,
    };
    Ok(Command::Inspect(run, words))
}
