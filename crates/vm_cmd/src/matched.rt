//! What `clap` read.
ghost use Rattle.std.specs.Prelude.{◌≡◌, true, false, IfOk, List, ℕ, option_and_then, codes, Option};
ghost use Rattle.std.specs.List.{list_all};
ghost use Rattle.clap.specs.Matches.{found_of, matched_of};
ghost use Rattle.clap.specs.Words.{app_of, first_value};
ghost use Rattle.vm_cmd.specs.Word.{is_allowed, texts};
ghost use Rattle.vm_cmd.specs.Form.{Form};
ghost use Rattle.vm_cmd.specs.Shapes.{MadeOf};
ghost use Rattle.vm_cmd.specs.Matched.{Matches, is_line};
ghost use Rattle.vm_cmd.specs.Answers.{Answers};
ghost use Rattle.vm_cmd.specs.Table.{limit_of, number_in, counter_of, pair_option};

use crate::command::CmdError;
use crate::number::{counter_of, number, pair_option};
use crate::word::all_allowed;
use clap::error::ErrorKind;
use clap::parser::ValueSource;
use clap::{ArgMatches, Command};
use std::alloc::{AllocError, Global};
use vm_law::{OutOfMemory, Text};

/// The words by a command that is made of a row.
pub fn matched<'a>(
    command: Result<Command<'a>, AllocError>,
    words: &'a [&'a str],
) -> Result<ArgMatches<'a>, CmdError>
    ensures { (f : Form) → IfOk command.entry (λ c. MadeOf (app_of c) f) → Matches f (texts words.entry.now) result }
{
    if !all_allowed(words) {
        return Err(CmdError::Usage);
    }
    match command {
        Ok(command) => parsed(command, words),
        Err(_) => Err(CmdError::Memory),
    }
}

fn parsed<'a>(command: Command<'a>, words: &'a [&'a str]) -> Result<ArgMatches<'a>, CmdError>
    requires { list_all (λ w. is_allowed w.now) words.now ≡ true }
    ensures { (f : Form) → MadeOf (app_of command.entry) f → Matches f (texts words.entry.now) result }
{
    match command.try_get_matches_from(words) {
        Ok(matches) => Ok(matches),
        Err(error) => match error.kind() {
            ErrorKind::OutOfMemory => Err(CmdError::Memory),
            _ => Err(CmdError::Usage),
        },
    }
}

/// Whether the words gave the flag.
pub fn was_given(matches: &ArgMatches, id: &str) -> bool
    ensures { result ≡ is_line (option_and_then (λ a. a.source) (matched_of (found_of matches.now) id.now)) }
{
    match matches.value_source(id) {
        Some(ValueSource::CommandLine) => true,
        Some(ValueSource::DefaultValue) => false,
        None => false,
    }
}

/// The text of a place or an option, if it was given.
pub fn text_of(alloc: Global, matches: &ArgMatches, id: &str) -> Result<Option<Text>, OutOfMemory>
    ensures { IfOk result (λ text. text ≡ first_value (found_of matches.now) id.now) }
{
    match matches.get_str(id) {
        Some(text) => Ok(Some(Text::from_text(alloc, text)?)),
        None => Ok(None),
    }
}

/// The text of a place.
pub fn place_of(alloc: Global, matches: &ArgMatches, id: &str) -> Result<Text, CmdError>
    ensures { Answers result (first_value (found_of matches.now) id.now) }
{
    match matches.get_str(id) {
        Some(text) => Ok(Text::from_text(alloc, text)?),
        None => Err(CmdError::Usage),
    }
}

/// The number of a place, from `low` to `high`, in 1 to 10 digits.
pub fn number_of(matches: &ArgMatches, id: &str, low: u64, high: u64) -> Option<u64>
    ensures { result ≡ option_and_then (number_in 10 low high) (first_value (found_of matches.now) id.now) }
{
    number(matches.get_str(id)?, 10, low, high)
}

/// The limit of instructions.
pub fn limit_of(matches: &ArgMatches) -> Option<u64>
    ensures { result ≡ limit_of (first_value (found_of matches.now) (codes "limit")) }
{
    match matches.get_str("limit") {
        Some(text) => number(text, 8, 1, 20_000_000),
        None => Some(10_000_000),
    }
}

/// The number of a place, in 1 to 9 digits.
pub fn counter_at(matches: &ArgMatches, id: &str) -> Option<u32>
    ensures { result ≡ option_and_then counter_of (first_value (found_of matches.now) id.now) }
{
    counter_of(matches.get_str(id)?)
}

/// The two numbers of an option, if it was given; `None` where its value has another form.
pub fn pair_at(matches: &ArgMatches, id: &str) -> Option<Option<(u32, u32)>>
    ensures { result ≡ pair_option (first_value (found_of matches.now) id.now) }
{
    pair_option(matches.get_str(id))
}
