use crate::case::{CaseError, put_text};
use std::alloc::Global;
use vm_cmd::{CmdError, Command, InspectWords, RunWords};
use vm_law::Text;

fn put_file(out: &mut String, what: &str, file: &Option<Text>) -> Result<(), CaseError> {
    if let Some(name) = file {
        out.push_str(what)?;
        put_text(out, name.as_str())?;
    }
    Ok(())
}

fn put_run(out: &mut String, name: &str, words: &RunWords) -> Result<(), CaseError> {
    out.push_str(name)?;
    put_text(out, words.file.as_str())?;
    let limit = words.limit;
    write!(out, " limit {limit}")?;
    put_file(out, " journal ", &words.journal)?;
    put_file(out, " restore ", &words.restore)?;
    if words.state {
        out.push_str(" state")?;
    }
    Ok(())
}

fn put_files(out: &mut String, name: &str, file: &Text, to: &Text) -> Result<(), CaseError> {
    out.push_str(name)?;
    put_text(out, file.as_str())?;
    out.push_str(" ")?;
    put_text(out, to.as_str())
}

fn put_pair(out: &mut String, what: &str, pair: Option<(u32, u32)>) -> Result<(), CaseError> {
    if let Some((first, second)) = pair {
        write!(out, "{what}{first}:{second}")?;
    }
    Ok(())
}

fn put_inspect(out: &mut String, run: &RunWords, words: &InspectWords) -> Result<(), CaseError> {
    put_run(out, "inspect ", run)?;
    out.push_str(" of ")?;
    put_text(out, words.journal.as_str())?;
    let at = words.at;
    write!(out, " at {at}")?;
    put_pair(out, " vector ", words.vector)?;
    put_pair(out, " sector ", words.sector)
}

fn put_command(out: &mut String, command: &Command) -> Result<(), CaseError> {
    match command {
        Command::Run(words) => put_run(out, "run ", words),
        Command::Solo(words) => put_run(out, "solo ", words),
        Command::Replay(words, journal) => {
            put_run(out, "replay ", words)?;
            out.push_str(" of ")?;
            put_text(out, journal.as_str())
        }
        Command::Show(config) => {
            out.push_str("show ")?;
            put_text(out, config.as_str())
        }
        Command::Asm(file, to) => put_files(out, "asm ", file, to),
        Command::Make { cpus, number } => {
            write!(out, "make {cpus} {number}")?;
            Ok(())
        }
        Command::Convert(file, to) => put_files(out, "convert ", file, to),
        Command::Arrive(file, to) => put_files(out, "arrive ", file, to),
        Command::Inspect(run, words) => put_inspect(out, run, words),
    }
}

/// The command that words give.
pub fn words_outcome(alloc: Global, text: &str) -> Result<String, CaseError> {
    let mut words = Vec::new(alloc);
    if !text.is_empty() {
        for word in text.split('|') {
            words.push(word)?;
        }
    }
    let mut out = String::new(alloc);
    match vm_cmd::read(alloc, &words) {
        Ok(command) => put_command(&mut out, &command)?,
        Err(CmdError::Usage) => out.push_str("usage")?,
        Err(CmdError::Memory) => return Err(CaseError::Memory),
    }
    Ok(out)
}
