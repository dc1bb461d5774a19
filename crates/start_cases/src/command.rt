use crate::case::{CaseError, bytes_of, number_of};
use crate::images::through_images;
use crate::shown::{refusal_text, shown_plan, shown_start};
use std::alloc::Global;
use vm_cmd::{Command, RunWords};
use vm_host::MemHost;
use vm_law::Text;
use vm_start::{read_plan, read_start};

/// What a case is over.
#[derive(Drop)]
struct Bed {
    host: MemHost,
    /// Whether the images are opened.
    opens: bool,
}

/// Adds a file, a failure or the wish to open the images.
fn add_part(alloc: Global, bed: &mut Bed, part: &str) -> Result<(), CaseError> {
    if part == "?" {
        bed.opens = true;
        return Ok(());
    }
    if let Some(call) = part.strip_prefix('!') {
        let call = number_of(call.as_bytes())?;
        bed.host.fail(alloc, u64::from(call))?;
        return Ok(());
    }
    let Some((name, text)) = part.split_once('=') else {
        return Err(CaseError::Form);
    };
    let bytes = bytes_of(alloc, text)?;
    bed.host.put(alloc, name, &bytes)?;
    Ok(())
}

/// The start of a command line, or its refusal.
fn start_outcome(
    alloc: Global,
    bed: &mut Bed,
    words: &RunWords,
    journal: Option<&Text>,
) -> Result<String, CaseError> {
    if words.limit < 1 || words.limit > 20_000_000 {
        return Err(CaseError::Form);
    }
    match read_start(alloc, &mut bed.host, words, journal) {
        Ok(start) => {
            if bed.opens {
                through_images(alloc, &mut bed.host, &start)
            } else {
                shown_start(alloc, &start)
            }
        }
        Err(refusal) => refusal_text(alloc, &refusal),
    }
}

/// The plan of a configuration, or its refusal.
fn plan_outcome(alloc: Global, bed: &mut Bed, name: &str) -> Result<String, CaseError> {
    match read_plan(alloc, &mut bed.host, name) {
        Ok(plan) => shown_plan(alloc, &plan),
        Err(refusal) => refusal_text(alloc, &refusal),
    }
}

/// What becomes of a command line.
fn command_outcome(alloc: Global, bed: &mut Bed, words: &[&str]) -> Result<String, CaseError> {
    match vm_cmd::read(alloc, words) {
        Ok(Command::Run(words)) => { start_outcome(alloc, bed, &words, words.journal.as_ref()) }
        Ok(Command::Solo(words)) => { start_outcome(alloc, bed, &words, words.journal.as_ref()) }
        Ok(Command::Replay(words, journal)) => { start_outcome(alloc, bed, &words, Some(&journal)) }
        Ok(Command::Show(name)) => plan_outcome(alloc, bed, name.as_str()),
        _ => Err(CaseError::Form),
    }
}

/// What becomes of a case, as a line.
pub fn outcome(alloc: Global, line: &str) -> Result<String, CaseError> {
    let mut bed = Bed {
        host: MemHost::new(alloc),
        opens: false,
    };
    let mut words = Vec::new(alloc);
    for (k, part) in line.split('|').enumerate() {
        if k == 0 {
            for word in part.split(' ') {
                words.push(word)?;
            }
        } else {
            add_part(alloc, &mut bed, part)?;
        }
    }
    command_outcome(alloc, &mut bed, words.as_slice())
}
