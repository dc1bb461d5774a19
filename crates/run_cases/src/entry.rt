use crate::case::{CaseError, cut, number_of, numbers_of, word};
use vm_law::{EndCause, Entry, Signed};

/// The low 8 bits of a number.
fn low(number: u64) -> u8 {
    (number % 256) as u8
}

/// The low 16 bits of a number.
fn middle(number: u64) -> u16 {
    (number % 0x1_0000) as u16
}

/// An entry of a vCPU.
fn cpu_entry(name: &str, numbers: &[u64; 3]) -> Option<Entry> {
    let cpu = low(numbers[0]);
    let count = middle(numbers[1]);
    Some(match name {
        "claim" => Entry::Claim { cpu },
        "start" => Entry::Start { cpu },
        "enter" => Entry::Enter { cpu, grant: count },
        "slice" => Entry::Slice { cpu, n: count },
        "step" => Entry::Step { cpu },
        "exit" => Entry::Exit { cpu },
        "sleep" => Entry::Sleep { cpu },
        "wake" => Entry::Wake { cpu },
        "yield" => Entry::Yield { cpu },
        "turn" => Entry::Turn { cpu },
        _ => return None,
    })
}

/// An entry of a worker.
fn disk_entry(name: &str, numbers: &[u64; 3]) -> Option<Entry> {
    let disk = low(numbers[0]);
    let id = (numbers[1] % 0x1_0000_0000) as u32;
    Some(match name {
        "pull" => Entry::Pull { disk },
        "begin" => Entry::Begin { disk, id },
        "move" => Entry::Move { disk, id },
        "hold" => Entry::Hold { disk, id },
        "put" => Entry::Put { disk, id, ok: true },
        "fail" => Entry::Put {
            disk,
            id,
            ok: false,
        },
        "finish" => Entry::Finish { disk, id },
        _ => return None,
    })
}

/// An entry of control.
fn control_entry(name: &str, numbers: &[u64; 3]) -> Option<Entry> {
    let k = middle(numbers[0]);
    Some(match name {
        "meet" => Entry::Meet,
        "feed" => Entry::Feed,
        "wish" => Entry::Wish,
        "done" => Entry::Done { k },
        "budget" => Entry::End {
            why: EndCause::Budget,
        },
        "outside" => Entry::End {
            why: EndCause::Outside,
        },
        "close" => Entry::Close,
        "tick" => Entry::Tick { n: numbers[0] },
        _ => return None,
    })
}

fn entry_named(name: &str, numbers: &[u64; 3]) -> Result<Entry, CaseError> {
    cpu_entry(name, numbers)
        .or(disk_entry(name, numbers))
        .or(control_entry(name, numbers))
        .ok_or(CaseError::Form)
}

/// The entry that a text spells: its pass, its name and its numbers.
pub fn entry_of(text: &str) -> Result<Signed, CaseError> {
    let (by, rest) = cut(text);
    let (name, numbers) = cut(rest);
    Ok(Signed {
        by: word(number_of(by)?)?,
        entry: entry_named(name, &numbers_of(numbers)?)?,
    })
}
