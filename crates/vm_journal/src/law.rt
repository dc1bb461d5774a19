ghost use Rattle.std.specs.Prelude.{◌≡◌, ◌<◌, ◌^◌, List, length, Ok};
ghost use Rattle.vm_law.specs.declared.journal.Signed.{Signed};
ghost use Rattle.vm_journal.specs.Spelling.{spelling, AreEntries, FitsEntry, FitsSigned};
ghost use Rattle.vm_journal.specs.Reading.{whole};

use vm_law::{Entry, Journal, Signed};

/// No two journals have one spelling.
pub fn one_spelling()
    ensures { (journal other : List Signed) → AreEntries journal → AreEntries other
        → spelling journal ≡ spelling other → journal ≡ other }
{}

/// The spelling of a journal is read as that journal, so that [`crate::decode`] gives back what
/// [`crate::encode`] was given.
pub fn read_back()
    ensures { (journal : List Signed) → AreEntries journal → whole (spelling journal) ≡ Ok journal }
{}

// The fields of an entry are in the ranges of their types.
fn entry_fits(entry: Entry)
    ensures { FitsEntry entry }
{
    match entry {
        Entry::Claim { cpu: _cpu }
        | Entry::Start { cpu: _cpu }
        | Entry::Step { cpu: _cpu }
        | Entry::Exit { cpu: _cpu }
        | Entry::Sleep { cpu: _cpu }
        | Entry::Wake { cpu: _cpu }
        | Entry::Yield { cpu: _cpu }
        | Entry::Turn { cpu: _cpu } => {}
        Entry::Enter {
            cpu: _cpu,
            grant: _grant,
        } => {}
        Entry::Slice { cpu: _cpu, n: _n } => {}
        Entry::Pull { disk: _disk } => {}
        Entry::Begin {
            disk: _disk,
            id: _id,
        }
        | Entry::Move {
            disk: _disk,
            id: _id,
        }
        | Entry::Hold {
            disk: _disk,
            id: _id,
        }
        | Entry::Put {
            disk: _disk,
            id: _id,
            ok: _,
        }
        | Entry::Finish {
            disk: _disk,
            id: _id,
        } => {}
        Entry::Done { k: _k } => {}
        Entry::Tick { n: _n } => {}
        Entry::Meet | Entry::Feed | Entry::Wish | Entry::End { why: _ } | Entry::Close => {}
    }
}

fn signed_fits(signed: Signed)
    ensures { FitsSigned signed }
{
    entry_fits(signed.entry);
}

fn count_of(journal: &[Signed]) -> u64
    ensures { (result ≡ length journal.now) × (result < 256 ^ 8) }
{
    journal.len() as u64
}

/// A journal that a program holds has a spelling.
pub fn entries_fit(journal: &Journal)
    ensures { AreEntries journal.now }
{
    let _count = count_of(journal.as_slice());
    for signed in journal.as_slice() {
        signed_fits(*signed);
    }
}
