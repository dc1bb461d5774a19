ghost use Rattle.std.specs.Prelude.{◌≡◌, ◌∷◌, ◌+◌, [], List, length, IfOk, Ok, ℕ};
ghost use Rattle.ckpt_store.specs.Gate.{IsShutOrWhole};
ghost use Rattle.vm_law.specs.declared.journal.Signed.{Signed};
ghost use Rattle.byte_reader.specs.Reader.{Gives, times, counted};
ghost use Rattle.vm_journal.specs.Spelling.{spelling, AreEntries};
ghost use Rattle.vm_journal.specs.Reading.{flag_at, cause_at, vcpu_fields, disk_fields, run_fields, fields_at, entry_at, signed_at, journal_at, whole, Answers};

use crate::fault::{JournalError, JournalKind};
use byte_reader::{ReadError, Refusal, read_text, read_u8, read_u16, read_u32, read_u64, refused};
use std::alloc::Global;
use vm_law::{EndCause, Entry, Journal, Seq, Signed};

type Fault = ReadError<JournalKind>;

#[tactic(auto, unfolding(crate::specs::Reading::flag_at))]
fn read_flag(bytes: &[u8]) -> Result<(bool, &[u8]), Fault>
    ensures { Gives (λ x. (x.0, x.1.now)) result (flag_at bytes.now) }
{
    match bytes {
        [] => Err(refused(JournalKind::Short, bytes)),
        [0, rest @ ..] => Ok((false, rest)),
        [1, rest @ ..] => Ok((true, rest)),
        [_, ..] => Err(refused(JournalKind::Value, bytes)),
    }
}

#[tactic(auto, unfolding(crate::specs::Reading::cause_at))]
fn read_cause(bytes: &[u8]) -> Result<(EndCause, &[u8]), Fault>
    ensures { Gives (λ x. (x.0, x.1.now)) result (cause_at bytes.now) }
{
    match bytes {
        [] => Err(refused(JournalKind::Short, bytes)),
        [1, rest @ ..] => Ok((EndCause::Budget, rest)),
        [2, rest @ ..] => Ok((EndCause::Outside, rest)),
        [_, ..] => Err(refused(JournalKind::Value, bytes)),
    }
}

// The fault at the tag that stands right before these bytes.
fn unknown_tag(rest: &[u8]) -> Fault
    ensures { result ≡ ReadError.Refused (record { left = length rest.now + 1; kind = JournalKind.Tag }) }
{
    ReadError::Refused(Refusal {
        left: rest.len() + 1,
        kind: JournalKind::Tag,
    })
}

// The fields behind the tag of an entry of a vCPU.
#[tactic(auto, unfolding(crate::specs::Reading::vcpu_fields))]
fn read_vcpu_fields(tag: u8, bytes: &[u8]) -> Result<(Entry, &[u8]), Fault>
    ensures { Gives (λ x. (x.0, x.1.now)) result (vcpu_fields tag bytes.now) }
{
    match tag {
        1 => read_u8(JournalKind::Short, bytes).map(|(cpu, rest)| (Entry::Claim { cpu }, rest)),
        2 => read_u8(JournalKind::Short, bytes).map(|(cpu, rest)| (Entry::Start { cpu }, rest)),
        3 => {
            let (cpu, rest) = read_u8(JournalKind::Short, bytes)?;
            let (grant, rest) = read_u16(JournalKind::Short, rest)?;
            Ok((Entry::Enter { cpu, grant }, rest))
        }
        4 => {
            let (cpu, rest) = read_u8(JournalKind::Short, bytes)?;
            let (n, rest) = read_u16(JournalKind::Short, rest)?;
            Ok((Entry::Slice { cpu, n }, rest))
        }
        5 => read_u8(JournalKind::Short, bytes).map(|(cpu, rest)| (Entry::Step { cpu }, rest)),
        6 => read_u8(JournalKind::Short, bytes).map(|(cpu, rest)| (Entry::Exit { cpu }, rest)),
        7 => read_u8(JournalKind::Short, bytes).map(|(cpu, rest)| (Entry::Sleep { cpu }, rest)),
        8 => read_u8(JournalKind::Short, bytes).map(|(cpu, rest)| (Entry::Wake { cpu }, rest)),
        9 => read_u8(JournalKind::Short, bytes).map(|(cpu, rest)| (Entry::Yield { cpu }, rest)),
        10 => read_u8(JournalKind::Short, bytes).map(|(cpu, rest)| (Entry::Turn { cpu }, rest)),
        _ => Err(unknown_tag(bytes)),
    }
}

// The fields behind the tag of an entry of a disk.
#[tactic(auto, unfolding(crate::specs::Reading::disk_fields))]
fn read_disk_fields(tag: u8, bytes: &[u8]) -> Result<(Entry, &[u8]), Fault>
    ensures { Gives (λ x. (x.0, x.1.now)) result (disk_fields tag bytes.now) }
{
    match tag {
        12 => read_u8(JournalKind::Short, bytes).map(|(disk, rest)| (Entry::Pull { disk }, rest)),
        13 => {
            let (disk, rest) = read_u8(JournalKind::Short, bytes)?;
            let (id, rest) = read_u32(JournalKind::Short, rest)?;
            Ok((Entry::Begin { disk, id }, rest))
        }
        14 => {
            let (disk, rest) = read_u8(JournalKind::Short, bytes)?;
            let (id, rest) = read_u32(JournalKind::Short, rest)?;
            Ok((Entry::Move { disk, id }, rest))
        }
        15 => {
            let (disk, rest) = read_u8(JournalKind::Short, bytes)?;
            let (id, rest) = read_u32(JournalKind::Short, rest)?;
            Ok((Entry::Hold { disk, id }, rest))
        }
        16 => {
            let (disk, rest) = read_u8(JournalKind::Short, bytes)?;
            let (id, rest) = read_u32(JournalKind::Short, rest)?;
            let (ok, rest) = read_flag(rest)?;
            Ok((Entry::Put { disk, id, ok }, rest))
        }
        17 => {
            let (disk, rest) = read_u8(JournalKind::Short, bytes)?;
            let (id, rest) = read_u32(JournalKind::Short, rest)?;
            Ok((Entry::Finish { disk, id }, rest))
        }
        _ => Err(unknown_tag(bytes)),
    }
}

// The fields behind the tag of an entry of the run as a whole.
#[tactic(auto, unfolding(crate::specs::Reading::run_fields))]
fn read_run_fields(tag: u8, bytes: &[u8]) -> Result<(Entry, &[u8]), Fault>
    ensures { Gives (λ x. (x.0, x.1.now)) result (run_fields tag bytes.now) }
{
    match tag {
        11 => Ok((Entry::Meet, bytes)),
        18 => Ok((Entry::Feed, bytes)),
        19 => Ok((Entry::Wish, bytes)),
        20 => read_u16(JournalKind::Short, bytes).map(|(k, rest)| (Entry::Done { k }, rest)),
        21 => read_cause(bytes).map(|(why, rest)| (Entry::End { why }, rest)),
        22 => Ok((Entry::Close, bytes)),
        23 => read_u64(JournalKind::Short, bytes).map(|(n, rest)| (Entry::Tick { n }, rest)),
        _ => Err(unknown_tag(bytes)),
    }
}

#[tactic(auto, unfolding(crate::specs::Reading::fields_at))]
fn read_fields(tag: u8, bytes: &[u8]) -> Result<(Entry, &[u8]), Fault>
    ensures { Gives (λ x. (x.0, x.1.now)) result (fields_at tag bytes.now) }
{
    match tag {
        0..=10 => read_vcpu_fields(tag, bytes),
        12..=17 => read_disk_fields(tag, bytes),
        _ => read_run_fields(tag, bytes),
    }
}

#[tactic(auto, unfolding(crate::specs::Reading::entry_at))]
fn read_entry(bytes: &[u8]) -> Result<(Entry, &[u8]), Fault>
    ensures { Gives (λ x. (x.0, x.1.now)) result (entry_at bytes.now) }
{
    let (tag, rest) = read_u8(JournalKind::Short, bytes)?;
    read_fields(tag, rest)
}

#[tactic(auto, unfolding(crate::specs::Reading::signed_at))]
fn read_signed(bytes: &[u8]) -> Result<(Signed, &[u8]), Fault>
    ensures { Gives (λ x. (x.0, x.1.now)) result (signed_at bytes.now) }
{
    let (by, rest) = read_u16(JournalKind::Short, bytes)?;
    let (entry, rest) = read_entry(rest)?;
    Ok((Signed { by, entry }, rest))
}

// So many entries, one after the other.
fn read_entries(alloc: Global, count: u64, bytes: &[u8]) -> Result<(Vec<Signed>, &[u8]), Fault>
    ensures { Gives (λ x. (x.0.items, x.1.now)) result (times count signed_at bytes.now) }
{
    let mut journal = Vec::new(alloc);
    let mut rest = bytes;
    for _ in 0..count {
        let (signed, after) = read_signed(rest)?;
        journal.push(signed)?;
        rest = after;
    }
    Ok((journal, rest))
}

const GATE: [u8; 1] = [1];

const MAGIC: [u8; 8] = *b"VMJRNL1\n";

#[tactic(auto, unfolding(crate::specs::Reading::journal_at))]
fn read_journal(alloc: Global, bytes: &[u8]) -> Result<(Vec<Signed>, &[u8]), Fault>
    ensures { Gives (λ x. (x.0.items, x.1.now)) result (journal_at bytes.now) }
{
    let (_, rest) = read_text(JournalKind::Short, JournalKind::Gate, &GATE, bytes)?;
    let (_, rest) = read_text(JournalKind::Short, JournalKind::Magic, &MAGIC, rest)?;
    let (count, rest) = read_u64(JournalKind::Short, rest)?;
    read_entries(alloc, count, rest)
}

#[tactic(auto, unfolding(crate::specs::Reading::whole))]
fn read_whole(alloc: Global, bytes: &[u8]) -> Result<Journal, Fault>
    ensures { Gives (λ journal. journal) result (whole bytes.now) }
{
    let (journal, rest) = read_journal(alloc, bytes)?;
    if !rest.is_empty() {
        return Err(refused(JournalKind::Trailing, rest));
    }
    Ok(Seq::from_vec(journal))
}

/// The journal that the bytes spell, all of them; else the first fault that is met from left to right.
///
/// A field that is cut is a fault at its first byte. `Memory` may be the answer to any bytes.
pub fn decode(alloc: Global, bytes: &[u8]) -> Result<Journal, JournalError>
    // What is read is spelled so, each byte of it.
    ensures found { IfOk result (λ journal. bytes.now ≡ spelling journal) }
    // What is spelled so is read, unless memory runs out.
    ensures only { (journal : List Signed) → AreEntries journal → bytes.now ≡ spelling journal
        → Answers (length bytes.now) result (Ok journal) }
    // What a crash left of a text that was saved behind its gate, and is read, is that text.
    ensures after_crash { IfOk result (λ _. (text : List ℕ) → IsShutOrWhole text bytes.now → bytes.now ≡ text) }
    // Which fault it is, and where.
    ensures exact { Answers (length bytes.now) result (whole bytes.now) }
{
    match read_whole(alloc, bytes) {
        Ok(journal) => Ok(journal),
        Err(ReadError::Memory) => Err(JournalError::Memory),
        Err(ReadError::Refused(refusal)) => Err(JournalError::Fault {
            at: bytes.len().saturating_sub(refusal.left) as u64,
            kind: refusal.kind,
        }),
    }
}
