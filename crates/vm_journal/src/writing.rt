ghost use Rattle.std.specs.Prelude.{◌≡◌, ◌++◌, ◌∷◌, [], length, OnOk, IfOk, Ok};
ghost use Rattle.vm_journal.specs.Spelling.{byte, word, dword, qword, entry_bytes, signed_bytes, spelling, FitsEntry, FitsSigned};
ghost use Rattle.vm_journal.specs.Reading.{whole};

use byteorder::{ByteOrder, LittleEndian};
use std::alloc::Global;
use vm_law::{EndCause, Entry, Journal, OutOfMemory, Signed};

fn put_u16(out: &mut Vec<u8>, n: u16) -> Result<(), OutOfMemory>
    ensures { OnOk result (out.new.items ≡ out.old.items ++ word n) }
{
    let mut bytes = [0u8; 2];
    LittleEndian::write_u16(&mut bytes, n);
    out.extend_from_slice(&bytes)?;
    Ok(())
}

fn put_u32(out: &mut Vec<u8>, n: u32) -> Result<(), OutOfMemory>
    ensures { OnOk result (out.new.items ≡ out.old.items ++ dword n) }
{
    let mut bytes = [0u8; 4];
    LittleEndian::write_u32(&mut bytes, n);
    out.extend_from_slice(&bytes)?;
    Ok(())
}

fn put_u64(out: &mut Vec<u8>, n: u64) -> Result<(), OutOfMemory>
    ensures { OnOk result (out.new.items ≡ out.old.items ++ qword n) }
{
    let mut bytes = [0u8; 8];
    LittleEndian::write_u64(&mut bytes, n);
    out.extend_from_slice(&bytes)?;
    Ok(())
}

// A tag and a field of one byte.
fn put_tag(out: &mut Vec<u8>, tag: u8, number: u8) -> Result<(), OutOfMemory>
    ensures { OnOk result (out.new.items ≡ out.old.items ++ tag ∷ byte number) }
{
    out.extend_from_slice(&[tag, number])?;
    Ok(())
}

// A tag, a vCPU and a count of instructions.
fn put_count(out: &mut Vec<u8>, tag: u8, cpu: u8, count: u16) -> Result<(), OutOfMemory>
    ensures { OnOk result (out.new.items ≡ out.old.items ++ tag ∷ (byte cpu ++ word count)) }
{
    put_tag(out, tag, cpu)?;
    put_u16(out, count)
}

// A tag, a disk and a request's number.
fn put_request(out: &mut Vec<u8>, tag: u8, disk: u8, id: u32) -> Result<(), OutOfMemory>
    ensures { OnOk result (out.new.items ≡ out.old.items ++ tag ∷ (byte disk ++ dword id)) }
{
    put_tag(out, tag, disk)?;
    put_u32(out, id)
}

fn put_byte(out: &mut Vec<u8>, b: u8) -> Result<(), OutOfMemory>
    ensures { OnOk result (out.new.items ≡ out.old.items ++ b ∷ []) }
{
    out.push(b)?;
    Ok(())
}

fn put_entry(out: &mut Vec<u8>, entry: Entry) -> Result<(), OutOfMemory>
    ensures put { OnOk result (out.new.items ≡ out.old.items ++ entry_bytes entry) }
    ensures fits { FitsEntry entry }
{
    match entry {
        Entry::Claim { cpu } => put_tag(out, 1, cpu),
        Entry::Start { cpu } => put_tag(out, 2, cpu),
        Entry::Enter { cpu, grant } => put_count(out, 3, cpu, grant),
        Entry::Slice { cpu, n } => put_count(out, 4, cpu, n),
        Entry::Step { cpu } => put_tag(out, 5, cpu),
        Entry::Exit { cpu } => put_tag(out, 6, cpu),
        Entry::Sleep { cpu } => put_tag(out, 7, cpu),
        Entry::Wake { cpu } => put_tag(out, 8, cpu),
        Entry::Yield { cpu } => put_tag(out, 9, cpu),
        Entry::Turn { cpu } => put_tag(out, 10, cpu),
        Entry::Meet => put_byte(out, 11),
        Entry::Pull { disk } => put_tag(out, 12, disk),
        Entry::Begin { disk, id } => put_request(out, 13, disk, id),
        Entry::Move { disk, id } => put_request(out, 14, disk, id),
        Entry::Hold { disk, id } => put_request(out, 15, disk, id),
        Entry::Put { disk, id, ok } => {
            put_request(out, 16, disk, id)?;
            put_byte(out, u8::from(ok))
        }
        Entry::Finish { disk, id } => put_request(out, 17, disk, id),
        Entry::Feed => put_byte(out, 18),
        Entry::Wish => put_byte(out, 19),
        Entry::Done { k } => {
            put_byte(out, 20)?;
            put_u16(out, k)
        }
        Entry::End {
            why: EndCause::Budget,
        } => put_tag(out, 21, 1),
        Entry::End {
            why: EndCause::Outside,
        } => put_tag(out, 21, 2),
        Entry::Close => put_byte(out, 22),
        Entry::Tick { n } => {
            put_byte(out, 23)?;
            put_u64(out, n)
        }
    }
}

fn put_signed(out: &mut Vec<u8>, signed: Signed) -> Result<(), OutOfMemory>
    ensures put { OnOk result (out.new.items ≡ out.old.items ++ signed_bytes signed) }
    ensures fits { OnOk result (FitsSigned signed) }
{
    put_u16(out, signed.by)?;
    put_entry(out, signed.entry)
}

/// The one spelling of a journal.
pub fn encode(alloc: Global, journal: &Journal) -> Result<Vec<u8>, OutOfMemory>
    ensures spelled { IfOk result (λ bytes. bytes.items ≡ spelling journal.now) }
    // It is read as this journal, which `decode` gives back.
    ensures read_back { IfOk result (λ bytes. whole bytes.items ≡ Ok journal.now) }
{
    let mut out = Vec::new(alloc);
    out.extend_from_slice(b"\x01VMJRNL1\n")?;
    put_u64(&mut out, journal.len() as u64)?;
    for signed in journal.as_slice() {
        put_signed(&mut out, *signed)?;
    }
    Ok(out)
}
