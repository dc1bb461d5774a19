use std::alloc::AllocError;
use std::fmt::Write;
use vm_law::{EndCause, Entry, MeetKind, Order, Owned, Stop};
use vm_meet::Meeting;
use vm_state::{Said, Sample, Why};

/// A yes or no.
pub fn bit(set: bool) -> &'static str {
    if set { "1" } else { "0" }
}

pub fn print_count(count: u64, out: &mut String) -> Result<(), AllocError> {
    write!(out, "{count}")
}

/// A value in hexadecimal.
pub fn print_hex(value: u64, out: &mut String) -> Result<(), AllocError> {
    write!(out, "0x{value:x}")
}

/// The stage of a vCPU, and the pass that owns it.
pub fn print_stage(stage: Owned, out: &mut String) -> Result<(), AllocError> {
    match stage {
        Owned::Idle => out.push_str("idle"),
        Owned::Frozen(by) => write!(out, "frozen {by}"),
        Owned::Running(by) => write!(out, "running {by}"),
        Owned::Sleeping(by) => write!(out, "sleeping {by}"),
    }
}

/// Bytes, or `-` where there is none.
pub fn print_bytes(bytes: &[u8], out: &mut String) -> Result<(), AllocError> {
    if bytes.is_empty() {
        return out.push('-');
    }
    for byte in bytes {
        write!(out, "{byte:02x}")?;
    }
    Ok(())
}

/// A space before each but the first.
pub fn part(out: &mut String) -> Result<(), AllocError> {
    if out.is_empty() {
        Ok(())
    } else {
        out.push(' ')
    }
}

/// `-` where nothing was printed.
pub fn close(out: &mut String) -> Result<(), AllocError> {
    if out.is_empty() {
        out.push('-')
    } else {
        Ok(())
    }
}

/// The vectors of a set, whose bytes have vector v at bit v mod 8 of byte v div 8.
pub fn print_vectors(set: &[u8; 32], out: &mut String) -> Result<(), AllocError> {
    for vector in 0..=255u8 {
        if set[vector as usize / 8] >> (vector % 8) & 1 == 1 {
            part(out)?;
            write!(out, "{vector:02x}")?;
        }
    }
    close(out)
}

/// Which of some marks are set.
pub fn print_marks(marks: &[bool], out: &mut String) -> Result<(), AllocError> {
    for (place, mark) in marks.iter().enumerate() {
        if *mark {
            part(out)?;
            write!(out, "{place}")?;
        }
    }
    close(out)
}

/// What was said to an order.
pub fn print_said(said: Said, out: &mut String) -> Result<(), AllocError> {
    match said {
        Said::Met => out.push_str("met"),
        Said::Quiet => out.push_str("quiet"),
        Said::Value(value) => print_hex(value, out),
        Said::Done => out.push_str("done"),
        Said::Unknown => out.push_str("unknown"),
        Said::Busy => out.push_str("busy"),
        Said::Plain => out.push_str("ok"),
    }
}

/// What vCPUs noted: each its number and its count.
pub fn print_samples(samples: &[Sample], out: &mut String) -> Result<(), AllocError> {
    for sample in samples {
        part(out)?;
        write!(out, "{}:{}", sample.cpu, sample.ran)?;
    }
    close(out)
}

fn print_stop(stop: Stop, out: &mut String) -> Result<(), AllocError> {
    match stop {
        Stop::Fetch => out.push_str("fetch"),
        Stop::Memory => out.push_str("memory"),
        Stop::Device => out.push_str("device"),
        Stop::Gate(vector) => write!(out, "gate {vector}"),
        Stop::Frame(vector) => write!(out, "frame {vector}"),
    }
}

/// Why a run ended, where it did.
pub fn print_why(why: Option<Why>, out: &mut String) -> Result<(), AllocError> {
    match why {
        None => out.push_str("no"),
        Some(Why::Finished) => out.push_str("finished"),
        Some(Why::Budget) => out.push_str("budget"),
        Some(Why::Outside) => out.push_str("outside"),
        Some(Why::Stopped { cpu, stop, rip }) => {
            write!(out, "stop cpu {cpu} ")?;
            print_stop(stop, out)?;
            write!(out, " rip 0x{rip:x}")
        }
    }
}

/// The vCPUs of a list of 16 marks, or `-`.
fn print_members(meeting: &Meeting, done: bool, out: &mut String) -> Result<(), AllocError> {
    let mut any = false;
    for cpu in 0..16 {
        if meeting.names(cpu) && (!done || !meeting.awaits(cpu)) {
            write!(out, "{}{cpu}", if any { "," } else { "" })?;
            any = true;
        }
    }
    if any { Ok(()) } else { out.push('-') }
}

/// A meeting: what it is for, who opened it, whom it names, and who of them is done.
pub fn print_meeting(meeting: Option<Meeting>, out: &mut String) -> Result<(), AllocError> {
    let Some(meeting) = meeting else {
        return out.push_str("none");
    };
    let kind = match meeting.kind {
        MeetKind::Routing => "routing",
        MeetKind::Sample => "sample",
    };
    write!(out, "{kind} by {} named ", meeting.by)?;
    print_members(&meeting, false, out)?;
    out.push_str(" done ")?;
    print_members(&meeting, true, out)
}

/// The name of an order.
pub fn order_name(order: Option<&Order>) -> &'static str {
    let Some(order) = order else {
        return "none";
    };
    match order {
        Order::WaitQuiet => "wait quiet",
        Order::WaitConsole(_) => "wait console",
        Order::WaitExecuted(_) => "wait executed",
        Order::Input(_) => "input",
        Order::Nmi(_) => "nmi",
        Order::Rendezvous => "rendezvous",
        Order::Pause => "pause",
        Order::Resume => "resume",
        Order::Checkpoint(_) => "checkpoint",
        Order::Set { .. } => "set",
        Order::Get { .. } => "get",
        Order::Cancel { .. } => "cancel",
        Order::Against { .. } => "checkpoint base",
        Order::Send(_) => "send",
    }
}

/// How an entry is spelled: its name, and its numbers.
type Spelled = (&'static str, Option<u64>, Option<u64>);

fn bare(name: &'static str) -> Spelled {
    (name, None, None)
}

/// An entry of a vCPU or of a disk's worker.
fn of_one(name: &'static str, place: u8) -> Spelled {
    (name, Some(u64::from(place)), None)
}

fn of_request(name: &'static str, disk: u8, id: u32) -> Spelled {
    (name, Some(u64::from(disk)), Some(u64::from(id)))
}

fn counted(name: &'static str, cpu: u8, count: u16) -> Spelled {
    (name, Some(u64::from(cpu)), Some(u64::from(count)))
}

/// An entry, as a case spells it.
fn spelled(entry: Entry) -> Spelled {
    match entry {
        Entry::Claim { cpu } => of_one("claim", cpu),
        Entry::Start { cpu } => of_one("start", cpu),
        Entry::Enter { cpu, grant } => counted("enter", cpu, grant),
        Entry::Slice { cpu, n } => counted("slice", cpu, n),
        Entry::Step { cpu } => of_one("step", cpu),
        Entry::Exit { cpu } => of_one("exit", cpu),
        Entry::Sleep { cpu } => of_one("sleep", cpu),
        Entry::Wake { cpu } => of_one("wake", cpu),
        Entry::Yield { cpu } => of_one("yield", cpu),
        Entry::Turn { cpu } => of_one("turn", cpu),
        Entry::Meet => bare("meet"),
        Entry::Pull { disk } => of_one("pull", disk),
        Entry::Begin { disk, id } => of_request("begin", disk, id),
        Entry::Move { disk, id } => of_request("move", disk, id),
        Entry::Hold { disk, id } => of_request("hold", disk, id),
        Entry::Put { disk, id, ok: true } => of_request("put", disk, id),
        Entry::Put {
            disk,
            id,
            ok: false,
        } => of_request("fail", disk, id),
        Entry::Finish { disk, id } => of_request("finish", disk, id),
        Entry::Feed => bare("feed"),
        Entry::Wish => bare("wish"),
        Entry::Done { k } => ("done", Some(u64::from(k)), None),
        Entry::End {
            why: EndCause::Budget,
        } => bare("budget"),
        Entry::End {
            why: EndCause::Outside,
        } => bare("outside"),
        Entry::Close => bare("close"),
        Entry::Tick { n } => ("tick", Some(n), None),
    }
}

/// A number of an entry, where it has one.
fn print_number(number: Option<u64>, out: &mut String) -> Result<(), AllocError> {
    match number {
        None => Ok(()),
        Some(number) => write!(out, " {number}"),
    }
}

/// An entry, as a case spells it, or `none`.
pub fn print_entry(entry: Option<Entry>, out: &mut String) -> Result<(), AllocError> {
    let Some(entry) = entry else {
        return out.push_str("none");
    };
    let (name, first, second) = spelled(entry);
    out.push_str(name)?;
    print_number(first, out)?;
    print_number(second, out)
}
