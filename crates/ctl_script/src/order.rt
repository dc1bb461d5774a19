//! The orders by their words.
ghost use Rattle.std.specs.Prelude.{◌≡◌, List, ℕ};
ghost use Rattle.text_reader.specs.Word.{texts};
ghost use Rattle.ctl_script.specs.Order.{one_word, two_words, three_words, four_words, wait_quiet, input, nmi, checkpoint, checkpoint_against, against, send, wait_console, wait_executed, wait_for, get_register, cancel, set_register, order_of};
ghost use Rattle.ctl_script.specs.Answers.{Answers};

use crate::before::{is_closed, may_be_base};
use crate::fault::{Refusal, ScriptKind};
use crate::numeral::{count, hex_bytes, index, register_of};
use std::alloc::Global;
use text_reader::hex_number;
use vm_law::{Order, Text};

/// What the plan and the orders before say of any next one.
#[derive(Clone, Copy)]
pub struct Situation {
    /// Whether the machine is paused.
    pub paused: bool,
    /// How many vCPUs the plan has.
    pub cpus: u8,
    /// How many disks the plan has.
    pub disks: usize,
}

/// The order that the words of a line spell after the orders before.
pub fn order_of(
    alloc: Global,
    situation: Situation,
    before: &[Order],
    words: &[&str],
) -> Result<Order, Refusal>
    ensures { Answers result (order_of situation before.now (texts words.now)) }
{
    match words {
        [] => Err(Refusal::Kind(ScriptKind::Word)),
        [a] => lifted(one_word(situation, a)),
        [a, b] => two_words(alloc, situation, before, a, b),
        [a, b, c] => lifted(three_words(situation, a, b, c)),
        [a, b, c, d] => four_words(alloc, situation, before, a, b, c, d),
        [_, _, _, _, _, ..] => Err(Refusal::Kind(ScriptKind::Word)),
    }
}

fn lifted(order: Result<Order, ScriptKind>) -> Result<Order, Refusal>
    ensures { Answers result order }
{
    match order {
        Ok(order) => Ok(order),
        Err(kind) => Err(Refusal::Kind(kind)),
    }
}

fn one_word(s: Situation, a: &str) -> Result<Order, ScriptKind>
    ensures { result ≡ one_word s a.now }
{
    match a {
        "rendezvous" => Ok(Order::Rendezvous),
        "pause" if s.paused => Err(ScriptKind::Order),
        "pause" => Ok(Order::Pause),
        "resume" if s.paused => Ok(Order::Resume),
        "resume" => Err(ScriptKind::Order),
        _ => Err(ScriptKind::Word),
    }
}

fn two_words(
    alloc: Global,
    s: Situation,
    before: &[Order],
    a: &str,
    b: &str,
) -> Result<Order, Refusal>
    ensures { Answers result (two_words s before.now a.now b.now) }
{
    match a {
        "wait" => lifted(wait_quiet(s, b)),
        "input" => input(alloc, b),
        "nmi" => lifted(nmi(s, b)),
        "checkpoint" => checkpoint(alloc, s, b),
        "send" => send(alloc, before, b),
        _ => Err(Refusal::Kind(ScriptKind::Word)),
    }
}

fn wait_quiet(s: Situation, b: &str) -> Result<Order, ScriptKind>
    ensures { result ≡ wait_quiet s b.now }
{
    if b != "quiet" {
        Err(ScriptKind::Word)
    } else if s.paused {
        Err(ScriptKind::Order)
    } else {
        Ok(Order::WaitQuiet)
    }
}

fn input(alloc: Global, b: &str) -> Result<Order, Refusal>
    ensures { Answers result (input b.now) }
{
    match hex_bytes(alloc, b)? {
        Some(bytes) => Ok(Order::Input(bytes)),
        None => Err(Refusal::Kind(ScriptKind::Number)),
    }
}

fn nmi(s: Situation, b: &str) -> Result<Order, ScriptKind>
    ensures { result ≡ nmi s b.now }
{
    let Some(cpu) = index(b) else {
        return Err(ScriptKind::Number);
    };
    if cpu < u64::from(s.cpus) {
        Ok(Order::Nmi(cpu as u8))
    } else {
        Err(ScriptKind::Cpu)
    }
}

fn checkpoint(alloc: Global, s: Situation, b: &str) -> Result<Order, Refusal>
    ensures { Answers result (checkpoint s b.now) }
{
    if s.paused {
        Ok(Order::Checkpoint(Text::from_text(alloc, b)?))
    } else {
        Err(Refusal::Kind(ScriptKind::Order))
    }
}

fn send(alloc: Global, before: &[Order], b: &str) -> Result<Order, Refusal>
    ensures { Answers result (send before.now b.now) }
{
    if is_closed(before, b) {
        Err(Refusal::Kind(ScriptKind::Order))
    } else {
        Ok(Order::Send(Text::from_text(alloc, b)?))
    }
}

fn three_words(s: Situation, a: &str, b: &str, c: &str) -> Result<Order, ScriptKind>
    ensures { result ≡ three_words s a.now b.now c.now }
{
    match a {
        "wait" => wait_for(s, b, c),
        "get" => get_register(s, b, c),
        "cancel" => cancel(s, b, c),
        _ => Err(ScriptKind::Word),
    }
}

fn wait_for(s: Situation, b: &str, c: &str) -> Result<Order, ScriptKind>
    ensures { result ≡ wait_for s b.now c.now }
{
    match b {
        "console" => wait_console(s, c),
        "executed" => wait_executed(s, c),
        _ => Err(ScriptKind::Word),
    }
}

fn wait_console(s: Situation, c: &str) -> Result<Order, ScriptKind>
    ensures { result ≡ wait_console s c.now }
{
    let Some(n) = count(c) else {
        return Err(ScriptKind::Number);
    };
    if s.paused {
        Err(ScriptKind::Order)
    } else {
        Ok(Order::WaitConsole(n))
    }
}

fn wait_executed(s: Situation, c: &str) -> Result<Order, ScriptKind>
    ensures { result ≡ wait_executed s c.now }
{
    let Some(n) = count(c) else {
        return Err(ScriptKind::Number);
    };
    if s.paused {
        Err(ScriptKind::Order)
    } else {
        Ok(Order::WaitExecuted(n))
    }
}

fn get_register(s: Situation, b: &str, c: &str) -> Result<Order, ScriptKind>
    ensures { result ≡ get_register s b.now c.now }
{
    let Some(reg) = register_of(c) else {
        return Err(ScriptKind::Word);
    };
    let Some(cpu) = index(b) else {
        return Err(ScriptKind::Number);
    };
    if !s.paused {
        Err(ScriptKind::Order)
    } else if cpu < u64::from(s.cpus) {
        let cpu = cpu as u8;
        Ok(Order::Get { cpu, reg })
    } else {
        Err(ScriptKind::Cpu)
    }
}

fn cancel(s: Situation, b: &str, c: &str) -> Result<Order, ScriptKind>
    ensures { result ≡ cancel s b.now c.now }
{
    let Some(disk) = index(b) else {
        return Err(ScriptKind::Number);
    };
    let Some(id) = index(c) else {
        return Err(ScriptKind::Number);
    };
    if disk < s.disks as u64 && disk < 256 {
        let disk = disk as u8;
        let id = id as u32;
        Ok(Order::Cancel { disk, id })
    } else {
        Err(ScriptKind::Disk)
    }
}

fn four_words(
    alloc: Global,
    s: Situation,
    before: &[Order],
    a: &str,
    b: &str,
    c: &str,
    d: &str,
) -> Result<Order, Refusal>
    ensures { Answers result (four_words s before.now a.now b.now c.now d.now) }
{
    match a {
        "set" => lifted(set_register(s, b, c, d)),
        "checkpoint" => checkpoint_against(alloc, s, before, b, c, d),
        _ => Err(Refusal::Kind(ScriptKind::Word)),
    }
}

fn checkpoint_against(
    alloc: Global,
    s: Situation,
    before: &[Order],
    b: &str,
    c: &str,
    d: &str,
) -> Result<Order, Refusal>
    ensures { Answers result (checkpoint_against s before.now b.now c.now d.now) }
{
    match c {
        "base" => against(alloc, s, before, b, d),
        _ => Err(Refusal::Kind(ScriptKind::Word)),
    }
}

fn against(
    alloc: Global,
    s: Situation,
    before: &[Order],
    b: &str,
    d: &str,
) -> Result<Order, Refusal>
    ensures { Answers result (against s before.now b.now d.now) }
{
    if !s.paused {
        return Err(Refusal::Kind(ScriptKind::Order));
    }
    if !may_be_base(before, d) {
        return Err(Refusal::Kind(ScriptKind::Order));
    }
    let name = Text::from_text(alloc, b)?;
    let base = Text::from_text(alloc, d)?;
    Ok(Order::Against { name, base })
}

fn set_register(s: Situation, b: &str, c: &str, d: &str) -> Result<Order, ScriptKind>
    ensures { result ≡ set_register s b.now c.now d.now }
{
    let Some(reg) = register_of(c) else {
        return Err(ScriptKind::Word);
    };
    let Some(cpu) = index(b) else {
        return Err(ScriptKind::Number);
    };
    let Some(value) = hex_number(d, 16) else {
        return Err(ScriptKind::Number);
    };
    if !s.paused {
        Err(ScriptKind::Order)
    } else if cpu < u64::from(s.cpus) {
        let cpu = cpu as u8;
        Ok(Order::Set { cpu, reg, value })
    } else {
        Err(ScriptKind::Cpu)
    }
}
