//! The text of a script.
ghost use Rattle.std.specs.Prelude.{◌≡◌, ◌++◌, ◌∷◌, [], true, IfOk, OnOk, Some, codes};
ghost use Rattle.std.specs.List.{list_all};
ghost use Rattle.std.specs.String.{string_bytes};
ghost use Rattle.ctl_script.specs.Print.{hex16, hex_pair, hex_text, order_text, script_text, has_registers};

use crate::numeral::register_name;
use std::alloc::Global;
use std::fmt;
use vm_law::{Order, OutOfMemory, Script};

/// A number as 16 hexadecimal digits in lower case.
#[derive(Clone, Copy)]
pub struct Hex16(pub u64);

impl fmt::Display for Hex16 {
    ghost output = { λ x. Some (hex16 x.0) };

    fn fmt<W: fmt::Write>(&self, f: &mut fmt::Formatter<W>) -> fmt::Result {
        let n = self.0;
        write!(f, "{n:016x}")
    }
}

/// A byte as two hexadecimal digits.
#[derive(Clone, Copy)]
struct HexByte(u8);

impl fmt::Display for HexByte {
    ghost output = { λ x. Some (hex_pair x.0) };

    fn fmt<W: fmt::Write>(&self, f: &mut fmt::Formatter<W>) -> fmt::Result {
        let n = self.0;
        write!(f, "{n:02x}")
    }
}

fn put_hex(out: &mut String, bytes: &[u8]) -> Result<(), OutOfMemory>
    ensures { OnOk result (string_bytes out.new ≡ string_bytes out.old ++ hex_text bytes.now) }
{
    for byte in bytes {
        let byte = HexByte(*byte);
        write!(out, "{byte}")?;
    }
    Ok(())
}

fn put_against(out: &mut String, name: &str, base: &str) -> Result<(), OutOfMemory>
    ensures { OnOk result (string_bytes out.new ≡ string_bytes out.old ++ (codes "checkpoint " ++ name.now ++ codes " base " ++ base.now)) }
{
    write!(out, "checkpoint {name} base {base}")?;
    Ok(())
}

/// Adds an order's text, which is its line without the line feed.
pub fn put_order(out: &mut String, order: &Order) -> Result<(), OutOfMemory>
    requires { has_registers order.now ≡ true }
    ensures { OnOk result (string_bytes out.new ≡ string_bytes out.old ++ order_text order.now) }
{
    match order {
        Order::WaitQuiet => out.push_str("wait quiet")?,
        Order::WaitConsole(count) => write!(out, "wait console {count}")?,
        Order::WaitExecuted(count) => write!(out, "wait executed {count}")?,
        Order::Input(bytes) => {
            out.push_str("input ")?;
            put_hex(out, bytes.as_slice())?;
        }
        Order::Nmi(cpu) => write!(out, "nmi {cpu}")?,
        Order::Rendezvous => out.push_str("rendezvous")?,
        Order::Pause => out.push_str("pause")?,
        Order::Resume => out.push_str("resume")?,
        Order::Checkpoint(name) => {
            let name = name.as_str();
            write!(out, "checkpoint {name}")?;
        }
        Order::Set { cpu, reg, value } => {
            let name = register_name(*reg);
            let value = Hex16(*value);
            write!(out, "set {cpu} {name} 0x{value}")?;
        }
        Order::Get { cpu, reg } => {
            let name = register_name(*reg);
            write!(out, "get {cpu} {name}")?;
        }
        Order::Cancel { disk, id } => write!(out, "cancel {disk} {id}")?,
        Order::Against { name, base } => put_against(out, name.as_str(), base.as_str())?,
        Order::Send(name) => {
            let name = name.as_str();
            write!(out, "send {name}")?;
        }
    }
    Ok(())
}

/// The text of a script: a line for each order, with single spaces, numbers without leading zeros, and hexadecimal digits in
/// lower case, a register's value with 16 of them.
pub fn print(alloc: Global, script: &Script) -> Result<String, OutOfMemory>
    requires { list_all has_registers script.now ≡ true }
    ensures { IfOk result (λ text. string_bytes text ≡ script_text script.now) }
{
    let mut text = String::new(alloc);
    let orders = script.as_slice();
    for order in orders {
        put_order(&mut text, order)?;
        text.push('\n')?;
    }
    Ok(text)
}
