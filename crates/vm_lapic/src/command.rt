ghost use Rattle.std.specs.Prelude.{◌≡◌, ◌<◌};
ghost use Rattle.std.specs.Int.{bit_at};
ghost use Rattle.vm_lapic.specs.Command as spec;

use vm_law::{Dest, Message, Mode};

/// The delivery status, which is never kept.
const DELIVERY_STATUS: u32 = 0x1000;

/// What the low half of the interrupt command register keeps of a written value.
#[tactic(auto, using(crate::proofs::Reserved::command_bits))]
pub fn kept(low: u32) -> u32
    ensures value { result ≡ spec.cleared low 12 }
    ensures idle { bit_at result 12 ≡ 0 }
{
    low & !DELIVERY_STATUS
}

/// The message that a write of `low` sends, where the other half of the interrupt command register is `high`.
///
/// Source: Intel SDM volume 3, section 10.6.1.
#[tactic(auto, unfolding(crate::specs::Command::message_of))]
pub fn message(cpu: u8, low: u32, high: u32) -> Message
    ensures { result ≡ spec.message_of cpu low high }
{
    let logical = low >> 11 & 1 == 1;
    let dest = destination(logical, (high >> 24) as u8);
    Message {
        vector: (low & 0xFF) as u8,
        mode: mode((low >> 8 & 7) as u8),
        dest: addressed(cpu, (low >> 18 & 3) as u8, dest),
    }
}

fn mode(code: u8) -> Mode
    ensures { result ≡ spec.mode_of code }
{
    match code {
        0 => Mode::Fixed,
        4 => Mode::Nmi,
        6 => Mode::Startup,
        _ => Mode::Dropped,
    }
}

fn destination(logical: bool, number: u8) -> Dest
    ensures { result ≡ spec.destination logical number }
{
    if logical {
        Dest::Nobody
    } else if number == 0xFF {
        Dest::All
    } else {
        Dest::One(number)
    }
}

fn addressed(cpu: u8, shorthand: u8, dest: Dest) -> Dest
    requires { shorthand < 4 }
    ensures { result ≡ spec.addressed cpu shorthand dest }
{
    match shorthand {
        0 => dest,
        1 => Dest::One(cpu),
        2 => Dest::All,
        _ => Dest::AllBut(cpu),
    }
}
