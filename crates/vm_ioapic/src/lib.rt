//! The I/O APIC: 32 pins with their redirection table, in a window of 4,096 bytes.
//!
//! Contracts see the selected index, the ID, and the pins. A pin is its entry, how often it is asserted, and remote IRR.
//! Each call is pinned: the pins after it, and the messages that go out, by ascending pin. `would_route` tells beforehand
//! what `write` answers as `routing`.
//!
//! It follows Intel's 82093AA data sheet as bhyve's `vioapic.c` does, with 32 pins and a count of assertions for each.
#![tactic(auto)]

mod change;
mod entry;
mod ioapic;
mod messages;
mod pin;
mod register;
mod saving;

pub use change::RteChange;
pub use entry::{DeliveryMode, Redirection};
pub use ioapic::Ioapic;
pub use messages::Messages;
pub use pin::Pin;
pub use register::Register;
