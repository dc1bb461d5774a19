//! What a guest's addresses and ports lead to: RAM and its code part, the windows of devices, or nothing.
//!
//! `area_at` answers for a range of addresses exactly what stands there, said of each of its bytes. `port` answers
//! which register of the serial port stands at a port.
//!
//! It follows Intel SDM volume 1, section 3.3.7.1 (canonical addresses), and volume 3, section 10.4.1 (the local
//! APIC's window), and bhyve's `vioapic.h` and `uart_emul.c`. The windows of disks are this machine's own.
#![tactic(auto)]

mod area;
mod ports;

pub use area::{Area, area_at};
pub use ports::port;
