//! What the guest's devices do: interrupt messages and the pins that send them, ports, windows, and the timers of the local
//! APICs.
//!
//! Each call makes one step of a machine, or of a run, exactly as its definition says: a message reaches its targets by
//! ascending vCPU; after an access to the serial port or to a drive the pin follows the line, and what that sends goes out at
//! once; a level-triggered interrupt's end is told to the I/O APIC; a write that changes the interrupt routing opens a
//! rendezvous. No call takes memory.
//!
//! Sources: Intel SDM volume 3, chapter 10; Intel's 82093AA; the 16550; OASIS virtio 1.2, section 4.2.2; FreeBSD's
//! usr.sbin/bhyve and sys/amd64/vmm/io.
#![tactic(auto)]

mod drive_window;
mod heard;
mod ioapic_window;
mod lapic_window;
mod messages;
mod pins;
mod ports;
mod timers;
mod windows;

pub use drive_window::follow_drive;
pub use messages::{send, started_cpus};
pub use pins::{end_level, follow_pin, lower_pin, raise_pin};
pub use ports::{follow_serial, read_port, write_port};
pub use timers::{any_armed, any_live, least_live, tick};
pub use windows::{is_routing_write, read_window, write_window};
