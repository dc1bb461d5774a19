//! The MMIO window of a virtio block device: its registers, its one queue, and its interrupt.
//!
//! Contracts see a window as its state, `vm_law::WindowState`, which holds each register under its own name, the disk's
//! capacity and whether it is read-only. Each access is pinned: what a read gives, and the state after a write. `pull`
//! takes the chain that stands next: it gives a request, or completes the chain with a status, or the device breaks.
//! `finish` completes the chain of a request that was carried out.
//!
//! It follows OASIS virtio 1.2, sections 4.2.2 (MMIO registers), 2.1 (device status), 2.7 (split virtqueues) and 5.2 (block
//! devices), without the legacy interface and with one queue.
#![tactic(auto)]

mod features;
mod pulled;
mod queue;
mod register;
mod saving;
mod window;

pub use pulled::{Pulled, WindowEffect};
pub use register::Register;
pub use window::Window;
