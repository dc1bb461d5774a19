//! The serial port: a 16550 as its driver sees it, at eight offsets.
//!
//! Contracts see the bytes that wait in the receive FIFO, the registers, and whether the interrupt of the empty
//! transmitter is pending. Each access is pinned: what a read gives, what is kept of a write, which byte goes to the
//! console, and the state after it. Received bytes are given back in order, and none is lost while fewer than 16 wait.
//!
//! It follows the data sheet of the 16550 (National Semiconductor PC16550D, section 8) as bhyve's `uart_emul.c` does.
#![tactic(auto)]

mod register;
mod saving;
mod uart;

pub use register::Register;
pub use uart::Uart;
