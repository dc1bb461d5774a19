//! Delivery of interrupts and exceptions through the interrupt descriptor table (IDT).
//!
//! `deliver` reads the vector's gate, pushes the frame and enters the handler, exactly as one definition says, or it
//! answers a Stop and changes nothing. The stack is the interrupted one: neither a TSS nor an interrupt stack table
//! is modelled.
//!
//! It follows Intel SDM volume 3, sections 6.10 to 6.14, for 64-bit mode without a change of privilege.
#![tactic(auto)]

mod delivery;
mod frame;
mod gate;

pub use delivery::deliver;
