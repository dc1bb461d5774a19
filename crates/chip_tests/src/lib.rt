//! The interrupt chips, the serial port, stages, meetings, events, timers, the window of a disk and its requests, by
//! one call each.
//!
//! Test functions for public calls that no program of cases runs. They stand here since a crate with test functions is
//! proved twice.
#![tactic(auto)]

#[cfg(test)]
mod blk_queue_calls;
#[cfg(test)]
mod plain_queue;
#[cfg(test)]
mod vm_event_calls;
#[cfg(test)]
mod vm_ioapic_calls;
#[cfg(test)]
mod vm_irq_calls;
#[cfg(test)]
mod vm_lapic_calls;
#[cfg(test)]
mod vm_meet_calls;
#[cfg(test)]
mod vm_stage_calls;
#[cfg(test)]
mod vm_timer_calls;
#[cfg(test)]
mod vm_uart_calls;
#[cfg(test)]
mod vm_vblk_calls;
#[cfg(test)]
mod vm_vectors_calls;
