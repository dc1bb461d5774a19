//! A vCPU, and its seat.

use vm_lapic::Lapic;
use vm_law::Ctx;
use vm_stage::StageCell;

/// A virtual processor.
#[derive(Drop)]
pub struct Cpu {
    /// In which stage it is, and by which pass it is owned.
    pub stage: StageCell,
    pub ctx: Ctx,
    /// Whether it was started, as vCPU 0 always is.
    pub started: bool,
    /// Whether HLT halted it.
    pub halted: bool,
    /// The vector of a start-up that waits, where one does.
    pub startup: Option<u8>,
    /// Whether an NMI is pending.
    pub nmi: bool,
    /// Its local APIC.
    pub lapic: Lapic,
}

/// What a run keeps of a vCPU beside the machine. A stay is from an Enter to the next Exit.
#[derive(Clone, Copy)]
pub struct Seat {
    /// How many instructions of its grant are left, 0 where it isn't running.
    pub left: u16,
    /// Whether an instruction was run, or an interrupt taken, in this stay.
    pub stayed: bool,
    /// How many instructions it ran in all.
    pub ran: u64,
}
