use arrayvec::ArrayVec;

/// The state of a local APIC. Source: Intel SDM volume 3, section 10.4.
#[derive(Clone, Copy, PartialEq, Eq)]
pub struct LapicState {
    /// The number of its vCPU.
    pub cpu: u8,
    /// Interrupt request register: vector v is bit `v % 8` of byte `v / 8`; so also the two below.
    pub irr: [u8; 32],
    /// In-service register.
    pub isr: [u8; 32],
    /// Trigger mode register.
    pub tmr: [u8; 32],
    /// Task priority register.
    pub tpr: u8,
    /// Spurious interrupt vector register.
    pub svr: u32,
    /// Interrupt command register.
    pub icr: u64,
    pub lvt_timer: u32,
    pub timer_initial: u32,
    pub timer_divide: u32,
}

/// The state of the I/O APIC. Source: the data sheet of Intel's 82093AA, and bhyve's vioapic.
#[derive(Clone, Copy, PartialEq, Eq)]
pub struct IoapicState {
    /// The selected register.
    pub select: u8,
    pub id: u32,
    /// The redirection table, by pin.
    pub entries: [u64; 32],
    /// How often each pin is asserted.
    pub counts: [u32; 32],
}

/// The state of the UART. Source: the data sheet of the 16550, and bhyve's uart_emul.
#[derive(PartialEq, Drop)]
pub struct UartState {
    pub ier: u8,
    pub lcr: u8,
    pub mcr: u8,
    pub scr: u8,
    pub fcr: u8,
    pub dll: u8,
    pub dlm: u8,
    /// Whether the interrupt of the empty transmitter is pending.
    pub empty_pending: bool,
    /// The received bytes that wait, the first first.
    pub received: ArrayVec<u8, 16>,
}

/// The state of a virtio block device's MMIO window. Source: OASIS virtio 1.2, section 4.2.2.
#[derive(Clone, Copy, PartialEq, Eq)]
pub struct WindowState {
    /// The disk's capacity.
    pub sectors: u64,
    /// Whether the disk is read-only.
    pub ro: bool,
    pub status: u8,
    pub device_features_sel: u32,
    pub driver_features_sel: u32,
    pub driver_features: u64,
    pub queue_sel: u32,
    pub queue_num: u16,
    pub queue_ready: bool,
    pub queue_desc: u64,
    pub queue_avail: u64,
    pub queue_used: u64,
    /// The available ring's index up to which chains were taken.
    pub last_avail: u16,
    /// The used ring's index.
    pub used_index: u16,
    pub notified: bool,
    pub interrupt_status: u8,
}
