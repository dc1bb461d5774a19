ghost use Rattle.std.specs.Prelude.{◌≡◌, ◌<◌, ◌≤◌, length, not};
ghost use Rattle.vm_uart.specs.Uart as spec;

use crate::register::Register;
use arrayvec::ArrayVec;
use std::marker::Model;

/// IER: interrupt where received data waits.
const IER_DATA: u8 = 0x01;
/// IER: interrupt where the transmitter is empty.
const IER_EMPTY: u8 = 0x02;
/// IER: the bits that are kept.
const IER_KEPT: u8 = 0x0F;
/// IIR: no interrupt, the transmitter is empty, data waits.
const IIR_NONE: u8 = 0x01;

const IIR_EMPTY: u8 = 0x02;

const IIR_DATA: u8 = 0x04;
/// IIR: the FIFOs are enabled.
const IIR_FIFO: u8 = 0xC0;
/// FCR: enables the FIFOs.
const FCR_ENABLE: u8 = 0x01;
/// FCR: clears the receive FIFO.
const FCR_CLEAR: u8 = 0x02;
/// LCR: divisor latch access, DLAB.
const LCR_DLAB: u8 = 0x80;
/// LSR: the transmitter and its holding register are empty.
const LSR_EMPTY: u8 = 0x60;
/// LSR: received data waits.
const LSR_DATA: u8 = 0x01;
/// MSR: carrier, data set ready, clear to send.
const MSR_READY: u8 = 0xB0;

/// A 16550. Contracts see it as the bytes that wait, its registers, and whether the interrupt of the empty
/// transmitter is pending.
#[derive(Drop)]
pub struct Uart {
    pub(crate) received: ArrayVec<u8, 16>,
    pub(crate) ier: u8,
    pub(crate) fcr: u8,
    pub(crate) lcr: u8,
    pub(crate) mcr: u8,
    pub(crate) scr: u8,
    pub(crate) dll: u8,
    pub(crate) dlm: u8,
    pub(crate) empty: bool,
}

impl Model for Uart {
    ghost use Rattle.std.specs.Prelude.{◌<◌};
    ghost use Rattle.vm_uart.specs.Uart.{Serial};

    ghost Value = { Serial };

    ghost view = { λ u. record { received = u.received.items; ier = u.ier; fcr = u.fcr; lcr = u.lcr; mcr = u.mcr; scr = u.scr; dll = u.dll; dlm = u.dlm; empty = u.empty } };

    ghost invariant = { λ u. (u.ier < 16) × (u.fcr < 2) };
}

impl Uart {
    /// A port at reset: nothing waits, and each register is 0.
    pub fn new() -> Uart
        ensures { result ≡ spec.at_start }
    {
        Uart {
            received: ArrayVec::new(),
            ier: 0,
            fcr: 0,
            lcr: 0,
            mcr: 0,
            scr: 0,
            dll: 0,
            dlm: 0,
            empty: false,
        }
    }

    /// The interrupt line: an interrupt is enabled and due.
    pub fn line(&self) -> bool
        ensures { result ≡ spec.line self.now }
    {
        self.is_data_due() || self.is_empty_due()
    }

    fn is_data_due(&self) -> bool
        ensures { result ≡ spec.data_due self.now }
    {
        self.ier & IER_DATA != 0 && !self.received.is_empty()
    }

    fn is_empty_due(&self) -> bool
        ensures { result ≡ spec.empty_due self.now }
    {
        self.ier & IER_EMPTY != 0 && self.empty
    }

    fn cause(&self) -> u8
        ensures { result ≡ spec.cause self.now }
    {
        if self.is_data_due() {
            IIR_DATA
        } else if self.is_empty_due() {
            IIR_EMPTY
        } else {
            IIR_NONE
        }
    }

    fn selected(&self, offset: u8) -> Register
        requires { offset < 8 }
        ensures { result ≡ spec.selected self.now offset }
    {
        Register::at(offset, self.lcr & LCR_DLAB != 0)
    }

    /// Reads the register at an offset below 8. A read of the data takes the first byte that waits; a read of IIR that
    /// names the empty transmitter ends that interrupt; no other read changes anything.
    pub fn read(&mut self, offset: u8) -> u8
        requires { offset < 8 }
        ensures value { result ≡ spec.value_read self.old (spec.selected self.old offset) }
        ensures after { self.new ≡ spec.after_read self.old (spec.selected self.old offset) }
    {
        match self.selected(offset) {
            Register::Data => self.take_first(),
            Register::InterruptEnable => self.ier,
            Register::InterruptIdentification => self.identify(),
            Register::LineControl => self.lcr,
            Register::ModemControl => self.mcr,
            Register::LineStatus => self.line_status(),
            Register::ModemStatus => MSR_READY,
            Register::Scratch => self.scr,
            Register::DivisorLow => self.dll,
            Register::DivisorHigh => self.dlm,
        }
    }

    fn take_first(&mut self) -> u8
        ensures value { result ≡ spec.value_read self.old Register.Data }
        ensures after { self.new ≡ spec.after_read self.old Register.Data }
    {
        self.received.pop_at(0).unwrap_or(0)
    }

    fn identify(&mut self) -> u8
        ensures value { result ≡ spec.value_read self.old Register.InterruptIdentification }
        ensures after { self.new ≡ spec.after_read self.old Register.InterruptIdentification }
    {
        let cause = self.cause();
        if cause == IIR_EMPTY {
            self.empty = false;
        }
        if self.fcr & FCR_ENABLE != 0 {
            cause + IIR_FIFO
        } else {
            cause
        }
    }

    fn line_status(&self) -> u8
        ensures { result ≡ spec.value_read self.now Register.LineStatus }
    {
        if self.received.is_empty() {
            LSR_EMPTY
        } else {
            LSR_EMPTY + LSR_DATA
        }
    }

    /// Writes the register at an offset below 8. A byte that is written to the data is handed back: it goes to the
    /// console.
    pub fn write(&mut self, offset: u8, value: u8) -> Option<u8>
        requires { offset < 8 }
        ensures console { result ≡ spec.byte_sent (spec.selected self.old offset) value }
        ensures after { self.new ≡ spec.after_write self.old (spec.selected self.old offset) value }
    {
        match self.selected(offset) {
            Register::Data => {
                self.empty = true;
                return Some(value);
            }
            Register::InterruptEnable => self.enable(value),
            Register::InterruptIdentification => self.control_fifo(value),
            Register::LineControl => self.lcr = value,
            Register::ModemControl => self.mcr = value,
            Register::LineStatus | Register::ModemStatus => {}
            Register::Scratch => self.scr = value,
            Register::DivisorLow => self.dll = value,
            Register::DivisorHigh => self.dlm = value,
        }
        None
    }

    fn enable(&mut self, value: u8)
        ensures { self.new ≡ spec.after_write self.old Register.InterruptEnable value }
    {
        if value & IER_EMPTY != 0 && self.ier & IER_EMPTY == 0 {
            self.empty = true;
        }
        self.ier = value & IER_KEPT;
    }

    fn control_fifo(&mut self, value: u8)
        ensures { self.new ≡ spec.after_write self.old Register.InterruptIdentification value }
    {
        self.fcr = value & FCR_ENABLE;
        if value & FCR_CLEAR != 0 {
            self.received.clear();
        }
    }

    /// A byte comes in. False exactly where 16 bytes wait: then it isn't taken, and nothing changes.
    pub fn receive(&mut self, byte: u8) -> bool
        ensures taken { result ≡ spec.has_room self.old }
        ensures after { self.new ≡ spec.after_receive self.old byte }
    {
        self.received.try_push(byte).is_ok()
    }

    /// Whether 16 bytes wait, so that none can be received.
    pub fn is_full(&self) -> bool
        ensures full { result ≡ not (spec.has_room self.now) }
        ensures bound { length self.now.received ≤ 16 }
    {
        self.received.is_full()
    }

    /// An equal port.
    pub fn copy(&self) -> Uart
        ensures { result ≡ self.now }
    {
        Uart {
            received: duplicate(&self.received),
            ier: self.ier,
            fcr: self.fcr,
            lcr: self.lcr,
            mcr: self.mcr,
            scr: self.scr,
            dll: self.dll,
            dlm: self.dlm,
            empty: self.empty,
        }
    }
}

/// Equal bytes.
pub(crate) fn duplicate(bytes: &ArrayVec<u8, 16>) -> ArrayVec<u8, 16>
    ensures { result ≡ bytes.now }
{
    let mut copy = ArrayVec::new();
    let _fits = copy.try_extend_from_slice(bytes.as_slice()).is_ok();
    copy
}
