ghost use Rattle.std.specs.Prelude.{◌≡◌, ◌+◌, ◌^◌, ◌<◌, ◌≤◌, length};
ghost use Rattle.vm_ioapic.specs.Ioapic as spec;

use crate::change::RteChange;
use crate::entry::Redirection;
use crate::messages::Messages;
use crate::pin::Pin;
use crate::register::Register;
use std::marker::Model;
use vm_law::Message;
use vm_vectors::VectorSet;

/// IOAPICVER: version 0x11, and 31 as the number of the last entry.
const VERSION: u32 = 0x001F_0011;

/// An I/O APIC with 32 pins. Contracts see it as the selected index, the ID, and the pins.
#[derive(Drop)]
pub struct Ioapic {
    pub(crate) select: u8,
    pub(crate) id: u8,
    pub(crate) pins: [Pin; 32],
}

impl Model for Ioapic {
    ghost use Rattle.vm_ioapic.specs.Ioapic.{Chip, IsChip};

    ghost Value = { Chip };

    ghost view = { λ c. record { select = c.select; id = c.id; pins = c.pins } };

    ghost invariant = { λ c. IsChip (record { select = c.select; id = c.id; pins = c.pins }) };
}

impl Ioapic {
    /// An I/O APIC at reset: each entry is masked, and no pin is asserted.
    pub fn new() -> Ioapic
        ensures { result ≡ spec.at_start }
    {
        Ioapic {
            select: 0,
            id: 0,
            pins: [Pin::AT_RESET; 32],
        }
    }

    /// How often a pin, which is below 32, is asserted.
    pub fn count(&self, pin: u8) -> u32
        requires { pin < 32 }
        ensures { result ≡ (spec.pin_at self.now pin).count }
    {
        self.pins[pin as usize].count
    }

    /// Asserts a pin, which is below 32, once more; its message, if it sends.
    pub fn raise(&mut self, pin: u8) -> Option<Message>
        requires pin { pin < 32 }
        requires count { (spec.pin_at self.old pin).count + 1 < 2 ^ 32 }
        ensures message { result ≡ spec.raise_message self.old pin }
        ensures after { self.new ≡ spec.raised self.old pin }
    {
        self.pins[pin as usize].raise()
    }

    /// Asserts a pin, which is below 32 and asserted, once less.
    pub fn lower(&mut self, pin: u8)
        requires pin { pin < 32 }
        requires asserted { 0 < (spec.pin_at self.old pin).count }
        ensures { self.new ≡ spec.lowered self.old pin }
    {
        self.pins[pin as usize].lower();
    }

    /// An EOI of a vector: each level pin of this vector whose interrupt waits for it sends again where it is still
    /// asserted and not masked. The messages come by ascending pin.
    pub fn eoi(&mut self, vector: u8) -> Messages
        ensures messages { result ≡ spec.eoi_messages self.old vector }
        ensures after { self.new ≡ spec.after_eoi self.old vector }
    {
        let mut messages = Messages::new();
        for pin in self.pins.iter_mut() {
            if let Some(message) = pin.eoi(vector) {
                messages.push(message);
            }
        }
        messages
    }

    /// Reads the register at an offset of the window.
    pub fn read(&self, offset: u32) -> u32
        ensures { result ≡ spec.value_read self.now (spec.selected self.now offset) }
    {
        match Register::at(self.select, offset) {
            Register::Select => self.select as u32,
            Register::Id => (self.id as u32) << 24,
            Register::Version => VERSION,
            Register::Low(pin) => self.pins[pin as usize].low(),
            Register::High(pin) => self.pins[pin as usize].entry.high(),
            Register::Nothing => 0,
        }
    }

    /// Writes the register at an offset of the window.
    pub fn write(&mut self, offset: u32, value: u32) -> RteChange
        ensures change { result ≡ spec.change self.old (spec.selected self.old offset) value }
        ensures after { self.new ≡ spec.after_write self.old (spec.selected self.old offset) value }
    {
        match Register::at(self.select, offset) {
            Register::Select => self.select = (value % 256) as u8,
            Register::Id => self.id = (value >> 24) as u8 % 16,
            Register::Low(pin) => {
                let pin = &mut self.pins[pin as usize];
                let entry = pin.entry.with_low(value);
                return pin.change(entry);
            }
            Register::High(pin) => {
                let pin = &mut self.pins[pin as usize];
                let entry = pin.entry.with_high(value);
                return pin.change(entry);
            }
            Register::Version | Register::Nothing => {}
        }
        RteChange {
            routing: false,
            message: None,
        }
    }

    /// Whether a write would change the routing: exactly what `write` then answers as `routing`.
    pub fn would_route(&self, offset: u32, value: u32) -> bool
        ensures { result ≡ (spec.change self.now (spec.selected self.now offset) value).routing }
    {
        match Register::at(self.select, offset) {
            Register::Low(pin) => {
                let entry = self.pins[pin as usize].entry;
                entry.routes(&entry.with_low(value))
            }
            Register::High(pin) => {
                let entry = self.pins[pin as usize].entry;
                entry.routes(&entry.with_high(value))
            }
            _ => false,
        }
    }

    /// The vectors of the level entries, masked or not, whose targets hold vCPU number `cpu` of `cpus`.
    pub fn tmr(&self, cpu: u8, cpus: u8) -> VectorSet
        ensures { result ≡ spec.tmr self.now cpu cpus }
    {
        let mut vectors = VectorSet::empty();
        for pin in &self.pins {
            if pin.is_level_for(cpu, cpus) {
                vectors.insert(pin.entry.vector);
            }
        }
        vectors
    }

    /// An equal I/O APIC.
    pub fn copy(&self) -> Ioapic
        ensures { result ≡ self.now }
    {
        Ioapic {
            select: self.select,
            id: self.id,
            pins: self.pins,
        }
    }
}
