use crate::change::RteChange;
use crate::entry::{Redirection, is_target};
use vm_law::Message;

/// An input pin.
#[derive(Clone, Copy, PartialEq, Eq)]
pub struct Pin {
    pub entry: Redirection,
    /// How often the pin is asserted.
    pub count: u32,
    /// A level interrupt of the pin waits for its EOI.
    pub remote_irr: bool,
}

impl Pin {
    ghost use Rattle.std.specs.Prelude.{◌≡◌, ◌+◌, ◌^◌, ◌<◌, OnSome};
    ghost use Rattle.vm_ioapic.specs.Pin as spec;
    ghost use Rattle.vm_ioapic.specs.Entry.{low_half};
    ghost use Rattle.vm_ioapic.specs.Ioapic.{change_to, is_level_for};

    /// A pin at reset: its entry is masked, and it isn't asserted.
    pub(crate) const AT_RESET: Pin = Pin {
        entry: Redirection::AT_RESET,
        count: 0,
        remote_irr: false,
    };

    /// Sends, if it is to.
    fn send_if(&mut self, sends: bool) -> Option<Message>
        ensures message { result ≡ spec.message_if sends self.old }
        ensures after { self.new ≡ spec.sent_if sends self.old }
    {
        if !sends {
            return None;
        }
        if self.entry.level {
            self.remote_irr = true;
        }
        Some(self.entry.message())
    }

    fn is_open(&self) -> bool
        ensures { result ≡ spec.is_open self.now }
    {
        !(self.entry.masked || self.entry.level && self.remote_irr)
    }

    fn is_due(&self) -> bool
        ensures { result ≡ spec.is_due self.now }
    {
        self.entry.level && self.count > 0 && self.is_open()
    }

    /// Asserts the pin once more.
    #[tactic(auto, unfolding(crate::specs::Pin::raised))]
    pub(crate) fn raise(&mut self) -> Option<Message>
        requires { self.old.count + 1 < 2 ^ 32 }
        ensures message { result ≡ spec.message_if (spec.raise_sends self.old) self.old }
        ensures after { self.new ≡ spec.raised self.old }
    {
        let sends = self.count == 0 && self.is_open();
        self.count += 1;
        self.send_if(sends)
    }

    /// Asserts the pin once less.
    #[tactic(auto, unfolding(crate::specs::Pin::lowered))]
    pub(crate) fn lower(&mut self)
        requires { 0 < self.old.count }
        ensures { self.new ≡ spec.lowered self.old }
    {
        self.count -= 1;
    }

    /// An EOI of a vector.
    #[tactic(auto, unfolding(crate::specs::Pin::after_eoi, crate::specs::Pin::eoi_message))]
    pub(crate) fn eoi(&mut self, vector: u8) -> Option<Message>
        ensures message { result ≡ spec.eoi_message vector self.old }
        ensures after { self.new ≡ spec.after_eoi vector self.old }
    {
        if !(self.entry.level && self.remote_irr && self.entry.vector == vector) {
            return None;
        }
        self.remote_irr = false;
        let again = self.is_due();
        self.send_if(again)
    }

    /// Gives the pin another entry.
    #[tactic(auto, unfolding(crate::specs::Pin::after_write, crate::specs::Pin::write_message))]
    pub(crate) fn write(&mut self, entry: Redirection) -> Option<Message>
        ensures message { result ≡ spec.write_message self.old entry }
        ensures after { self.new ≡ spec.after_write self.old entry }
    {
        self.entry = entry;
        self.remote_irr = entry.level && self.remote_irr;
        let sends = self.is_due();
        self.send_if(sends)
    }

    /// Gives the pin another entry, and tells what follows.
    pub(crate) fn change(&mut self, entry: Redirection) -> RteChange
        ensures change { result ≡ change_to self.old entry }
        ensures after { self.new ≡ spec.after_write self.old entry }
    {
        let routing = self.entry.routes(&entry);
        let message = self.write(entry);
        RteChange { routing, message }
    }

    /// The low half of the entry as a word, with the remote IRR.
    pub(crate) fn low(&self) -> u32
        ensures { result ≡ low_half self.now.entry self.now.remote_irr }
    {
        self.entry.low(self.remote_irr)
    }

    /// Whether the entry is level and its targets hold vCPU number `cpu` of `cpus`.
    #[tactic(auto, unfolding(crate::specs::Ioapic::is_level_for))]
    pub(crate) fn is_level_for(&self, cpu: u8, cpus: u8) -> bool
        ensures { result ≡ is_level_for cpu cpus self.now }
    {
        self.entry.level && is_target(self.entry.destination_of(), cpu, cpus)
    }
}
