ghost use Rattle.std.specs.Prelude.{◌≡◌, ◌%◌, ◌^◌, ◌<◌};
ghost use Rattle.vm_ioapic.specs.Entry as spec;

use vm_law::{Dest, Message, Mode};

/// The delivery mode of an entry, by its number in bits 8 to 10. Source: 82093AA, section 3.2.4.
#[derive(Clone, Copy, Debug, PartialEq, Eq)]
pub enum DeliveryMode {
    Fixed,
    LowestPriority,
    Smi,
    Reserved3,
    Nmi,
    Init,
    Reserved6,
    ExtInt,
}

/// An entry of the redirection table, without its remote IRR. Source: 82093AA, section 3.2.4.
#[derive(Clone, Copy, PartialEq, Eq)]
pub struct Redirection {
    pub vector: u8,
    pub mode: DeliveryMode,
    /// The destination is logical (bit 11).
    pub logical: bool,
    /// The pin is active low (bit 13), which is kept and has no effect.
    pub active_low: bool,
    /// The trigger mode is level (bit 15), and else edge.
    pub level: bool,
    /// The pin is masked (bit 16).
    pub masked: bool,
    /// The APIC ID of the destination (bits 56 to 63); 0xFF is every vCPU.
    pub destination: u8,
}

impl DeliveryMode {
    /// The mode that the low three bits of a number name.
    pub(crate) fn from_number(number: u32) -> DeliveryMode
        ensures { result ≡ spec.mode_of (number % 8) }
    {
        match number % 8 {
            0 => DeliveryMode::Fixed,
            1 => DeliveryMode::LowestPriority,
            2 => DeliveryMode::Smi,
            3 => DeliveryMode::Reserved3,
            4 => DeliveryMode::Nmi,
            5 => DeliveryMode::Init,
            6 => DeliveryMode::Reserved6,
            _ => DeliveryMode::ExtInt,
        }
    }

    /// Its number, below 8.
    pub(crate) fn number(self) -> u32
        ensures value { result ≡ spec.mode_number self }
        ensures small { result < 8 }
    {
        match self {
            DeliveryMode::Fixed => 0,
            DeliveryMode::LowestPriority => 1,
            DeliveryMode::Smi => 2,
            DeliveryMode::Reserved3 => 3,
            DeliveryMode::Nmi => 4,
            DeliveryMode::Init => 5,
            DeliveryMode::Reserved6 => 6,
            DeliveryMode::ExtInt => 7,
        }
    }

    /// The mode of the messages that an entry of this mode sends.
    fn delivered(self) -> Mode
        ensures { result ≡ spec.delivered self }
    {
        match self {
            DeliveryMode::Fixed => Mode::Fixed,
            DeliveryMode::Nmi => Mode::Nmi,
            _ => Mode::Dropped,
        }
    }
}

impl Redirection {
    /// An entry at reset: it is masked, and all else in it is 0.
    pub(crate) const AT_RESET: Redirection = Redirection {
        vector: 0,
        mode: DeliveryMode::Fixed,
        logical: false,
        active_low: false,
        level: false,
        masked: true,
        destination: 0,
    };

    /// The low half of the entry as a word, with the remote IRR of its pin.
    #[tactic(auto, unfolding(crate::specs::Entry::low_half))]
    pub(crate) fn low(&self, remote_irr: bool) -> u32
        ensures { result ≡ spec.low_half self.now remote_irr }
    {
        self.vector as u32
            + (self.mode.number() << 8)
            + weight(self.logical, 11)
            + weight(self.active_low, 13)
            + weight(remote_irr, 14)
            + weight(self.level, 15)
            + weight(self.masked, 16)
    }

    /// The high half of the entry as a word.
    pub(crate) fn high(&self) -> u32
        ensures { result ≡ spec.high_half self.now }
    {
        (self.destination as u32) << 24
    }

    /// The entry with another low half, of which bits 0 to 11, 13, 15 and 16 are kept.
    #[tactic(auto, unfolding(crate::specs::Entry::with_low))]
    pub(crate) fn with_low(self, word: u32) -> Redirection
        ensures { result ≡ spec.with_low self word }
    {
        Redirection {
            vector: (word % 256) as u8,
            mode: DeliveryMode::from_number(word >> 8),
            logical: is_set(word, 11),
            active_low: is_set(word, 13),
            level: is_set(word, 15),
            masked: is_set(word, 16),
            destination: self.destination,
        }
    }

    /// The entry with another high half, of which bits 24 to 31 are kept.
    #[tactic(auto, unfolding(crate::specs::Entry::with_high))]
    pub(crate) fn with_high(self, word: u32) -> Redirection
        ensures { result ≡ spec.with_high self word }
    {
        Redirection {
            destination: (word >> 24) as u8,
            ..self
        }
    }

    /// Whether the entry routes differently from another: polarity and mask don't count.
    #[tactic(auto, unfolding(crate::specs::Entry::routes))]
    pub(crate) fn routes(&self, other: &Redirection) -> bool
        ensures { result ≡ spec.routes self.now other.now }
    {
        self.vector != other.vector
            || self.mode.number() != other.mode.number()
            || self.logical != other.logical
            || self.level != other.level
            || self.destination != other.destination
    }

    /// Whom the entry is for.
    pub(crate) fn destination_of(&self) -> Dest
        ensures { result ≡ spec.destination_of self.now }
    {
        if self.logical {
            Dest::Nobody
        } else if self.destination == 0xFF {
            Dest::All
        } else {
            Dest::One(self.destination)
        }
    }

    /// The message that a pin with this entry sends.
    #[tactic(auto, unfolding(crate::specs::Entry::message_of))]
    pub(crate) fn message(&self) -> Message
        ensures { result ≡ spec.message_of self.now }
    {
        Message {
            vector: self.vector,
            mode: self.mode.delivered(),
            dest: self.destination_of(),
        }
    }
}

/// Whether a bit of a word, which is below 32, is 1.
#[tactic(auto, using(std::proofs::lemmas::Nat::Bits::shr_and_one))]
pub(crate) fn is_set(word: u32, bit: u8) -> bool
    requires { bit < 32 }
    ensures { result ≡ spec.bit word bit }
{
    word >> bit & 1 == 1
}

/// What a bit below 17 adds to a word.
fn weight(set: bool, bit: u8) -> u32
    requires { bit < 17 }
    ensures value { result ≡ spec.weight set bit }
    ensures small { result < 2 ^ 17 }
{
    if set { 1 << bit } else { 0 }
}

/// Whether a destination holds vCPU number `cpu` of `cpus`.
pub(crate) fn is_target(dest: Dest, cpu: u8, cpus: u8) -> bool
    ensures { result ≡ spec.is_target dest cpu cpus }
{
    cpu < cpus
        && match dest {
            Dest::One(number) => cpu == number,
            Dest::All => true,
            Dest::AllBut(number) => cpu != number,
            Dest::Nobody => false,
        }
}
