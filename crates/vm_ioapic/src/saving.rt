ghost use Rattle.std.specs.Prelude.{◌≡◌, ◌<◌, ◌^◌, ℕ, length, map, slice_index};
ghost use Rattle.vm_ioapic.specs.Saved.{IsSaved, state_of, chip_of, pin_of, pins_of, word_of};
ghost use Rattle.vm_ioapic.specs.declared.pin.Pin.{Pin as PinRecord};

use crate::entry::{Redirection, is_set};
use crate::ioapic::Ioapic;
use crate::pin::Pin;
use vm_law::IoapicState;

impl Ioapic {
    /// The chip's state, which tells it whole.
    pub fn saved(&self) -> IoapicState
        ensures state { result ≡ state_of self.now }
        ensures lawful { IsSaved result }
        ensures whole { chip_of result ≡ self.now }
    {
        IoapicState {
            select: self.select,
            id: (self.id as u32) << 24,
            entries: words(&self.pins),
            counts: counts(&self.pins),
        }
    }

    /// The chip that has a state, which is one that a chip can have.
    pub fn from_saved(state: &IoapicState) -> Ioapic
        requires { IsSaved state.now }
        ensures chip { result ≡ chip_of state.now }
        ensures whole { state_of result ≡ state.now }
    {
        Ioapic {
            select: state.select,
            id: (state.id >> 24) as u8,
            pins: pins(&state.entries, &state.counts),
        }
    }
}

/// The pins' words.
fn words(pins: &[Pin; 32]) -> [u64; 32]
    ensures { result ≡ map word_of pins.now }
{
    let mut words = [0; 32];
    for (n, word) in words.iter_mut().enumerate() {
        *word = pins[n].word();
    }
    words
}

/// The pins' counts.
fn counts(pins: &[Pin; 32]) -> [u32; 32]
    ensures { result ≡ map (λ (p : PinRecord). p.count) pins.now }
{
    let mut counts = [0; 32];
    for (n, count) in counts.iter_mut().enumerate() {
        *count = pins[n].count;
    }
    counts
}

/// The pins of 32 words and counts.
fn pins(words: &[u64; 32], counts: &[u32; 32]) -> [Pin; 32]
    ensures pins { result ≡ pins_of words.now counts.now }
    ensures words { (n : ℕ) → slice_index words.now n < 2 ^ 64 }
    ensures long { length words.now ≡ 32 }
    ensures counts { length counts.now ≡ 32 }
{
    let mut pins = [Pin::AT_RESET; 32];
    for (n, pin) in pins.iter_mut().enumerate() {
        *pin = Pin::from_word(words[n], counts[n]);
    }
    pins
}

impl Pin {
    /// Both halves of the entry as a word, with the remote IRR.
    fn word(&self) -> u64
        ensures { result ≡ word_of self.now }
    {
        self.low() as u64 + ((self.entry.high() as u64) << 32)
    }

    /// The pin of a word and a count.
    fn from_word(word: u64, count: u32) -> Pin
        ensures { result ≡ pin_of word count }
    {
        let low = (word % (1 << 32)) as u32;
        let high = (word >> 32) as u32;
        Pin {
            entry: Redirection::AT_RESET.with_low(low).with_high(high),
            count,
            remote_irr: is_set(low, 14),
        }
    }
}
