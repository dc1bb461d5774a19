//! How many turns a thread takes at a stretch, as a word that control may lower to 1.
ghost use Rattle.std.specs.Prelude.{ℕ, ◌<◌, ◌^◌};

use std::sync::atomic::Ordering::SeqCst;
use std::sync::atomic::{AtomicIn, Rule};

/// The number is above 0, and below 2^32.
pub(crate) struct AboveZero;

impl Rule for AboveZero {
    ghost invariant = { λ n. (0 < n) × (n < 2 ^ 32) };
}

pub(crate) type Stays = AtomicIn<AboveZero>;

/// The most turns, or one for an actor that isn't to be started.
pub(crate) fn first_stays(starts: bool) -> Stays {
    if starts {
        AtomicIn::new(0xffff_ffff)
    } else {
        AtomicIn::new(1)
    }
}

/// How many turns it is now.
pub(crate) fn stays_now(stays: &Stays) -> u32
    ensures { 0 < result }
{
    stays.load(SeqCst) as u32
}

/// One turn from now on.
pub(crate) fn once_each(stays: &Stays) {
    stays.store(1, SeqCst)
}
