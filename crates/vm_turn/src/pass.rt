//! What an actor brings to a turnstile, and what it takes away.
ghost use Rattle.std.specs.Prelude.{◌≡◌};

use crate::view::View;
use atomic_table::Seat;
use std::marker::Model;
use thiserror::Error;
use vm_law::Logged;

/// One actor's right to take the value of one turnstile.
///
/// Contracts see which turnstile it is of (`turnstile`) and what it knows (`view`).
#[derive(Drop)]
pub struct Pass<L: Logged> {
    pub(crate) seat: Seat<Option<L>, View<L::Root>>,
    pub(crate) number: u16,
    pub(crate) splits: u16,
}

impl<L: Logged> Model for Pass<L> {
    ghost use Rattle.vm_turn.specs.Known.{Known};
    ghost use Rattle.vm_turn.specs.Seat.{IsSeated};

    ghost Value = { Known L.Root };

    ghost view = { λ p. record { turnstile = p.seat.table_id; view = p.seat.me.0 } };

    ghost invariant = { λ p. IsSeated p.seat.me p.number p.splits };
}

impl<L: Logged> Pass<L> {
    /// The pass's number, which its entries carry. The first pass of a turnstile has 0.
    pub fn number(&self) -> u16
        ensures { result ≡ self.now.view.number }
    {
        self.number
    }
}

/// The value of a turnstile, out with the pass that took it.
#[derive(Drop)]
pub struct Held<L: Drop> {
    pub value: L,
}

/// Another pass holds the value.
#[derive(Clone, Copy, Debug, PartialEq, Eq, Error)]
#[error("held by pass {holder}")]
pub struct Busy {
    /// The number of the pass that held it when it was looked at.
    pub holder: u16,
}
