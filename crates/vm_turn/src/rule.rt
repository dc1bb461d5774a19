//! The rule of the table behind a turnstile, and its four kinds of steps that change what a pass knows:
//! a try, the step that gives the value back, a split and a join.

use crate::view::View;
use atomic_table::{Join, Play, Split, TableRule};
use std::marker::PhantomData;
use std::snapshot::Snapshot;
use vm_law::Logged;

/// The rule, about a value of this type.
pub struct Turns<L> {
    value: PhantomData<L>,
}

impl<L: Logged> TableRule<Option<L>, View<L::Root>, Snapshot<L>> for Turns<L> {
    ghost use Rattle.vm_turn.specs.Rule.{IsConsistent};
    ghost use Rattle.vm_turn.specs.View.{opening_view};

    ghost holds = { λ _. IsConsistent L.root L.entries };

    ghost first = { λ key. opening_view (L.root key.value) };
}

/// A try to take the value.
pub(crate) struct Take;

impl<L: Logged> Play<Option<L>, View<L::Root>> for Take {
    ghost use Rattle.vm_turn.specs.Rule.{TakeTells};

    ghost then = { TakeTells L.root L.entries };
}

/// The step that gives the value back.
pub(crate) struct Give;

impl<L: Logged> Play<Option<L>, View<L::Root>> for Give {
    ghost use Rattle.vm_turn.specs.Rule.{GiveTells};

    ghost then = { GiveTells L.root L.entries };
}

/// A pass is split off pass 0, or joined to it.
pub(crate) struct Part;

impl<R> Split<View<R>> for Part {
    ghost use Rattle.vm_turn.specs.View.{split_view, new_view};

    ghost left = { split_view };

    ghost right = { new_view };
}

impl<R> Join<View<R>> for Part {
    ghost use Rattle.vm_turn.specs.View.{joined_view, spent_view};

    ghost both = { joined_view };

    ghost spent = { spent_view };
}
