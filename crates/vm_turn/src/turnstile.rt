//! A value that passes take in turn.
ghost use Rattle.std.specs.Prelude.{◌≡◌, ◌≢◌, ℕ, ◌+◌, ◌<◌, true, false, [], Some, IfOk, IfErr, OnErr};
ghost use Rattle.vm_turn.specs.History.{signed_by, Adds};
ghost use Rattle.vm_turn.specs.View.{own_of, opening_view, taken_view, lost_view, with_tries, given_view, split_view, new_view, joined_view, IsLone, Finds};

use crate::pass::{Busy, Held, Pass};
use crate::rule::{Give, Part, Take, Turns};
use crate::view::View;
use atomic_table::{Refused, Table};
use std::alloc::Global;
use std::marker::Model;
use std::snapshot::Snapshot;
use std::sync::Wait;
use vm_law::{Logged, OutOfMemory};

/// A value that passes take in turn. Contracts see which turnstile it is.
#[derive(Drop)]
pub struct Turnstile<L: Logged> {
    table: Table<Option<L>, View<L::Root>, Snapshot<L>, Turns<L>, Global>,
}

impl<L: Logged> Model for Turnstile<L> {
    ghost use Rattle.std.specs.Prelude.{◌≡◌};
    ghost use Rattle.vm_turn.specs.Known.{TableId};

    ghost Value = { TableId };

    ghost view = { λ t. t.table.shared.table_id };

    ghost invariant = { λ t. (t.table.shared.table_id.words ≡ 1) × (t.table.shared.table_id.slots ≡ 1) };
}

impl<L: Logged> Turnstile<L> {
    /// A turnstile about a value whose history is empty, and its first pass, which has number 0.
    ///
    /// `OutOfMemory` where an allocation was refused. Then `first` is dropped.
    pub fn make(alloc: Global, first: L) -> Result<(Turnstile<L>, Pass<L>), OutOfMemory>
        requires { L.entries first ≡ [] }
        ensures own { IfOk result (λ t. t.1.turnstile ≡ t.0) }
        ensures view { IfOk result (λ t. t.1.view ≡ opening_view (L.root first)) }
    {
        let about = Snapshot::of(&first);
        let mut slots = Vec::with_capacity(alloc, 1)?;
        slots.push_reserved(Some(first));
        match Table::new(alloc, &[0], slots, &about) {
            Ok((table, seat)) => {
                let pass = Pass {
                    seat,
                    number: 0,
                    splits: 0,
                };
                Ok((Turnstile { table }, pass))
            }
            Err(Refused { slots: _ }) => Err(OutOfMemory),
        }
    }

    /// Takes the value where no pass holds it. It makes one exchange, and doesn't wait.
    ///
    /// `Busy` where that exchange found another pass, the one that it names.
    pub fn try_take(&self, pass: &mut Pass<L>) -> Result<Held<L>, Busy>
        requires own { pass.old.turnstile ≡ self.now }
        requires idle { pass.old.view.holds ≡ false }
        ensures same { pass.new.turnstile ≡ pass.old.turnstile }
        ensures finds { IfOk result (λ held. Finds L.root L.entries pass.old.view held.value) }
        ensures taken { IfOk result (λ held. pass.new.view ≡ taken_view pass.old.view (L.entries held.value)) }
        ensures busy { IfErr result (λ b. pass.new.view ≡ lost_view pass.old.view (b.holder + 1)) }
        ensures other { IfErr result (λ b. b.holder ≢ pass.old.view.number) }
        ensures never_lone { OnErr result (¬ IsLone pass.old.view) }
    {
        let mine = u64::from(pass.number) + 1;
        let shared = &self.table.shared;
        let found = shared.compare_exchange::<Take>(&mut pass.seat, 0, 0, mine);
        if found == 0 {
            let value = shared.exchange(&mut pass.seat, 0, None).unwrap();
            Ok(Held { value })
        } else {
            Err(Busy {
                holder: (found - 1) as u16,
            })
        }
    }

    /// Takes the value, and waits while another pass holds it.
    pub fn take<R: Wait>(&self, rt: &R, pass: &mut Pass<L>) -> Held<L>
        requires own { pass.old.turnstile ≡ self.now }
        requires idle { pass.old.view.holds ≡ false }
        ensures same { pass.new.turnstile ≡ pass.old.turnstile }
        ensures finds { Finds L.root L.entries pass.old.view result.value }
        // It may have taken any number of tries from one on.
        ensures tried { pass.old.view.tries < pass.new.view.tries }
        ensures taken { pass.new.view ≡ with_tries (taken_view pass.old.view (L.entries result.value)) pass.new.view.tries }
    {
        for _ in rt.forever() {
            match self.try_take(pass) {
                Ok(held) => return held,
                Err(busy) => self.table.shared.park(rt, 0, u32::from(busy.holder) + 1),
            }
        }
        unreachable!()
    }

    /// Gives the value back. Its root is the one that the pass found, and its history is the one that
    /// the pass found, followed by entries of the pass's number.
    pub fn give(&self, pass: &mut Pass<L>, held: Held<L>)
        requires own { pass.old.turnstile ≡ self.now }
        requires holds { pass.old.view.holds ≡ true }
        requires root { pass.old.view.root ≡ Some (L.root held.value) }
        requires history { Adds pass.old.view.number pass.old.view.seen (L.entries held.value) }
        ensures same { pass.new.turnstile ≡ pass.old.turnstile }
        ensures given { pass.new.view ≡ given_view pass.old.view (L.entries held.value) }
    {
        let Held { value } = held;
        let shared = &self.table.shared;
        drop(shared.exchange(&mut pass.seat, 0, Some(value)));
        shared.store::<Give>(&mut pass.seat, 0, 0);
        shared.wake_one(0);
    }

    /// Splits a pass off pass 0, which comes first in the answer. The new pass has the number of splits
    /// made before, plus 1, has seen as much as pass 0, and has added nothing.
    pub fn split(&self, pass: Pass<L>) -> (Pass<L>, Pass<L>)
        requires own { pass.turnstile ≡ self.now }
        requires first { pass.view.number ≡ 0 }
        requires few { pass.view.splits < 65535 }
        ensures same { (result.0.turnstile ≡ pass.turnstile) × (result.1.turnstile ≡ pass.turnstile) }
        ensures kept { result.0.view ≡ split_view pass.view }
        ensures new { result.1.view ≡ new_view pass.view }
    {
        let Pass {
            mut seat,
            number,
            splits,
        } = pass;
        let other = self.table.shared.split_seat::<Part>(&mut seat);
        let splits = splits + 1;
        let new = Pass {
            seat: other,
            number: splits,
            splits: 0,
        };
        let kept = Pass {
            seat,
            number,
            splits,
        };
        (kept, new)
    }

    /// Ends a pass that was split off, `ended`, and gives what it knows to pass 0, `keeper`: the longer
    /// of the two seen histories, and the own entries of `ended`.
    pub fn join(&self, keeper: Pass<L>, ended: Pass<L>) -> Pass<L>
        requires own { (keeper.turnstile ≡ self.now) × (ended.turnstile ≡ self.now) }
        requires numbers { (keeper.view.number ≡ 0) × (ended.view.number ≢ 0) }
        requires idle { (keeper.view.holds ≡ false) × (ended.view.holds ≡ false) }
        ensures same { result.turnstile ≡ keeper.turnstile }
        ensures view { result.view ≡ joined_view keeper.view ended.view }
    {
        let Pass {
            mut seat,
            number,
            splits,
        } = keeper;
        let Pass {
            seat: other,
            number: _,
            splits: _,
        } = ended;
        self.table.shared.join_seat::<Part>(&mut seat, other);
        Pass {
            seat,
            number,
            splits,
        }
    }

    /// Ends the turnstile and gives its value, once each pass that was split off pass 0 was joined to it.
    pub fn close(self, pass: Pass<L>) -> L
        requires own { pass.turnstile ≡ self }
        requires idle { pass.view.holds ≡ false }
        requires last { IsLone pass.view }
        ensures finds { Finds L.root L.entries pass.view result }
        // The entries of each number above 0 are the own entries of the pass of that number.
        ensures others { (n : ℕ) → 0 < n → signed_by n (L.entries result) ≡ own_of n pass.view.ended }
    {
        let Turnstile { table } = self;
        let Pass {
            seat,
            number: _,
            splits: _,
        } = pass;
        let mut closed = table.close_with(seat);
        let value = closed.take(0);
        closed.free();
        value.unwrap()
    }
}
