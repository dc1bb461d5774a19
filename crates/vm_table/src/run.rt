//! A run of the machine.

use std::marker::Model;
use vm_state::RunState;

/// A run of the machine. Contracts see its state, and for how many entries it has room.
#[derive(Drop)]
pub struct Run {
    pub(crate) run: RunState,
}

impl Model for Run {
    ghost use Rattle.vm_state.specs.Sound.{IsSoundState};
    ghost use Rattle.vm_state.specs.View.{room_for};
    ghost use Rattle.vm_table.specs.View.{View, view_code};

    ghost Value = { View };

    ghost coded = { view_code };

    ghost view = { λ r. record { state = r.run.state; room = room_for r.run } };

    ghost invariant = { λ r. IsSoundState r.run.state };
}
