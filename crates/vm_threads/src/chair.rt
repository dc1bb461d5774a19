//! Control with its pass, as one value.

use std::marker::Model;
use vm_board::Board;
use vm_control::{Control, OutFault};
use vm_host::Image;
use vm_turn::Pass;

/// Control and pass 0, which fit, and the first failure of control's work outside.
#[derive(Drop)]
pub(crate) struct Chair<I: Image + Drop> {
    pub(crate) control: Control,
    pub(crate) pass: Pass<Board<I>>,
    pub(crate) fault: Option<OutFault>,
}

impl<I: Image + Drop> Model for Chair<I> {
    ghost use Rattle.std.specs.Coded.{codes};
    ghost use Rattle.vm_law.specs.contracts.journal.Signed as signed_contract;
    ghost use Rattle.vm_state.specs.contracts.start.Start as start_contract;
    ghost use Rattle.vm_control.specs.View.{control_code};
    ghost use Rattle.vm_control.specs.contracts.control.OutFault as fault_contract;
    ghost use Rattle.vm_threads.specs.Chair.{ChairView, IsChair};

    ghost Value = { ChairView };

    ghost coded = { Prim.hlevel (codes, control_code, fault_contract.the_row.coded, start_contract.the_row.coded, signed_contract.the_row.coded) };

    ghost view = { λ c. record { control = c.control; pass = c.pass; fault = c.fault } };

    ghost invariant = { λ c. IsChair (record { control = c.control; pass = c.pass; fault = c.fault }) };
}
