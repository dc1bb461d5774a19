ghost use Rattle.std.specs.Prelude.{◌≡◌};
ghost use Rattle.vm_uart.specs.Saved.{IsSaved, state_of, serial_of};

use crate::uart::{Uart, duplicate};
use vm_law::UartState;

impl Uart {
    /// The port's state, which tells it whole.
    pub fn saved(&self) -> UartState
        ensures state { result ≡ state_of self.now }
        ensures lawful { IsSaved result }
        ensures whole { serial_of result ≡ self.now }
    {
        UartState {
            ier: self.ier,
            lcr: self.lcr,
            mcr: self.mcr,
            scr: self.scr,
            fcr: self.fcr,
            dll: self.dll,
            dlm: self.dlm,
            empty_pending: self.empty,
            received: duplicate(&self.received),
        }
    }

    /// The port that has a state, in which only bits are set that a register keeps.
    pub fn from_saved(state: &UartState) -> Uart
        requires { IsSaved state.now }
        ensures port { result ≡ serial_of state.now }
        ensures whole { state_of result ≡ state.now }
    {
        Uart {
            received: duplicate(&state.received),
            ier: state.ier,
            fcr: state.fcr,
            lcr: state.lcr,
            mcr: state.mcr,
            scr: state.scr,
            dll: state.dll,
            dlm: state.dlm,
            empty: state.empty_pending,
        }
    }
}
