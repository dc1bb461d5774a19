ghost use Rattle.x86_decode.specs.declared.fault.DecodeFault.{DecodeFault};

use thiserror::Error;

/// Why bytes don't begin with an instruction.
#[derive(Clone, Copy, Debug, PartialEq, Eq, Error)]
pub enum DecodeFault {
    /// They end in the middle of one.
    #[error("the bytes end in the middle of an instruction")]
    Short,
    /// No bytes behind them would make one.
    #[error("the bytes begin with no instruction")]
    Unknown,
}
