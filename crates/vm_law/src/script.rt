use crate::seq::Seq;
use crate::text::Text;

/// An order of a control script.
#[derive(Drop)]
pub enum Order {
    /// Waits until nothing more can happen by itself.
    WaitQuiet,
    /// Waits for so many console bytes.
    WaitConsole(u64),
    /// Waits for so many executed instructions.
    WaitExecuted(u64),
    /// These bytes join the UART's input.
    Input(Seq<u8>),
    /// A non-maskable interrupt for a vCPU.
    Nmi(u8),
    /// Each started vCPU notes how many instructions it ran.
    Rendezvous,
    /// Stops every vCPU and block worker for a cut.
    Pause,
    /// Lets them go on.
    Resume,
    /// Writes the machine's state to a file.
    Checkpoint(Text),
    /// Sets a register: 0 to 15 as in a context, RIP 16, RFLAGS 17.
    Set { cpu: u8, reg: u8, value: u64 },
    /// Reads a register.
    Get { cpu: u8, reg: u8 },
    /// Cancels a block request.
    Cancel { disk: u8, id: u32 },
    /// Writes the machine's state against the file of an earlier checkpoint, its base.
    Against { name: Text, base: Text },
    /// Sends what changed of the machine as a round of a stream; while paused, the closing round.
    Send(Text),
}

/// A control script, in order.
pub type Script = Seq<Order>;
