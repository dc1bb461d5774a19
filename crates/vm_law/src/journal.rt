use crate::seq::Seq;

/// Why an `End` entry ends a run.
#[derive(Clone, Copy, Debug, PartialEq, Eq)]
pub enum EndCause {
    /// The instructions or entries that were allowed are used up.
    Budget,
    /// A file or a sink failed.
    Outside,
}

/// One event of the machine.
#[derive(Clone, Copy, PartialEq, Eq)]
pub enum Entry {
    /// An idle vCPU is taken and frozen.
    Claim { cpu: u8 },
    /// A vCPU that waited for its start-up starts.
    Start { cpu: u8 },
    /// A frozen vCPU runs, for at most `grant` instructions.
    Enter { cpu: u8, grant: u16 },
    /// So many instructions that touch the vCPU's own registers alone.
    Slice { cpu: u8, n: u16 },
    /// One instruction.
    Step { cpu: u8 },
    /// A running vCPU is frozen.
    Exit { cpu: u8 },
    /// A frozen vCPU with nothing to do sleeps.
    Sleep { cpu: u8 },
    /// A sleeping vCPU is frozen.
    Wake { cpu: u8 },
    /// A frozen vCPU is idle.
    Yield { cpu: u8 },
    /// A vCPU takes its turn in the open rendezvous.
    Turn { cpu: u8 },
    /// A rendezvous of all started vCPUs opens.
    Meet,
    /// A worker takes the next chain off a disk's ring.
    Pull { disk: u8 },
    /// A worker begins the first pending request.
    Begin { disk: u8, id: u32 },
    /// The next sector of a read goes from the disk to memory.
    Move { disk: u8, id: u32 },
    /// A worker takes the image, for the next sector of a write or for a flush.
    Hold { disk: u8, id: u32 },
    /// The image comes back, and whether its call succeeded.
    Put { disk: u8, id: u32, ok: bool },
    /// A request is completed.
    Finish { disk: u8, id: u32 },
    /// The UART receives the first byte of the input.
    Feed,
    /// A pause is wished.
    Wish,
    /// The order of the script at place `k` is done.
    Done { k: u16 },
    /// The run ends before its script does.
    End { why: EndCause },
    /// Everything is at rest, and nothing follows.
    Close,
    /// The timers move on by so many instructions.
    Tick { n: u64 },
}

/// An entry with the number of the pass that added it: 0 for control, `1 + i` for vCPU `i`, and then
/// the block workers, disk after disk.
#[derive(Clone, Copy, PartialEq, Eq)]
pub struct Signed {
    pub by: u16,
    pub entry: Entry,
}

/// A history, in order.
pub type Journal = Seq<Signed>;

/// What began at a root and has a history since.
pub trait Logged: Drop {
    type Root;

    ghost use Rattle.std.specs.Prelude.{List};
    ghost use Rattle.vm_law.specs.declared.journal.Signed.{Signed};

    /// What it began at.
    ghost root: { Self → Self.Root };

    /// What was added since, in order.
    ghost entries: { Self → List Signed };
}
