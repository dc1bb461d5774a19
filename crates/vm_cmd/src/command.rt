ghost use Rattle.std.specs.Prelude.{◌≡◌};
ghost use Rattle.vm_cmd.specs.declared.command.CmdError.{CmdError};

use std::alloc::AllocError;
use thiserror::Error;
use vm_law::{OutOfMemory, Text};

/// A command line.
#[derive(Drop)]
pub enum Command {
    /// Runs a virtual machine, each vCPU and block worker on a thread of its own.
    Run(RunWords),
    /// Runs a virtual machine on one thread.
    Solo(RunWords),
    /// Replays the journal of a run, which the second file holds. Its words hold no journal.
    Replay(RunWords, Text),
    /// Shows the plan of a configuration file.
    Show(Text),
    /// Reads the first file as assembler text, and writes the image to the second.
    Asm(Text, Text),
    /// Runs a workload that is made of two numbers.
    Make {
        /// How many vCPUs, 1 to 16.
        cpus: u8,
        /// The number that the counts are made of.
        number: u32,
    },
    /// Writes the checkpoint in the first file to the second, as one file of the newest version.
    Convert(Text, Text),
    /// Takes the machine from the stream in the first file, and writes it as a checkpoint to the second.
    Arrive(Text, Text),
    /// Shows what a journal says of the machine at one of its entries. Its words hold no journal and no state.
    Inspect(RunWords, InspectWords),
}

/// What a run is told.
#[derive(Drop)]
pub struct RunWords {
    /// The configuration or the flat image.
    pub file: Text,
    /// The greatest number of instructions, 1 to 20,000,000; 10,000,000 where the words give none.
    pub limit: u64,
    /// The file that the journal is written to.
    pub journal: Option<Text>,
    /// The checkpoint that the run begins from.
    pub restore: Option<Text>,
    /// Whether the report has the machine's state.
    pub state: bool,
}

/// What is shown of a journal.
#[derive(Drop)]
pub struct InspectWords {
    /// The file that holds the journal.
    pub journal: Text,
    /// After how many entries, below 10^9.
    pub at: u32,
    /// The vCPU and the vector whose last posting is sought, both below 10^9.
    pub vector: Option<(u32, u32)>,
    /// The disk and the sector whose last write is sought, both below 10^9.
    pub sector: Option<(u32, u32)>,
}

/// Why no command was read.
#[derive(Clone, Copy, Debug, PartialEq, Eq, Error)]
pub enum CmdError {
    /// The words are outside the table of commands.
    #[error("usage: vmrun run|solo|replay|show|asm|make|convert|arrive|inspect")]
    Usage,
    /// Memory was refused.
    #[error("out of memory")]
    Memory,
}

impl From<AllocError> for CmdError {
    ghost use Rattle.vm_cmd.specs.declared.command.CmdError.TheVariants.{Memory};

    ghost from_gives = { λ _ e. e ≡ Memory };

    fn from(_error: AllocError) -> CmdError {
        CmdError::Memory
    }
}

impl From<OutOfMemory> for CmdError {
    ghost use Rattle.vm_cmd.specs.declared.command.CmdError.TheVariants.{Memory};

    ghost from_gives = { λ _ e. e ≡ Memory };

    fn from(_error: OutOfMemory) -> CmdError {
        CmdError::Memory
    }
}
