//! What a file is read as.
ghost use Rattle.std.specs.Prelude.{◌≡◌};
ghost use Rattle.vm_status.specs.Words.{role_word};

/// What a file is read as.
#[derive(Clone, Copy, Debug, PartialEq, Eq)]
pub enum Role {
    Configuration,
    Image,
    Disk,
    Script,
    Checkpoint,
    Stream,
    Journal,
    /// Assembler text.
    Assembly,
    /// What a run is to start from, all files and options together.
    Start,
}

impl Role {
    /// The word for it.
    pub fn word(self) -> &'static str
        ensures { result.now ≡ role_word self }
    {
        match self {
            Role::Configuration => "configuration",
            Role::Image => "image",
            Role::Disk => "disk",
            Role::Script => "script",
            Role::Checkpoint => "checkpoint",
            Role::Stream => "stream",
            Role::Journal => "journal",
            Role::Assembly => "assembly",
            Role::Start => "start",
        }
    }
}
