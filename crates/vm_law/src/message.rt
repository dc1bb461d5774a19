/// An interrupt message. Source: Intel SDM volume 3, section 10.6.
#[derive(Clone, Copy, PartialEq, Eq)]
pub struct Message {
    pub vector: u8,
    pub mode: Mode,
    pub dest: Dest,
}

/// The delivery mode of a message.
#[derive(Clone, Copy, Debug, PartialEq, Eq)]
pub enum Mode {
    Fixed,
    Nmi,
    Startup,
    /// A mode that isn't built: the message has no effect.
    Dropped,
}

/// The vCPUs that a message is for.
#[derive(Clone, Copy, Debug, PartialEq, Eq)]
pub enum Dest {
    One(u8),
    All,
    AllBut(u8),
    Nobody,
}
