/// In which stage a vCPU is, and by which pass it is owned. Source: the states of FreeBSD's vmm(4).
#[derive(Clone, Copy, Debug, PartialEq, Eq)]
pub enum Owned {
    Idle,
    Frozen(u16),
    Running(u16),
    Sleeping(u16),
}

/// What a rendezvous is for.
#[derive(Clone, Copy, Debug, PartialEq, Eq)]
pub enum MeetKind {
    /// Each vCPU takes over the trigger modes after a change of interrupt routing.
    Routing,
    /// Each vCPU notes how many instructions it ran.
    Sample,
}
