//! What a runner has out of the run.

use vm_law::Ctx;

/// What a runner has out of the run.
#[derive(Clone, Copy)]
pub enum Out {
    Nothing,
    /// Its vCPU's context, with the instructions that are left of its grant.
    Leased {
        ctx: Ctx,
        left: u16,
    },
    /// From the context `start` on it ran `count` of them, and came to `ctx`.
    Ran {
        start: Ctx,
        left: u16,
        count: u16,
        ctx: Ctx,
    },
}

/// Which of these it has out.
#[derive(Clone, Copy)]
pub(crate) enum Phase {
    Nothing,
    Leased,
    Ran,
}
