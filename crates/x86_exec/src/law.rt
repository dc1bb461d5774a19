//! What one instruction leaves, by what it asks and by what it stored.
ghost use Rattle.x86_exec.specs.Kept.{SharedLeaves, SharedStores, SharedKeepsSize};

/// Memory has changed only where the instruction is done, and the context is as before where it isn't done yet or can't
/// be.
#[tactic(auto, using(crate::proofs::Leaves::shared_leaves))]
pub fn shared_leaves()
    ensures { SharedLeaves }
{}

/// Memory, of fewer than 2^64 bytes, stays where nothing is stored; else it is written there and nowhere else, inside.
#[tactic(auto, using(crate::proofs::Stores::shared_stores))]
pub fn shared_stores()
    ensures { SharedStores }
{}

/// How many bytes there are, which are fewer than 2^64, and how many of them are code is as before.
#[tactic(auto, using(crate::proofs::Stores::shared_keeps_size))]
pub fn shared_keeps_size()
    ensures { SharedKeepsSize }
{}
