//! What the list of a queue keeps.
ghost use Rattle.blk_queue.specs.Sound.{AnIdNamesOne, FirstIsFree};

/// The first request of a queue is never blocked, so where none is busy and some request is unfinished one is pending.
pub fn first_is_free()
    ensures { FirstIsFree }
{}

/// An id names at most one unfinished request.
#[tactic(auto, using(crate::proofs::Names::names_one))]
pub fn an_id_names_one()
    ensures { AnIdNamesOne }
{}
