//! What holds of the rounds of one thread, from every start.
ghost use Rattle.vm_rounds.specs.Returning.{RoundsAreLegal, RoundsAreOrderly, RoundsReturn};

/// The rounds of one thread come to Close from every sound start, whatever the image calls answer.
pub fn rounds_return()
    ensures { RoundsReturn }
{}

/// What any number of rounds added is a legal history, and they are in its last state.
pub fn rounds_are_legal()
    ensures { RoundsAreLegal }
{}

/// Each of those entries is what its pass adds in an orderly turn.
pub fn rounds_are_orderly()
    ensures { RoundsAreOrderly }
{}
