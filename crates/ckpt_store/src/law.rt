//! What [`crate::save`] and a reader of its file have in common.
ghost use Rattle.ckpt_store.specs.Gate.{AcceptedIsWhole};

/// A file that is accepted after a crash is the whole text.
pub fn accepted_is_whole()
    ensures { AcceptedIsWhole }
{}
