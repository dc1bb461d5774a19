//! What a turn of an actor did.
ghost use Rattle.std.specs.Prelude.{◌≡◌};
ghost use Rattle.vm_board.specs.Going.{end_of};
ghost use Rattle.vm_board.specs.Turn.{told};

/// What a turn did.
#[derive(Clone, Copy, Debug, PartialEq, Eq)]
pub enum Did {
    /// It added entries.
    Added,
    /// There was nothing to add.
    Nothing,
    /// After these entries, if there were any, nothing is left to do for this actor.
    Left,
    /// Memory was wanted, now or before. Board and actor stay as they were, but that the board notes it.
    Starved,
}

/// What turns of an actor at the turnstile came to.
#[derive(Clone, Copy, Debug, PartialEq, Eq)]
pub enum Went {
    /// Each of them was taken, and the actor may go on.
    Again,
    /// At the last one nothing was left to do for this actor.
    Left,
    /// At the last one memory was wanted, now or before.
    Starved,
}

impl Did {
    /// What a turn did that had memory: whether the actor leaves, and whether it added entries.
    pub fn of(leaves: bool, added: bool) -> Did
        ensures { result ≡ told leaves added }
    {
        if leaves {
            Did::Left
        } else if added {
            Did::Added
        } else {
            Did::Nothing
        }
    }

    /// What an actor's turns come to with this one, if it is the last: where the actor leaves, or wants memory.
    pub fn end(self) -> Option<Went>
        ensures { result ≡ end_of self }
    {
        match self {
            Did::Added | Did::Nothing => None,
            Did::Left => Some(Went::Left),
            Did::Starved => Some(Went::Starved),
        }
    }
}
