//! What a pass knows. Contracts alone speak of it, and no value of these types is made.

use std::collections::LinkedList;
use vm_law::Signed;

/// What pass 0 knows of a pass that was joined.
pub struct Ended {
    /// Its number.
    pub number: u64,
    /// The entries that it had added, in order.
    pub own: LinkedList<Signed>,
}

/// What a pass knows.
pub struct View<R> {
    /// The pass wasn't joined.
    pub live: bool,
    /// Its number. The first pass has 0, and those that it splits off have 1, 2 and so on.
    pub number: u64,
    /// The root of the turnstile's value.
    pub root: Option<R>,
    /// What the pass has seen: the value's history when the pass took it or gave it back last, or what
    /// the pass that split it off had seen.
    pub seen: LinkedList<Signed>,
    /// The entries that it has added, in order.
    pub own: LinkedList<Signed>,
    /// The pass holds the value. Then `seen` is the history as it was taken.
    pub holds: bool,
    /// What its last try found: 0 where nobody held the value, else 1 plus the holder's number.
    pub found: u64,
    /// How many tries it made.
    pub tries: u64,
    /// How many passes it has split off.
    pub splits: u64,
    /// The passes that were joined to it, the last one first.
    pub ended: LinkedList<Ended>,
}
