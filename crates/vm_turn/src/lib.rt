//! One value that several actors take in turn, each under a number of its own, and that carries the
//! history of what they did to it.
//!
//! A `Turnstile` holds the value and lends it to one `Pass` at a time. The value has a root, which
//! never changes, and a history, to which its holder adds entries of its own number (`vm_law::Logged`).
//! A pass knows what it has seen, a history, and its own entries, those that it added.
//!
//! What the contracts promise:
//!
//! - Whoever takes the value finds the first root, and a history that has as a prefix what its pass has
//!   seen, followed by entries of others alone. So the pass's own entries stand in it each once.
//! - `try_take` makes one exchange and doesn't wait. It answers `Busy` only where that exchange found
//!   the holder that `Busy` names, which is another pass. So it succeeds for the only pass that is left.
//! - `close` gives the value back. For each number, the entries of that number in its history are the
//!   own entries of the pass of that number.
//!
//! No contract says that a wait ends or who is next.
//!
//! The turnstile is an `atomic_table` of one word and one slot. The word is 0 while nobody holds the
//! value, and else 1 plus the holder's number. Each step on it is sequentially consistent. It follows no
//! published standard.
#![tactic(auto)]

mod pass;
mod rule;
mod turnstile;
mod view;

pub use pass::{Busy, Held, Pass};
pub use turnstile::Turnstile;
pub use view::{Ended, View};
