ghost use Rattle.std.specs.Prelude.{◌≡◌, ◌<◌, ◌≤◌, ◌++◌, [], ◌∷◌, length};

use std::marker::Model;
use vm_law::{Dest, Message, Mode};

/// At most 32 messages, in order. Contracts see them as a list.
#[derive(Drop)]
pub struct Messages {
    items: [Message; 32],
    len: usize,
}

impl Model for Messages {
    ghost use Rattle.std.specs.Prelude.{List, take, ◌≤◌};
    ghost use Rattle.vm_law.specs.declared.message.Message.{Message as Item};

    ghost Value = { List Item };

    ghost view = { λ m. take m.len m.items };

    ghost invariant = { λ m. m.len ≤ 32 };
}

impl Messages {
    /// No message.
    pub(crate) fn new() -> Messages
        ensures { result ≡ [] }
    {
        let blank = Message {
            vector: 0,
            mode: Mode::Dropped,
            dest: Dest::Nobody,
        };
        Messages {
            items: [blank; 32],
            len: 0,
        }
    }

    /// Adds a message at the end.
    pub(crate) fn push(&mut self, message: Message)
        requires { length self.old < 32 }
        ensures { self.new ≡ self.old ++ message ∷ [] }
    {
        self.items[self.len] = message;
        self.len += 1;
    }

    /// The messages in order.
    pub fn as_slice(&self) -> &[Message]
        ensures { result.now ≡ self.now }
    {
        &self.items[..self.len]
    }
}
