use std::alloc::{AllocError, Global};
use vm_host::HostFault;

/// What a call answered that gives nothing else.
#[derive(Clone, Copy, Debug, PartialEq, Eq)]
pub enum Answer {
    Done,
    Missing,
    Failed,
    Memory,
    /// It wasn't made, since what must hold before it doesn't.
    Cannot,
}

impl Answer {
    /// The word for it.
    pub fn word(self) -> &'static str {
        match self {
            Answer::Done => "-",
            Answer::Missing => "missing",
            Answer::Failed => "failed",
            Answer::Memory => "memory",
            Answer::Cannot => "cannot",
        }
    }
}

/// What a command gave.
#[derive(Drop)]
pub enum Gave {
    Answer(Answer),
    Number(u64),
    Bytes(Vec<u8>),
    Name(Vec<u8>),
}

impl Gave {
    /// It as a text: bytes in hexadecimal, and of a name what it is as text where it is one.
    pub fn text(&self, alloc: Global) -> Result<String, AllocError> {
        match self {
            Gave::Answer(answer) => String::from_str(alloc, answer.word()),
            Gave::Number(number) => format!(in alloc; "{number}"),
            Gave::Bytes(bytes) => hex::encode(alloc, bytes),
            Gave::Name(name) => match str::from_utf8(name) {
                Ok(text) => String::from_str(alloc, text),
                Err(_) => hex::encode(alloc, name),
            },
        }
    }
}

/// What a refusal of a host gives.
pub fn refused(fault: HostFault) -> Gave {
    Gave::Answer(match fault {
        HostFault::Missing => Answer::Missing,
        HostFault::Failed => Answer::Failed,
        HostFault::Memory => Answer::Memory,
    })
}

/// What a call gives that answers nothing but its refusals.
pub fn done(answer: Result<(), HostFault>) -> Gave {
    match answer {
        Ok(()) => Gave::Answer(Answer::Done),
        Err(fault) => refused(fault),
    }
}

/// What a call gives whose refusals have no kinds.
pub fn done_or_failed<E: Drop>(answer: Result<(), E>) -> Gave {
    Gave::Answer(match answer {
        Ok(()) => Answer::Done,
        Err(_) => Answer::Failed,
    })
}

/// What a call gives that isn't made.
pub fn cannot() -> Gave {
    Gave::Answer(Answer::Cannot)
}
