ghost use Rattle.vm_journal.specs.declared.fault.JournalError.{JournalError};

use std::fmt;
use thiserror::Error;

/// What is wrong with a journal's bytes.
#[derive(Clone, Copy, Debug, PartialEq, Eq)]
pub enum JournalKind {
    /// The first byte isn't 01.
    Gate,
    /// A byte of `VMJRNL1` and LF differs.
    Magic,
    /// A field is cut, or isn't there.
    Short,
    /// No entry has this tag.
    Tag,
    /// A flag above 1, or a cause other than 1 and 2.
    Value,
    /// Bytes follow the last entry.
    Trailing,
}

impl fmt::Display for JournalKind {
    ghost use Rattle.std.specs.Prelude.{Some};
    ghost use Rattle.vm_journal.specs.Kind.{name_of};

    ghost output = { λ kind. Some (name_of kind) };

    fn fmt<W: fmt::Write>(&self, f: &mut fmt::Formatter<W>) -> fmt::Result {
        match self {
            JournalKind::Gate => write!(f, "gate"),
            JournalKind::Magic => write!(f, "magic"),
            JournalKind::Short => write!(f, "short"),
            JournalKind::Tag => write!(f, "tag"),
            JournalKind::Value => write!(f, "value"),
            JournalKind::Trailing => write!(f, "trailing"),
        }
    }
}

/// Why bytes give no journal.
#[derive(Clone, Copy, Debug, PartialEq, Eq, Error)]
pub enum JournalError {
    /// The first fault of the bytes, and the place of its byte, counted from 0.
    #[error("at {at}: {kind}")]
    Fault { at: u64, kind: JournalKind },
    /// An allocation was refused.
    #[error("out of memory")]
    Memory,
}
