use thiserror::Error;

/// What is wrong with a line. Where several are, the first in this order is told.
#[derive(Clone, Copy, Debug, PartialEq, Eq, Error)]
pub enum CfgKind {
    /// The line isn't UTF-8.
    #[error("text")]
    Text,
    /// The line has no `=`.
    #[error("equals")]
    Equals,
    /// The name before the first `=` isn't made of non-empty parts joined by dots.
    #[error("name")]
    Name,
    /// The value has a `%(` and no later `)`, or the expanded values up to it pass 16 MiB.
    #[error("percent")]
    Percent,
}

/// Why a text isn't a configuration.
#[derive(Debug, Drop, Error)]
pub enum CfgError {
    /// A line is faulty; lines count from 1.
    #[error("at {line}: {kind}")]
    Fault { line: u32, kind: CfgKind },
    /// An allocation was refused.
    #[error("out of memory")]
    Memory,
}
