//! What a write to memory changes in the code.
ghost use Rattle.x86_fetch.specs.Kept.{WritesChangeOnly};

/// A write inside the memory changes no byte of the code but those that it names, so [`crate::Table::forget`] of these
/// makes a table right again.
pub fn writes_change_only()
    ensures { WritesChangeOnly }
{}
