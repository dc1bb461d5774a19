//! What no write to guest memory changes.
ghost use Rattle.guest_ram.specs.GuestRam.{WritesKeepCode, WritesKeepSize};

/// A write inside the memory leaves how many bytes there are and how many of them are code.
pub fn writes_keep_size()
    ensures { WritesKeepSize }
{}

/// A write inside the memory and above its code leaves the code part too.
pub fn writes_keep_code()
    ensures { WritesKeepCode }
{}
