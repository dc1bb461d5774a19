//! A piece written over bytes.
ghost use Rattle.std.specs.Prelude.{IfOk};
ghost use Rattle.vm_host.specs.Files.{IsWritten};

use std::alloc::Global;
use vm_law::OutOfMemory;

/// The bytes with a piece from this offset on, and zeros between an old end and a later offset.
pub fn overwritten(
    alloc: Global,
    old: &[u8],
    at: usize,
    piece: &[u8],
) -> Result<Vec<u8>, OutOfMemory>
    ensures { IfOk result (λ v. IsWritten old.now at piece.now v.items) }
{
    let mut next = Vec::new(alloc);
    if at <= old.len() {
        next.extend_from_slice(&old[..at])?;
        next.extend_from_slice(piece)?;
        if piece.len() < old.len() - at {
            next.extend_from_slice(&old[at + piece.len()..])?;
        }
    } else {
        next.extend_from_slice(old)?;
        next.resize(at, 0)?;
        next.extend_from_slice(piece)?;
    }
    Ok(next)
}
