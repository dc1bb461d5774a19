ghost use Rattle.std.specs.Prelude.{◌≡◌, ◌++◌, ℕ, IfOk, OnOk};
ghost use Rattle.byteorder.specs.Endian.{little_bytes};
ghost use Rattle.vm_law.specs.Image.{IsAllowed, IsImage};

use crate::reading::MAGIC;
use byteorder::{ByteOrder, LittleEndian};
use std::alloc::{AllocError, Global};
use vm_law::{FlatImage, OutOfMemory};

/// Adds a number of eight bytes, the lowest byte first.
fn put_number(out: &mut Vec<u8>, number: u64) -> Result<(), AllocError>
    ensures { OnOk result (out.new.items ≡ out.old.items ++ little_bytes 8 number) }
{
    let mut bytes = [0u8; 8];
    LittleEndian::write_u64(&mut bytes, number);
    out.extend_from_slice(&bytes)?;
    Ok(())
}

/// The file of an image.
///
/// Each memory that allows the image reads these bytes as it again.
pub fn write(alloc: Global, image: &FlatImage) -> Result<Vec<u8>, OutOfMemory>
    // Some memory allows it.
    requires { (memory : ℕ) × IsAllowed memory image.now }
    ensures { IfOk result (λ bytes. (memory : ℕ) → IsAllowed memory image.now → IsImage memory bytes.items image.now) }
{
    let mut bytes = Vec::new(alloc);
    bytes.extend_from_slice(&MAGIC)?;
    put_number(&mut bytes, image.entry)?;
    put_number(&mut bytes, image.code)?;
    bytes.extend_from_slice(image.payload.as_slice())?;
    Ok(bytes)
}
