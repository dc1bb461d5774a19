//! The flat image in a file.
ghost use Rattle.std.specs.Prelude.{◌≡◌, ◌<◌, ◌≤◌, ◌^◌, IfErr};
ghost use Rattle.vm_host.specs.Leaves.{ReadsHost};
ghost use Rattle.vm_start.specs.Answers.{UpToMemory};
ghost use Rattle.vm_start.specs.Causes.{HasReadCauses};
ghost use Rattle.vm_start.specs.Files.{ImageIn, Imaged};
ghost use Rattle.vm_start.specs.Start.{ImageOf};
ghost use Rattle.vm_start.specs.Steps.{IsOwn};

use crate::loading::{HEADER_SIZE, load_file};
use crate::refusing::{bad, image_kind};
use std::alloc::Global;
use vm_host::Host;
use vm_image::ImageError;
use vm_law::FlatImage;
use vm_status::{Kind, Refusal, Role};

/// The image that the bytes of a file are, for a memory of so many bytes.
fn imaged(alloc: Global, name: &str, memory: u64, bytes: &[u8]) -> Result<FlatImage, Refusal>
    ensures value { UpToMemory (Imaged name.now memory bytes.now) result }
    ensures own { IfErr result IsOwn }
{
    match vm_image::read(alloc, bytes, memory) {
        Ok(image) => Ok(image),
        Err(ImageError::Fault { at, kind }) => Err(bad(
            alloc,
            Role::Image,
            name,
            at,
            image_kind(kind),
        )),
        Err(ImageError::Memory) => Err(Refusal::Memory),
    }
}

/// The same, with the limit on the file's length.
pub(crate) fn image_in(
    alloc: Global,
    name: &str,
    memory: u64,
    bytes: &[u8],
) -> Result<FlatImage, Refusal>
    requires { memory ≤ 1073741824 }
    ensures value { UpToMemory (ImageIn name.now memory bytes.now) result }
    ensures own { IfErr result IsOwn }
{
    let most = memory + HEADER_SIZE;
    if bytes.len() as u64 > most {
        return Err(bad(alloc, Role::Image, name, most, Kind::Long));
    }
    imaged(alloc, name, memory, bytes)
}

/// The image in a file.
pub(crate) fn read_image<H: Host>(
    alloc: Global,
    host: &mut H,
    name: &str,
    memory: u64,
) -> Result<FlatImage, Refusal>
    requires { memory ≤ 1073741824 }
    ensures value { UpToMemory (ImageOf (H.seen host.old).tells (H.seen host.old).file name.now memory) result }
    ensures causes { HasReadCauses result (H.seen host.old) (H.seen host.new) }
    ensures leaves { ReadsHost (H.seen host.old) (H.seen host.new) }
{
    let bytes = load_file(alloc, host, Role::Image, name, memory + HEADER_SIZE)?;
    image_in(alloc, name, memory, bytes.as_slice())
}
