//! Files, read whole or at their front.
ghost use Rattle.std.specs.Prelude.{◌≡◌, ◌⊎◌, ◌≤◌, length, Some, Err, IfOk, IfErr, IsSomeAnd};
ghost use Rattle.vm_host.specs.Told.{WhereTold};
ghost use Rattle.vm_host.specs.Leaves.{ReadsHost};
ghost use Rattle.vm_status.specs.declared.refusal.Refusal.TheVariants.{Memory};
ghost use Rattle.vm_start.specs.Causes.{HasReadCauses};
ghost use Rattle.vm_start.specs.Files.{FileOf};
ghost use Rattle.vm_start.specs.Start.{has_magic};
ghost use Rattle.vm_start.specs.Steps.{Unread};

use crate::refusing::{after_host, after_load};
use ckpt_store::load;
use std::alloc::Global;
use vm_host::Host;
use vm_law::{Seq, Text};
use vm_status::{Refusal, Role};

/// What the file of an image begins with.
const MAGIC: [u8; 8] = *b"VMFLAT1\n";

/// How many bytes a configuration or a script has at most: 1 MiB.
pub(crate) const TEXT_LIMIT: u64 = 1_048_576;

/// How many bytes the file of an image has beyond those of memory: its header.
pub(crate) const HEADER_SIZE: u64 = 24;

/// The bytes of a file, which may have at most `most` of them.
pub(crate) fn load_file<H: Host>(
    alloc: Global,
    host: &mut H,
    role: Role,
    name: &str,
    most: u64,
) -> Result<Seq<u8>, Refusal>
    ensures bytes { IfOk result (λ b. WhereTold (H.seen host.old).tells ((H.seen host.old).file name.now ≡ Some b)) }
    ensures within { IfOk result (λ b. length b ≤ most) }
    ensures refused { IfErr result (λ e. Unread (H.seen host.old).tells ((H.seen host.old).file name.now) role name.now most e) }
    ensures causes { HasReadCauses result (H.seen host.old) (H.seen host.new) }
    ensures leaves { ReadsHost (H.seen host.old) (H.seen host.new) }
{
    let owned = Text::from_text(alloc, name)?;
    match load(alloc, host, name, most) {
        Ok(bytes) => Ok(Seq::from_vec(bytes)),
        Err(fault) => Err(after_load(role, owned, most, fault)),
    }
}

/// Whether bytes begin as the file of an image.
pub(crate) fn has_magic(bytes: &[u8]) -> bool
    ensures { result ≡ has_magic bytes.now }
{
    bytes.len() >= MAGIC.len() && bytes[..MAGIC.len()] == MAGIC[..]
}

/// Whether a file begins as that of an image.
pub(crate) fn begins_as_image<H: Host>(
    alloc: Global,
    host: &mut H,
    name: &str,
) -> Result<bool, Refusal>
    ensures value { WhereTold (H.seen host.old).tells (IfOk result (λ b. IsSomeAnd ((H.seen host.old).file name.now) (λ f. b ≡ has_magic f))) }
    ensures refused { IfErr result (λ e. (e ≡ Memory) ⊎ FileOf (H.seen host.old).tells (H.seen host.old).file name.now (Err e)) }
    ensures causes { HasReadCauses result (H.seen host.old) (H.seen host.new) }
    ensures leaves { ReadsHost (H.seen host.old) (H.seen host.new) }
{
    let owned = Text::from_text(alloc, name)?;
    let mut front = [0u8; 8];
    match host.read_at(name, 0, &mut front) {
        Ok(count) => Ok(has_magic(&front[..count])),
        Err(fault) => Err(after_host(owned, fault)),
    }
}
