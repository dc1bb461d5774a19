//! Reads a file whole.
ghost use Rattle.std.specs.Prelude.{◌≡◌, ◌≤◌, ◌<◌, length, take, min, Some, None, IfOk, IsSomeAnd, IsErrOf};
ghost use Rattle.vm_host.specs.declared.host.HostFault.TheVariants.{Missing};
ghost use Rattle.vm_host.specs.Told.{WhereTold};
ghost use Rattle.vm_host.specs.Counts.{HasCause};
ghost use Rattle.vm_host.specs.Leaves.{ReadsHost};
ghost use Rattle.ckpt_store.specs.Loading.{host_answer, IsGatedFront};

use std::alloc::{AllocError, Global};
use thiserror::Error;
use vm_host::{Host, HostFault};

/// Why a file wasn't read whole.
#[derive(Clone, Copy, Debug, PartialEq, Eq, Error)]
pub enum LoadFault {
    /// A call on the host failed, or memory was refused.
    #[error("{0}")]
    Host(HostFault),
    /// The file is longer than the limit.
    #[error("the file is too long")]
    Long,
}

impl From<HostFault> for LoadFault {
    ghost use Rattle.ckpt_store.specs.declared.loading.LoadFault.TheVariants.{Host};

    ghost from_gives = { λ f e. e ≡ Host f };

    fn from(fault: HostFault) -> LoadFault {
        LoadFault::Host(fault)
    }
}

impl From<AllocError> for LoadFault {
    ghost use Rattle.vm_host.specs.declared.host.HostFault.TheVariants.{Memory};
    ghost use Rattle.ckpt_store.specs.declared.loading.LoadFault.TheVariants.{Host};

    ghost from_gives = { λ _ e. e ≡ Host Memory };

    fn from(_error: AllocError) -> LoadFault {
        LoadFault::Host(HostFault::Memory)
    }
}

/// So many bytes are read at once: 64 KiB.
const BLOCK: usize = 65536;

/// The bytes of a file that has at most `most` of them.
///
/// `Long` comes exactly where no call failed and the file is longer than that; then no memory was taken. `Missing`
/// comes only where there is no such file. No file is changed, whatever the answer.
pub fn load<H: Host>(
    alloc: Global,
    host: &mut H,
    name: &str,
    most: u64,
) -> Result<Vec<u8>, LoadFault>
    ensures bytes { WhereTold (H.seen host.old).tells (IfOk result (λ v. (H.seen host.old).file name.now ≡ Some v.items)) }
    ensures within { IfOk result (λ v. length v.items ≤ most) }
    ensures long { WhereTold (H.seen host.old).tells
        (IsErrOf result LoadFault.Long → IsSomeAnd ((H.seen host.old).file name.now) (λ f. most < length f)) }
    ensures missing { WhereTold (H.seen host.old).tells
        (IsErrOf result (LoadFault.Host Missing) → (H.seen host.old).file name.now ≡ None) }
    // Each fault of the host raised its count in this call, and at no other answer a count rose. At Failed the host
    // tells this name, and at every other answer the one that it told before.
    ensures cause { HasCause name.now (H.seen host.old) (H.seen host.new) (host_answer result) }
    ensures leaves { ReadsHost (H.seen host.old) (H.seen host.new) }
{
    let size = measure(host, name, most)?;
    read_behind(alloc, host, name, Vec::new(alloc), size, most)
}

/// The same as [`load`] of a file behind a gate byte: where its first byte isn't 01, this byte alone is the
/// answer, and nothing more is read.
pub fn load_gated<H: Host>(
    alloc: Global,
    host: &mut H,
    name: &str,
    most: u64,
) -> Result<Vec<u8>, LoadFault>
    ensures bytes { WhereTold (H.seen host.old).tells
        (IfOk result (λ v. IsSomeAnd ((H.seen host.old).file name.now) (λ f. IsGatedFront f v.items))) }
    ensures within { IfOk result (λ v. length v.items ≤ most) }
    ensures long { WhereTold (H.seen host.old).tells
        (IsErrOf result LoadFault.Long → IsSomeAnd ((H.seen host.old).file name.now) (λ f. most < length f)) }
    ensures missing { WhereTold (H.seen host.old).tells
        (IsErrOf result (LoadFault.Host Missing) → (H.seen host.old).file name.now ≡ None) }
    ensures cause { HasCause name.now (H.seen host.old) (H.seen host.new) (host_answer result) }
    ensures leaves { ReadsHost (H.seen host.old) (H.seen host.new) }
{
    let size = measure(host, name, most)?;
    let gate = gate_of(alloc, host, name, most)?;
    if gate.first() == Some(&1) {
        read_behind(alloc, host, name, gate, size, most)
    } else {
        Ok(gate)
    }
}

/// How many bytes a file has, at most `most`.
fn measure<H: Host>(host: &mut H, name: &str, most: u64) -> Result<u64, LoadFault>
    ensures value { WhereTold (H.seen host.old).tells
        (IfOk result (λ n. IsSomeAnd ((H.seen host.old).file name.now) (λ f. n ≡ length f))) }
    ensures within { IfOk result (λ n. n ≤ most) }
    ensures long { WhereTold (H.seen host.old).tells
        (IsErrOf result LoadFault.Long → IsSomeAnd ((H.seen host.old).file name.now) (λ f. most < length f)) }
    ensures missing { WhereTold (H.seen host.old).tells
        (IsErrOf result (LoadFault.Host Missing) → (H.seen host.old).file name.now ≡ None) }
    ensures cause { HasCause name.now (H.seen host.old) (H.seen host.new) (host_answer result) }
    ensures leaves { ReadsHost (H.seen host.old) (H.seen host.new) }
{
    let size = host.length(name)?;
    if size > most {
        return Err(LoadFault::Long);
    }
    Ok(size)
}

/// The first byte of a file, if it has one; none where `most` is 0.
fn gate_of<H: Host>(
    alloc: Global,
    host: &mut H,
    name: &str,
    most: u64,
) -> Result<Vec<u8>, LoadFault>
    ensures bytes { WhereTold (H.seen host.old).tells
        (IfOk result (λ v. IsSomeAnd ((H.seen host.old).file name.now) (λ f. v.items ≡ take (min 1 most) f))) }
    ensures within { IfOk result (λ v. length v.items ≤ min 1 most) }
    ensures not_long { IsErrOf result LoadFault.Long → ⊥ }
    ensures missing { WhereTold (H.seen host.old).tells
        (IsErrOf result (LoadFault.Host Missing) → (H.seen host.old).file name.now ≡ None) }
    ensures cause { HasCause name.now (H.seen host.old) (H.seen host.new) (host_answer result) }
    ensures leaves { ReadsHost (H.seen host.old) (H.seen host.new) }
{
    let mut gate = [0u8; 1];
    let room = most.min(1) as usize;
    let count = host.read_at(name, 0, &mut gate[..room])?;
    let mut bytes = Vec::new(alloc);
    bytes.extend_from_slice(&gate[..count])?;
    Ok(bytes)
}

/// These first bytes of a file, and what follows them. `size` says how many bytes that is likely to be.
fn read_behind<H: Host>(
    alloc: Global,
    host: &mut H,
    name: &str,
    front: Vec<u8>,
    size: u64,
    most: u64,
) -> Result<Vec<u8>, LoadFault>
    requires { WhereTold (H.seen host.old).tells
        (IsSomeAnd ((H.seen host.old).file name.now) (λ f. front.items ≡ take (length front.items) f)) }
    ensures bytes { WhereTold (H.seen host.old).tells (IfOk result (λ v. (H.seen host.old).file name.now ≡ Some v.items)) }
    ensures within { IfOk result (λ v. length v.items ≤ most) }
    ensures long { WhereTold (H.seen host.old).tells
        (IsErrOf result LoadFault.Long → IsSomeAnd ((H.seen host.old).file name.now) (λ f. most < length f)) }
    ensures missing { WhereTold (H.seen host.old).tells
        (IsErrOf result (LoadFault.Host Missing) → (H.seen host.old).file name.now ≡ None) }
    ensures cause { HasCause name.now (H.seen host.old) (H.seen host.new) (host_answer result) }
    ensures leaves { ReadsHost (H.seen host.old) (H.seen host.new) }
{
    let mut bytes = front;
    bytes.reserve(size as usize)?;
    let mut block = Vec::new(alloc);
    block.resize(BLOCK, 0)?;
    read_blocks(host, name, bytes, &mut block, most)
}

/// These first bytes of a file, and what follows them, which is read block by block.
fn read_blocks<H: Host>(
    host: &mut H,
    name: &str,
    front: Vec<u8>,
    block: &mut [u8],
    most: u64,
) -> Result<Vec<u8>, LoadFault>
    requires front { WhereTold (H.seen host.old).tells
        (IsSomeAnd ((H.seen host.old).file name.now) (λ f. front.items ≡ take (length front.items) f)) }
    requires some { 0 < length block.old }
    ensures bytes { WhereTold (H.seen host.old).tells (IfOk result (λ v. (H.seen host.old).file name.now ≡ Some v.items)) }
    ensures within { IfOk result (λ v. length v.items ≤ most) }
    ensures long { WhereTold (H.seen host.old).tells
        (IsErrOf result LoadFault.Long → IsSomeAnd ((H.seen host.old).file name.now) (λ f. most < length f)) }
    ensures missing { WhereTold (H.seen host.old).tells
        (IsErrOf result (LoadFault.Host Missing) → (H.seen host.old).file name.now ≡ None) }
    ensures cause { HasCause name.now (H.seen host.old) (H.seen host.new) (host_answer result) }
    ensures leaves { ReadsHost (H.seen host.old) (H.seen host.new) }
{
    let mut bytes = front;
    'reading: loop {
        let at = bytes.len() as u64;
        if at > most {
            return Err(LoadFault::Long);
        }
        let count = host.read_at(name, at, block)?;
        if count == 0 {
            return Ok(bytes);
        }
        bytes.extend_from_slice(&block[..count])?;
    }
}
