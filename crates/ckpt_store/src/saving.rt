//! Writes a file behind a gate byte, so that a crash at any moment leaves it refused or whole.
ghost use Rattle.std.specs.Prelude.{◌≡◌, ◌<◌, ◌^◌, ◌∷◌, [], ℕ, List, length, slice_get, drop, Some, IsSome, IsErrOf, OnOk, IfSome};
ghost use Rattle.vm_host.specs.declared.host.HostFault.TheVariants.{Missing};
ghost use Rattle.vm_host.specs.Told.{WhereTold};
ghost use Rattle.vm_host.specs.Counts.{HasCause};
ghost use Rattle.vm_host.specs.Files.{Written};
ghost use Rattle.vm_host.specs.Crash.{AddsTorn, Only, ReadsNow};
ghost use Rattle.vm_host.specs.Leaves.{WritesFile};
ghost use Rattle.ckpt_store.specs.Gate.{IsClosed, KeepsGate};
ghost use Rattle.ckpt_store.specs.Saving.{Saves};

use std::alloc::Global;
use vm_host::{Host, HostFault, MemText, TextSource};

/// Writes a text that begins with 01 into a file of its own, behind a gate that is opened last.
///
/// The file is made, a gate byte 00 written and synced, then the text behind it and synced, then 01 over the gate
/// and synced. After `Ok` the file reads as the text, and each crash leaves it. A crash at any moment from the
/// file's making on leaves a file whose gate is shut, or the whole text; that holds after a fault too.
/// Every other file stays.
pub fn save<H: Host>(alloc: Global, host: &mut H, name: &str, text: &[u8]) -> Result<(), HostFault>
    requires { slice_get text.now 0 ≡ Some 1 }
    ensures { Saves text.now name.now (H.seen host.old) (H.seen host.new) result }
{
    save_from(alloc, host, name, &mut MemText::new(text, 4100))
}

/// The same as [`save`], of a text that comes in pieces. It has fewer than 2^63 bytes.
pub fn save_from<H: Host, P: TextSource>(
    alloc: Global,
    host: &mut H,
    name: &str,
    pieces: &mut P,
) -> Result<(), HostFault>
    requires gate { slice_get (P.left pieces.old) 0 ≡ Some 1 }
    requires fits { length (P.left pieces.old) < 2 ^ 63 }
    ensures { Saves (P.left pieces.old) name.now (H.seen host.old) (H.seen host.new) result }
{
    shut(alloc, host, name)?;
    fill(alloc, host, name, pieces)?;
    write_through(alloc, host, name, 0, &[1])
}

/// Makes a file anew that consists of a shut gate.
fn shut<H: Host>(alloc: Global, host: &mut H, name: &str) -> Result<(), HostFault>
    ensures file { WhereTold (H.seen host.old).tells
        (OnOk result ((H.seen host.new).file name.now ≡ Some (0 ∷ []))) }
    ensures durable { WhereTold (H.seen host.old).tells
        (OnOk result (Only (0 ∷ []) ((H.seen host.new).left name.now (H.seen host.new).moment))) }
    ensures made { WhereTold (H.seen host.old).tells
        (OnOk result ((H.seen host.old).moment < (H.seen host.new).made name.now)) }
    ensures any_moment { WhereTold (H.seen host.old).tells ((H.seen host.old).moment < (H.seen host.new).made name.now →
        (b : List ℕ) → (H.seen host.new).left name.now ((H.seen host.new).made name.now) b → IsClosed b) }
    ensures cause { HasCause name.now (H.seen host.old) (H.seen host.new) result }
    ensures not_missing { IsErrOf result Missing → ⊥ }
    ensures leaves { WritesFile name.now (H.seen host.old) (H.seen host.new) }
    ensures reads { WhereTold (H.seen host.old).tells (ReadsNow (H.seen host.new)) }
{
    host.make(alloc, name)?;
    write_through(alloc, host, name, 0, &[0])
}

/// Writes what comes behind the gate, which stays, and makes sure of it.
fn fill<H: Host, P: TextSource>(
    alloc: Global,
    host: &mut H,
    name: &str,
    pieces: &mut P,
) -> Result<(), HostFault>
    requires shut { WhereTold (H.seen host.old).tells ((H.seen host.old).file name.now ≡ Some (0 ∷ [])) }
    requires some { 0 < length (P.left pieces.old) }
    requires fits { length (P.left pieces.old) < 2 ^ 63 }
    ensures file { WhereTold (H.seen host.old).tells (OnOk result
        ((H.seen host.new).file name.now ≡ Some (0 ∷ drop 1 (P.left pieces.old)))) }
    ensures durable { WhereTold (H.seen host.old).tells (OnOk result
        (Only (0 ∷ drop 1 (P.left pieces.old)) ((H.seen host.new).left name.now (H.seen host.new).moment))) }
    ensures crash { WhereTold (H.seen host.old).tells (KeepsGate
        ((H.seen host.old).left name.now (H.seen host.old).moment) ((H.seen host.new).left name.now (H.seen host.old).moment)) }
    ensures made { WhereTold (H.seen host.old).tells ((H.seen host.new).made ≡ (H.seen host.old).made) }
    ensures cause { HasCause name.now (H.seen host.old) (H.seen host.new) result }
    ensures not_missing { IsErrOf result Missing → ⊥ }
    ensures leaves { WritesFile name.now (H.seen host.old) (H.seen host.new) }
    ensures reads { WhereTold (H.seen host.old).tells (ReadsNow (H.seen host.new)) }
{
    write_rest(alloc, host, name, pieces)?;
    host.sync(name)
}

/// Writes what comes behind the gate, which stays.
fn write_rest<H: Host, P: TextSource>(
    alloc: Global,
    host: &mut H,
    name: &str,
    pieces: &mut P,
) -> Result<(), HostFault>
    requires shut { WhereTold (H.seen host.old).tells ((H.seen host.old).file name.now ≡ Some (0 ∷ [])) }
    requires some { 0 < length (P.left pieces.old) }
    requires fits { length (P.left pieces.old) < 2 ^ 63 }
    ensures file { WhereTold (H.seen host.old).tells (OnOk result
        ((H.seen host.new).file name.now ≡ Some (0 ∷ drop 1 (P.left pieces.old)))) }
    ensures crash { WhereTold (H.seen host.old).tells (KeepsGate
        ((H.seen host.old).left name.now (H.seen host.old).moment) ((H.seen host.new).left name.now (H.seen host.old).moment)) }
    ensures made { WhereTold (H.seen host.old).tells ((H.seen host.new).made ≡ (H.seen host.old).made) }
    ensures cause { HasCause name.now (H.seen host.old) (H.seen host.new) result }
    ensures not_missing { IsErrOf result Missing → ⊥ }
    ensures leaves { WritesFile name.now (H.seen host.old) (H.seen host.new) }
    ensures reads { WhereTold (H.seen host.old).tells (ReadsNow (H.seen host.new)) }
{
    let mut buffer = [0u8; 4100];
    let first = pieces.next(&mut buffer);
    host.write_at(alloc, name, 1, &buffer[1..first])?;
    let mut at = first as u64;
    'streaming: loop {
        let count = pieces.next(&mut buffer);
        if count == 0 {
            return Ok(());
        }
        host.write_at(alloc, name, at, &buffer[..count])?;
        at += count as u64;
    }
}

/// Writes a piece and makes sure of it.
fn write_through<H: Host>(
    alloc: Global,
    host: &mut H,
    name: &str,
    at: u64,
    piece: &[u8],
) -> Result<(), HostFault>
    requires { WhereTold (H.seen host.old).tells (IsSome ((H.seen host.old).file name.now)) }
    ensures written { WhereTold (H.seen host.old).tells (OnOk result
        (Written ((H.seen host.old).file name.now) at piece.now ((H.seen host.new).file name.now))) }
    ensures durable { WhereTold (H.seen host.old).tells (OnOk result
        (IfSome ((H.seen host.new).file name.now) (λ f. Only f ((H.seen host.new).left name.now (H.seen host.new).moment)))) }
    ensures crash { WhereTold (H.seen host.old).tells (AddsTorn at (length piece.now)
        ((H.seen host.old).left name.now (H.seen host.old).moment) ((H.seen host.new).left name.now (H.seen host.old).moment)) }
    ensures made { WhereTold (H.seen host.old).tells ((H.seen host.new).made ≡ (H.seen host.old).made) }
    ensures cause { HasCause name.now (H.seen host.old) (H.seen host.new) result }
    ensures not_missing { IsErrOf result Missing → ⊥ }
    ensures leaves { WritesFile name.now (H.seen host.old) (H.seen host.new) }
    ensures reads { WhereTold (H.seen host.old).tells (ReadsNow (H.seen host.new)) }
{
    host.write_at(alloc, name, at, piece)?;
    host.sync(name)
}
