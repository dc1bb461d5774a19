ghost use Rattle.std.specs.Prelude.{◌≡◌, ◌+◌, ◌≤◌, ◌↔◌, ℕ, nat_eq, length, drop, Option, Some, None, OnOk, IfOk, IfErr, MatchResult};
ghost use Rattle.std.specs.List.{common_prefix_len};
ghost use Rattle.byteorder.specs.Endian.{little_number};
ghost use Rattle.vm_law.specs.declared.image.FlatImage.{FlatImage};
ghost use Rattle.vm_law.specs.Image.{IsImage};
ghost use Rattle.vm_image.specs.declared.error.ImageKind.{ImageKind};
ghost use Rattle.vm_image.specs.declared.error.ImageError.{ImageError};
ghost use Rattle.vm_image.specs.Fault.{entry_in, code_in, first_fault};

use crate::error::{Fault, ImageError, ImageKind};
use byteorder::{ByteOrder, LittleEndian};
use std::alloc::Global;
use vm_law::{FlatImage, Seq};

/// What the file of an image begins with.
pub(crate) const MAGIC: [u8; 8] = *b"VMFLAT1\n";

/// How many bytes stand before the payload.
const HEADER_SIZE: usize = 24;

/// How many bytes of code an image has at most: 16 MiB.
const CODE_LIMIT: u64 = 16_777_216;

/// The image that has these bytes, where a memory of `ram` bytes allows it.
///
/// A fault comes exactly where the bytes are the file of no such image: the first place, in the order of the kinds.
/// `Memory` comes only where they are.
pub fn read(alloc: Global, bytes: &[u8], ram: u64) -> Result<FlatImage, ImageError>
    ensures found { IfOk result (λ f. IsImage ram bytes.now f) }
    ensures only { (f : FlatImage) → IsImage ram bytes.now f
        → MatchResult result (λ g. g ≡ f) (λ e. e ≡ ImageError.Memory) }
    ensures fault { (at : ℕ) (kind : ImageKind)
        → (result ≡ Err (ImageError.Fault at kind)) ↔ (first_fault ram bytes.now ≡ Some (at, kind)) }
{
    let parts = parts_of(bytes, ram)?;
    let payload = Seq::from_slice(alloc, parts.payload)?;
    Ok(FlatImage {
        entry: parts.entry,
        code: parts.code,
        payload,
    })
}

/// The parts of an image.
#[derive(Clone, Copy)]
struct Parts<'a> {
    entry: u64,
    code: u64,
    payload: &'a [u8],
}

/// The parts of the image in these bytes, or the first fault.
#[tactic(auto, unfolding(crate::specs::Fault::first_fault))]
fn parts_of(bytes: &[u8], ram: u64) -> Result<Parts<'_>, Fault>
    ensures entry { IfOk result (λ p. p.entry ≡ entry_in bytes.now) }
    ensures code { IfOk result (λ p. p.code ≡ code_in bytes.now) }
    ensures payload { IfOk result (λ p. p.payload.now ≡ drop 24 bytes.now) }
    ensures ok { OnOk result (first_fault ram bytes.now ≡ None) }
    ensures err { IfErr result (λ e. first_fault ram bytes.now ≡ Some (e.at, e.kind)) }
{
    let begun = common_len(&MAGIC, bytes);
    if begun < MAGIC.len() {
        return Err(fault(begun, ImageKind::Magic));
    }
    if bytes.len() < HEADER_SIZE {
        return Err(fault(bytes.len(), ImageKind::Short));
    }
    let payload = &bytes[HEADER_SIZE..];
    let entry = number_at(bytes, 8);
    let code = number_at(bytes, 16);
    if code == 0 || code > CODE_LIMIT || code > payload.len() as u64 {
        return Err(fault(16, ImageKind::Code));
    }
    if entry >= code {
        return Err(fault(8, ImageKind::Entry));
    }
    if payload.len() as u64 > ram {
        return Err(fault(HEADER_SIZE, ImageKind::Large));
    }
    Ok(Parts {
        entry,
        code,
        payload,
    })
}

/// A fault at a place.
fn fault(at: usize, kind: ImageKind) -> Fault
    ensures { result ≡ record { at = at; kind = kind } }
{
    Fault {
        at: at as u64,
        kind,
    }
}

/// How many bytes two slices begin with in common.
#[tactic(auto, using(std::proofs::lemmas::Grind::common_steps, crate::proofs::Prefixes::prefixes))]
fn common_len(first: &[u8], second: &[u8]) -> usize
    ensures { result ≡ common_prefix_len nat_eq first.now second.now }
{
    let mut n = 0;
    while n < first.len() && n < second.len() && first[n] == second[n] {
        n += 1;
    }
    n
}

/// The number in the eight bytes from a place on.
fn number_at(bytes: &[u8], at: usize) -> u64
    requires { at + 8 ≤ length bytes.now }
    ensures { result ≡ little_number 8 (drop at bytes.now) }
{
    LittleEndian::read_u64(&bytes[at..])
}
