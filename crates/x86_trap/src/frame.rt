ghost use Rattle.std.specs.Prelude.{◌≡◌, ◌<◌, ◌≤◌, ◌+◌, ◌*◌, [], ◌∷◌, Some, None, length, drop, is_some, unwrap_or, if◌then◌else◌};
ghost use Rattle.std.specs.List.{flat_map};
ghost use Rattle.byteorder.specs.Endian.{little_bytes};
ghost use Rattle.vm_law.specs.Memory.{written, KeepsCode};
ghost use Rattle.x86_trap.specs.Frame as spec;

use byteorder::{ByteOrder, LittleEndian};
use vm_bus::{Area, area_at};
use vm_law::{Bytes, Ctx};

/// The selectors that are pushed. Segments are not modelled, so every context has these.
const CS: u64 = 0x08;

const SS: u64 = 0x10;

/// Pushes the frame of a delivery, and gives its lowest address. Where it isn't all in RAM above the code, it gives
/// `None` and pushes nothing.
#[tactic(auto, unfolding(crate::specs::Frame::has_room, crate::specs::Frame::frame_address), using(crate::proofs::Frames::writes))]
pub(crate) fn push_frame<B: Bytes>(ctx: &Ctx, bytes: &mut B, error: Option<u64>) -> Option<u64>
    requires room { 2 ≤ B.spare bytes.old }
    ensures at { result
        ≡ (if spec.has_room ctx.now (B.memory bytes.old) error then Some (spec.frame_address ctx.now error) else None) }
    ensures memory { B.memory bytes.new
        ≡ (if spec.has_room ctx.now (B.memory bytes.old) error
        then written (B.memory bytes.old) (spec.frame_address ctx.now error) (spec.frame_of ctx.now error)
        else B.memory bytes.old) }
    ensures kept { KeepsCode (B.memory bytes.old) (B.memory bytes.new) }
    ensures room { B.spare bytes.old ≤ B.spare bytes.new + 2 }
{
    let rsp = ctx.regs[4];
    let front = front_of(error);
    let len = 48 - front as u64;
    let at = (rsp - rsp % 16).wrapping_sub(len);
    if area_at(at, len, bytes.code(), bytes.size()) != Area::Ram {
        return None;
    }
    let frame = frame_behind(ctx, error);
    bytes.write(at, &frame[front..]);
    Some(at)
}

/// Where the frame begins in the bytes of its six words: the first is the error code, where there is one.
fn front_of(error: Option<u64>) -> usize
    ensures { result ≡ (if is_some error then 0 else 8) }
{
    if error.is_some() { 0 } else { 8 }
}

/// The bytes of six words, in which the frame begins at `front_of`.
#[tactic(auto, using(crate::proofs::Frames::frame_behind))]
fn frame_behind(ctx: &Ctx, error: Option<u64>) -> [u8; 48]
    ensures { drop (if is_some error then 0 else 8) result ≡ spec.frame_of ctx.now error }
{
    bytes_of(&[error.unwrap_or(0), ctx.rip, CS, ctx.rflags, ctx.regs[4], SS])
}

/// The bytes of words, each with the lowest byte first.
fn bytes_of(words: &[u64; 6]) -> [u8; 48]
    ensures { result ≡ flat_map (little_bytes 8) words.now }
{
    let mut bytes = [0; 48];
    for k in 0..6 {
        LittleEndian::write_u64(&mut bytes[8 * k..], words[k]);
    }
    bytes
}
